ghost use Rattle.std.specs.{Prelude.{◌≡◌, ◌≤◌, ◌++◌, ◌∷◌, [], length, IfOk, IsTrue, OnOk}, List.filter};
ghost use Rattle.fp_field.specs.Served.{served};
ghost use Rattle.signed_sum.specs.Names.{numbers_from};
ghost use Rattle.report_text_law.specs.{Names.{ended, spelled}, declared.line.Line.TheVariants.{Column as column_line}};
ghost use Rattle.bockstein.specs.Matrices.{values_of};
ghost use Rattle.bockstein_text.specs.Names.{Adds, IsListed, columns_text, is_live, matrix_heading, matrix_text};

use bockstein::bockstein_matrix;
use cohomology::{Basis, Column};
use comch_io::{Bytes, Listed};
use complex_index::Indexed;
use fp_field::Fp;
use report_text::spell;
use report_text_law::Line;
use std::alloc::{AllocError, Global};

/// The values as numbers.
fn numbers_in<const P: u32>(alloc: Global, values: &[Fp<P>]) -> Result<Vec<u32>, AllocError>
    ensures { IfOk result (λ v. v.items ≡ values.now) }
{
    let mut numbers = Vec::new(alloc);
    for value in values {
        numbers.push(value.value())?;
    }
    Ok(numbers)
}

/// Adds the line of the column with number `j`.
fn add_column<const P: u32>(
    alloc: Global,
    text: &mut Bytes,
    j: u32,
    column: &Column<P>,
) -> Result<(), AllocError>
    ensures { OnOk result (text.new ≡ text.old ++ ended (spelled (column_line j column.now.values.items))) }
{
    let numbers = numbers_in(alloc, &column.values)?;
    let values = Listed::from(numbers);
    spell(alloc, text, &Line::Column { j, values })
}

/// Adds the lines of so many columns, numbered from 1.
fn add_columns<const P: u32>(
    alloc: Global,
    text: &mut Bytes,
    count: u32,
    columns: &[Column<P>],
) -> Result<(), AllocError>
    requires { length columns.now ≡ count }
    ensures { OnOk result (text.new ≡ text.old ++ columns_text 1 (values_of columns.now)) }
{
    for j in 0..count {
        add_column(alloc, text, j + 1, &columns[j as usize])?;
    }
    Ok(())
}

/// Adds the heading of the matrix from degree `q` to the next.
fn add_heading(alloc: Global, text: &mut Bytes, q: u32) -> Result<(), AllocError>
    requires { q ≤ 255 }
    ensures { OnOk result (text.new ≡ text.old ++ ended (matrix_heading q)) }
{
    let heading = format!(in alloc; "bockstein {q} to {}\n", q + 1)?;
    text.extend(heading.as_bytes())
}

/// Whether the cohomology is not zero, neither in degree `q` nor in the next.
fn is_live<const P: u32, B: Basis<P>>(basis: &B, q: u32) -> bool
    requires { q ≤ 255 }
    ensures { result ≡ is_live (B.classes basis.now) q }
{
    basis.rank(q) > 0 && basis.rank(q + 1) > 0
}

/// Adds the matrix from degree `q` to the next, where the cohomology in both is not zero.
fn add_matrix<const P: u32, B: Basis<P>>(
    alloc: Global,
    text: &mut Bytes,
    index: &Indexed,
    basis: &B,
    q: u32,
) -> Result<(), AllocError>
    requires prime { IsTrue (served P) }
    requires of { B.is_of index.now basis.now }
    requires low { q ≤ 255 }
    ensures { OnOk result (Adds matrix_text (IsListed B.keeps index.now (B.classes basis.now)) (filter (is_live (B.classes basis.now)) (q ∷ [])) text.old text.new) }
{
    if !is_live(basis, q) {
        return Ok(());
    }
    let columns = bockstein_matrix(alloc, basis, index, q)?;
    add_heading(alloc, text, q)?;
    add_columns(alloc, text, basis.rank(q), &columns)
}

/// Adds the matrices of a complex, by degree.
pub fn add_matrices<const P: u32, B: Basis<P>>(
    alloc: Global,
    text: &mut Bytes,
    index: &Indexed,
    basis: &B,
) -> Result<(), AllocError>
    requires prime { IsTrue (served P) }
    requires of { B.is_of index.now basis.now }
    ensures { OnOk result (Adds matrix_text (IsListed B.keeps index.now (B.classes basis.now)) (filter (is_live (B.classes basis.now)) (numbers_from 0 (length index.now))) text.old text.new) }
{
    for q in 0..index.degrees() {
        add_matrix(alloc, text, index, basis, q)?;
    }
    Ok(())
}
