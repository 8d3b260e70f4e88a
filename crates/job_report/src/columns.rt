ghost use Rattle.std.specs.{Prelude.{◌≡◌, ◌-◌, ◌++◌, IfOk, IsTrue, OnOk, length, map}, List.AllZip};
ghost use Rattle.linear_law.specs.Names.{Each};
ghost use Rattle.signed_sum.specs.Names.{numbers_from};
ghost use Rattle.report_law.specs.Names.{number_pairs as number_pairs_of, numbers_of, unnumbered};
ghost use Rattle.job_report.specs.Listed.{IsInside, IsListedColumn};

use crate::depth::Depth;
use cohomology::Column;
use comch_io::Listed;
use complex_index::Indexed;
use fp_field::Fp;
use report::{Column as ListedColumn, PairColumn};
use std::alloc::{AllocError, Global};

/// The values as numbers.
fn numbers_in<const P: u32>(alloc: Global, values: &[Fp<P>]) -> Result<Vec<u32>, AllocError>
    ensures { IfOk result (λ v. v.items ≡ values.now) }
{
    let mut numbers = Vec::new(alloc);
    for value in values {
        numbers.push(value.value())?;
    }
    Ok(numbers)
}

/// The column of degree `n` as it is listed.
fn listed_column<const P: u32, B: Depth<P>>(
    alloc: Global,
    index: &Indexed,
    n: u32,
    column: &Column<P>,
) -> Result<ListedColumn, AllocError>
    requires { IsTrue B.keeps → IsInside index.now (n - 1) column.now.primitive }
    ensures { IfOk result (λ d. IsListedColumn B.keeps index.now n column.now d) }
{
    let values = numbers_in(alloc, &column.values)?;
    let primitive = B::kept_chain(alloc, index, n.saturating_sub(1), &column.primitive)?;
    Ok(ListedColumn {
        values: Listed::from(values),
        primitive,
    })
}

/// The columns of degree `n` as they are listed.
pub fn listed_columns<const P: u32, B: Depth<P>>(
    alloc: Global,
    index: &Indexed,
    n: u32,
    columns: &[Column<P>],
) -> Result<Listed<ListedColumn>, AllocError>
    requires { Each (λ c. IsTrue B.keeps → IsInside index.now (n - 1) c.primitive) columns.now }
    ensures { IfOk result (λ ds. AllZip (IsListedColumn B.keeps index.now n) columns.now ds) }
{
    let mut listed = Vec::new(alloc);
    for column in columns {
        listed.push(listed_column::<P, B>(alloc, index, n, column)?)?;
    }
    Ok(Listed::from(listed))
}

/// Appends the pairs of a number and the numbers from 1 to a count.
fn add_pairs(pairs: &mut Vec<(u32, u32)>, i: u32, count: u32) -> Result<(), AllocError>
    ensures { OnOk result (pairs.new.items ≡ pairs.old.items ++ map (λ j. (i, j)) (numbers_from 1 count)) }
{
    for j in 0..count {
        pairs.push((i, j + 1))?;
    }
    Ok(())
}

/// The pairs of the numbers from 1 to two counts, by the first and then the second.
pub fn number_pairs(alloc: Global, first: u32, second: u32) -> Result<Vec<(u32, u32)>, AllocError>
    ensures { IfOk result (λ v. v.items ≡ number_pairs_of first second) }
{
    let mut pairs = Vec::new(alloc);
    for i in 0..first {
        add_pairs(&mut pairs, i + 1, second)?;
    }
    Ok(pairs)
}

/// The column of degree `n` of a product, as it is listed with the numbers of its classes.
fn pair_column<const P: u32, B: Depth<P>>(
    alloc: Global,
    index: &Indexed,
    n: u32,
    pair: (u32, u32),
    column: &Column<P>,
) -> Result<PairColumn, AllocError>
    requires { IsTrue B.keeps → IsInside index.now (n - 1) column.now.primitive }
    ensures numbers { IfOk result (λ d. numbers_of d ≡ pair) }
    ensures column { IfOk result (λ d. IsListedColumn B.keeps index.now n column.now (unnumbered d)) }
{
    let (i, j) = pair;
    let ListedColumn { values, primitive } = listed_column::<P, B>(alloc, index, n, column)?;
    Ok(PairColumn {
        i,
        j,
        values,
        primitive,
    })
}

/// The columns of degree `n` of products, as they are listed with the numbers of their classes.
pub fn pair_columns<const P: u32, B: Depth<P>>(
    alloc: Global,
    index: &Indexed,
    n: u32,
    pairs: &[(u32, u32)],
    columns: &[Column<P>],
) -> Result<Listed<PairColumn>, AllocError>
    requires inside { Each (λ c. IsTrue B.keeps → IsInside index.now (n - 1) c.primitive) columns.now }
    requires same { length pairs.now ≡ length columns.now }
    ensures numbers { IfOk result (λ ds. map numbers_of ds ≡ pairs.now) }
    ensures columns { IfOk result (λ ds. AllZip (IsListedColumn B.keeps index.now n) columns.now (map unnumbered ds)) }
{
    let mut listed = Vec::new(alloc);
    for (pair, column) in pairs.iter().zip(columns) {
        listed.push(pair_column::<P, B>(alloc, index, n, *pair, column)?)?;
    }
    Ok(Listed::from(listed))
}
