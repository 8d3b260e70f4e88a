//! Sums of rows, each times a coefficient: all their pairs in one array, which is sorted once.
ghost use Rattle.std.specs.Prelude.{◌≡◌, ℕ, ◌+◌, ◌*◌, [], get_or, OnOk, IfOk, IsTrue};
ghost use Rattle.linear_law.specs.Names.{Congruent};
ghost use Rattle.fp_field.specs.Served.{served};
ghost use Rattle.sparse_rows.specs.Rows.{IsRow, value_in};
ghost use Rattle.row_reduce.specs.Names.{combined};

use fp_field::Fp;
use sparse_rows::Row;
use std::alloc::{AllocError, Global};

/// The sum of the rows, each times its coefficient. A coefficient past the rows adds nothing.
pub fn combine<const P: u32>(
    alloc: Global,
    rows: &[Row<P>],
    coefficients: &[(u32, Fp<P>)],
) -> Result<Row<P>, AllocError>
    requires { IsTrue (served P) }
    ensures row { IfOk result (λ r. IsRow P r) }
    ensures sum { IfOk result (λ r. (y : ℕ) → Congruent P (value_in r y) (combined rows.now (value_in coefficients.now) y)) }
{
    let mut pairs = Vec::new(alloc);
    for entry in coefficients {
        append_at(rows, entry.0, entry.1, &mut pairs)?;
    }
    Row::from_pairs(alloc, pairs.as_slice())
}

/// Appends the pairs of a multiple of the row at a place; past the rows none.
fn append_at<const P: u32>(
    rows: &[Row<P>],
    at: u32,
    by: Fp<P>,
    pairs: &mut Vec<(u32, Fp<P>)>,
) -> Result<(), AllocError>
    requires { IsTrue (served P) }
    ensures { OnOk result ((y : ℕ) → Congruent P (value_in pairs.new.items y) (value_in pairs.old.items y + by.entry * value_in (get_or rows.now at []) y)) }
{
    match rows.get(at as usize) {
        Some(row) => append_scaled(row.as_slice(), by, pairs),
        None => Ok(()),
    }
}

/// Appends the pairs of a row, each value times `by`.
fn append_scaled<const P: u32>(
    row: &[(u32, Fp<P>)],
    by: Fp<P>,
    pairs: &mut Vec<(u32, Fp<P>)>,
) -> Result<(), AllocError>
    requires { IsTrue (served P) }
    ensures { OnOk result ((y : ℕ) → Congruent P (value_in pairs.new.items y) (value_in pairs.old.items y + by.entry * value_in row.now y)) }
{
    for pair in row {
        pairs.push((pair.0, by.mul(pair.1)))?;
    }
    Ok(())
}
