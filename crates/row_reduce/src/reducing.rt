ghost use Rattle.std.specs.Prelude.{◌≡◌, ℕ, ◌+◌, ◌*◌, ◌%◌, ◌<◌, ◌≤◌, length, slice_index, IfOk, IsTrue};
ghost use Rattle.linear_law.specs.Names.{Congruent, Each, StartsAt};
ghost use Rattle.fp_field.specs.Served.{served};
ghost use Rattle.sparse_rows.specs.Rows.{IsBelow, value_in};
ghost use Rattle.row_reduce.specs.Names.{IsReducedTo, Owns, StoredFits};

use crate::{Pivots, Stored};
use fp_field::Fp;
use std::alloc::{AllocError, Global};

/// `sum` plus `by` times `value`.
pub(crate) fn plus_product<const P: u32>(sum: Fp<P>, by: Fp<P>, value: Fp<P>) -> Fp<P>
    requires { IsTrue (served P) }
    ensures { result ≡ (sum.entry + by.entry * value.entry) % P }
{
    Fp::new(sum.value() as u64 + by.value() as u64 * value.value() as u64)
}

/// Adds `by` times a row to the sum.
pub fn add_row<const P: u32>(sum: &mut [Fp<P>], row: &[(u32, Fp<P>)], by: Fp<P>)
    requires prime { IsTrue (served P) }
    requires fits { IsBelow (length sum.old) row.now }
    ensures { (k : ℕ) → Congruent P (slice_index sum.new k) (slice_index sum.old k + by.entry * value_in row.now k) }
{
    for entry in row {
        let at = entry.0 as usize;
        sum[at] = plus_product(sum[at], by, entry.1);
    }
}

/// Cancels the value at the lead of a row, and says by which factor.
fn cancel<const P: u32>(sum: &mut [Fp<P>], stored: &Stored<P>) -> Fp<P>
    requires prime { IsTrue (served P) }
    requires fits { StoredFits P (length sum.old) stored.now }
    requires before { StartsAt P stored.now.place (slice_index sum.old) }
    ensures before { StartsAt P (stored.now.place + 1) (slice_index sum.new) }
    ensures sum { (y : ℕ) → Congruent P (slice_index sum.new y) (slice_index sum.old y + result * value_in stored.now.row y) }
{
    let by = sum[stored.place as usize].mul(stored.factor);
    stored.row.add_to(sum, by);
    by
}

/// Adds multiples of the rows until the lead is that of no row. Gives the lead, or the width where
/// nothing is left, and the numbers and factors of the rows that were added.
pub fn reduce<const P: u32>(
    alloc: Global,
    sum: &mut [Fp<P>],
    start: usize,
    stored: &[Stored<P>],
    pivots: &Pivots,
) -> Result<(usize, Vec<(u32, Fp<P>)>), AllocError>
    requires prime { IsTrue (served P) }
    requires fits { Each (StoredFits P (length sum.old)) stored.now }
    requires owns { Owns (length sum.old) stored.now pivots.now }
    requires start { start ≤ length sum.old }
    requires before { StartsAt P start (slice_index sum.old) }
    ensures { IfOk result (λ r. IsReducedTo P (length sum.old) stored.now pivots.now sum.old sum.new r.0 r.1.items) }
{
    let mut history = Vec::new(alloc);
    for at in start..sum.len() {
        if !sum[at].is_zero() {
            let Some(row) = pivots.row_of(at) else {
                return Ok((at, history));
            };
            let by = cancel(sum, &stored[row as usize]);
            history.push((row, by))?;
        }
    }
    Ok((sum.len(), history))
}
