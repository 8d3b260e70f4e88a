//! One row plus a multiple of another, in one pass over both, and the sum of ascending pairs.
ghost use Rattle.std.specs.{Prelude.{◌≡◌, ℕ, ◌+◌, ◌*◌, ◌%◌, ◌<◌, ◌≤◌, ◌≢◌, ◌⊎◌, [], ◌∷◌, ◌++◌, length, IfOk, OnOk, OnErr, IsTrue}, List.Sorted.IsNonDecreasingBy};
ghost use Rattle.linear_law.specs.Names.{unit_vector};
ghost use Rattle.fp_field.specs.Served.{served};
ghost use Rattle.sparse_rows.specs.{Rows.{IsBelow, IsRow, value_in}, Merging.{IsNext, StartsFrom, StepsOver}};

use fp_field::Fp;
use std::alloc::{AllocError, Global};

/// Appends a value, if it is not 0.
#[tactic(auto, using(crate::proofs::MergeLemmas::put_below, crate::proofs::MergeLemmas::put_sum, crate::proofs::MergeLemmas::stay_below))]
pub(crate) fn put<const P: u32>(
    out: &mut Vec<(u32, Fp<P>)>,
    position: u32,
    value: Fp<P>,
) -> Result<(), AllocError>
    requires row { IsRow P out.old.items }
    requires below { IsBelow position out.old.items }
    ensures row { OnOk result (IsRow P out.new.items) }
    ensures below { OnOk result (IsBelow (position + 1) out.new.items) }
    ensures sum { OnOk result ((y : ℕ) → value_in out.new.items y ≡ value_in out.old.items y + value.entry * unit_vector position y) }
    ensures pushed { OnOk result (value.entry ≢ 0 → out.new.items ≡ out.old.items ++ (position, value.entry) ∷ []) }
    ensures unchanged { OnErr result (out.new.items ≡ out.old.items) }
{
    if !value.is_zero() {
        out.push((position, value))?;
    }
    Ok(())
}

/// The step over what stands at `position`, and the value there.
fn advance<const P: u32>(pairs: &[(u32, Fp<P>)], i: usize, position: u32) -> (usize, Fp<P>)
    requires prime { IsTrue (served P) }
    requires row { IsRow P pairs.now }
    requires inside { i ≤ length pairs.now }
    requires from { StartsFrom pairs.now i position }
    ensures { StepsOver pairs.now i position result.0 result.1 }
{
    if i < pairs.len() && pairs[i].0 == position {
        (i + 1, pairs[i].1)
    } else {
        (i, Fp::new(0))
    }
}

/// The first position that is left in one of two rows.
fn next_position<const P: u32>(
    left: &[(u32, Fp<P>)],
    i: usize,
    right: &[(u32, Fp<P>)],
    j: usize,
) -> u32
    requires left_row { IsRow P left.now }
    requires right_row { IsRow P right.now }
    requires some { (i < length left.now) ⊎ (j < length right.now) }
    requires inside_left { i ≤ length left.now }
    requires inside_right { j ≤ length right.now }
    ensures { IsNext left.now right.now i j result }
{
    if j == right.len() {
        return left[i].0;
    }
    if i == left.len() {
        return right[j].0;
    }
    if left[i].0 < right[j].0 {
        left[i].0
    } else {
        right[j].0
    }
}

/// The row `left` plus `by` times the row `right`.
pub(crate) fn merged<const P: u32>(
    alloc: Global,
    left: &[(u32, Fp<P>)],
    right: &[(u32, Fp<P>)],
    by: Fp<P>,
) -> Result<Vec<(u32, Fp<P>)>, AllocError>
    requires prime { IsTrue (served P) }
    requires left_row { IsRow P left.now }
    requires right_row { IsRow P right.now }
    ensures row { IfOk result (λ r. IsRow P r.items) }
    ensures sum { IfOk result (λ r. (y : ℕ) → value_in r.items y ≡ (value_in left.now y + by.entry * value_in right.now y) % P) }
{
    let mut out = Vec::with_capacity(alloc, left.len().max(right.len()))?;
    let mut i = 0;
    let mut j = 0;
    while i < left.len() || j < right.len() {
        let position = next_position(left, i, right, j);
        let (next, own) = advance(left, i, position);
        let (after, other) = advance(right, j, position);
        put(&mut out, position, own.add(by.mul(other)))?;
        i = next;
        j = after;
    }
    Ok(out)
}

/// Puts the sum of one position, if the next position is another one, and gives the sum to go on with.
fn pass<const P: u32>(
    out: &mut Vec<(u32, Fp<P>)>,
    position: u32,
    sum: Fp<P>,
    next: u32,
) -> Result<Fp<P>, AllocError>
    requires prime { IsTrue (served P) }
    requires row { IsRow P out.old.items }
    requires below { IsBelow position out.old.items }
    requires ascends { position ≤ next }
    ensures row { OnOk result (IsRow P out.new.items) }
    ensures below { OnOk result (IsBelow next out.new.items) }
    ensures sum { IfOk result (λ r. (y : ℕ) → value_in out.new.items y + r * unit_vector next y ≡ value_in out.old.items y + sum.entry * unit_vector position y) }
{
    if position == next {
        return Ok(sum);
    }
    put(out, position, sum)?;
    Ok(Fp::new(0))
}

/// The sum of pairs whose positions never descend.
pub(crate) fn summed<const P: u32>(
    alloc: Global,
    pairs: &[(u32, Fp<P>)],
) -> Result<Vec<(u32, Fp<P>)>, AllocError>
    requires prime { IsTrue (served P) }
    requires ascends { IsNonDecreasingBy (λ e. e.0) pairs.now }
    ensures row { IfOk result (λ r. IsRow P r.items) }
    ensures sum { IfOk result (λ r. (y : ℕ) → value_in r.items y ≡ value_in pairs.now y % P) }
{
    let mut out = Vec::new(alloc);
    let mut position = 0;
    let mut sum = Fp::new(0);
    for pair in pairs {
        sum = pass(&mut out, position, sum, pair.0)?.add(pair.1);
        position = pair.0;
    }
    put(&mut out, position, sum)?;
    Ok(out)
}
