//! The boundary of a formal sum.
ghost use Rattle.std.specs.Prelude.{◌≡◌, ◌≤◌, ◌<◌, ◌+◌, ◌*◌, ◌^◌, ◌↔◌, ℤ, IfOk, Err, nat_abs, List, [], ◌∷◌};
ghost use Rattle.signed_sum.specs.Names.{value_at, weight_of};
ghost use Rattle.operad_law.specs.FormalSums.{SumsBoundaries};

use crate::basis::Narrow;
use crate::formal_sum::{FormalSum, SumEnd};
use crate::scaled::scaled_total;
use std::alloc::{AllocError, Global};

// The greatest weight of which 255 times is at most 10^18.
const MOST_NARROW_WEIGHT: u64 = 3_921_568_627_450_980;

/// The boundary of a sum: the sum of the boundaries of its terms, each times its coefficient.
/// `TooLarge` exactly where 255 times the weight passes 10^18.
pub fn boundary_of<B: Narrow>(alloc: Global, sum: &FormalSum<B>) -> Result<FormalSum<B>, SumEnd>
    ensures ok { IfOk result (λ total. (phi : B → ℤ) → value_at phi total ≡ value_at (λ x. value_at phi (B.boundary x)) sum.now) }
    ensures too_large { (result ≡ Err SumEnd.TooLarge) ↔ (10 ^ 18 < 255 * weight_of sum.now) }
{
    if MOST_NARROW_WEIGHT < sum.weight() {
        return Err(SumEnd::TooLarge);
    }
    match sum_of_boundaries(alloc, sum.as_slice()) {
        Ok(total) => Ok(total),
        Err(_) => Err(SumEnd::OutOfMemory),
    }
}

// The sum of the boundaries of the terms: of each half, and then of both.
fn sum_of_boundaries<B: Narrow>(
    alloc: Global,
    terms: &[(B, i64)],
) -> Result<FormalSum<B>, AllocError>
    requires { 255 * weight_of terms.now ≤ 10 ^ 18 }
    ensures { IfOk result (SumsBoundaries B.boundary terms.now) }
{
    if terms.is_empty() {
        return Ok(FormalSum::new(alloc));
    }
    if terms.len() == 1 {
        return scaled_boundary(alloc, &terms[0].0, terms[0].1);
    }
    let (front, back) = terms.split_at(terms.len() / 2);
    let first = sum_of_boundaries(alloc, front)?;
    let other = sum_of_boundaries(alloc, back)?;
    scaled_total(alloc, &first, &other, 1)
}

// The boundary of one term.
fn scaled_boundary<B: Narrow>(alloc: Global, item: &B, by: i64) -> Result<FormalSum<B>, AllocError>
    requires { 255 * nat_abs by ≤ 10 ^ 18 }
    ensures { IfOk result (SumsBoundaries B.boundary ((item.now, by) ∷ [])) }
{
    let _degree = item.degree();
    let faces = item.boundary(alloc)?;
    let _weight = faces.weight();
    scaled_total(alloc, &FormalSum::new(alloc), &faces, by)
}
