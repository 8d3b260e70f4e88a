//! Multiples of one formal sum added to another.
ghost use Rattle.std.specs.Prelude.{◌≡◌, ◌≤◌, ◌<◌, ◌↔◌, ◌+◌, ◌*◌, ◌^◌, ◌++◌, [], length, drop, IfOk, OnOk, OnErr, Err, nat_abs};
ghost use Rattle.signed_sum.specs.Names.{weight_of};
ghost use Rattle.operad_law.specs.FormalSums.{IsAscending, IsFormalSum, IsPlusScaled, with_term};
ghost use Rattle.operad_law.specs.Places.{first_order};

use crate::basis::SignedBasis;
use crate::formal_sum::{FormalSum, MOST_WEIGHT, SumEnd};
use std::alloc::{AllocError, Global};
use std::cmp::Ordering;

impl<B: SignedBasis> FormalSum<B> {
    /// Adds `by` times another sum. `TooLarge` exactly where the weight and the size of `by` times the
    /// weight of the other pass `MOST_WEIGHT`. After an error the sum is as before.
    pub fn plus_scaled(&mut self, other: &FormalSum<B>, by: i64) -> Result<(), SumEnd>
        ensures ok { OnOk result (IsPlusScaled self.old other.now by self.new) }
        ensures too_large { (result ≡ Err SumEnd.TooLarge) ↔ (10 ^ 18 < weight_of self.old + nat_abs by * weight_of other.now) }
        ensures err { OnErr result (self.new ≡ self.old) }
    {
        let whole = u128::from(self.weight())
            + u128::from(by.unsigned_abs()) * u128::from(other.weight());
        if whole > u128::from(MOST_WEIGHT) {
            return Err(SumEnd::TooLarge);
        }
        match scaled_total(self.allocator(), self, other, by) {
            Ok(total) => {
                *self = total;
                Ok(())
            }
            Err(_) => Err(SumEnd::OutOfMemory),
        }
    }
}

// A sum plus `by` times another.
pub(crate) fn scaled_total<B: SignedBasis>(
    alloc: Global,
    first: &FormalSum<B>,
    other: &FormalSum<B>,
    by: i64,
) -> Result<FormalSum<B>, AllocError>
    requires { weight_of first.now + nat_abs by * weight_of other.now ≤ 10 ^ 18 }
    ensures { IfOk result (IsPlusScaled first.now other.now by) }
{
    let terms = merged(alloc, first.as_slice(), other.as_slice(), by)?;
    Ok(FormalSum::from_terms(terms))
}

// The terms of a sum plus `by` times another: each list is passed once.
fn merged<B: SignedBasis>(
    alloc: Global,
    first: &[(B, i64)],
    other: &[(B, i64)],
    by: i64,
) -> Result<Vec<(B, i64)>, AllocError>
    requires first { IsAscending B.cmp first.now }
    requires other { IsAscending B.cmp other.now }
    requires fits { weight_of first.now + nat_abs by * weight_of other.now ≤ 10 ^ 18 }
    ensures sum { IfOk result (λ total. IsFormalSum B.cmp total.items) }
    ensures scaled { IfOk result (λ total. IsPlusScaled first.now other.now by total.items) }
{
    let mut total = Vec::new(alloc);
    let mut i = 0;
    let mut j = 0;
    while i < first.len() || j < other.len() {
        match order_at(first, i, other, j) {
            Ordering::Less => {
                let t = &first[i];
                push_term(alloc, &mut total, &t.0, t.1)?;
                i += 1;
            }
            Ordering::Greater => {
                let u = &other[j];
                push_term(alloc, &mut total, &u.0, u.1 * by)?;
                j += 1;
            }
            Ordering::Equal => {
                let t = &first[i];
                let u = &other[j];
                push_term(alloc, &mut total, &t.0, t.1 + u.1 * by)?;
                i += 1;
                j += 1;
            }
        }
    }
    Ok(total)
}

// How the elements at two places compare, where a list that is at its end comes last.
fn order_at<B: Ord>(first: &[(B, i64)], i: usize, other: &[(B, i64)], j: usize) -> Ordering
    ensures { result ≡ first_order B.cmp (drop i first.now) (drop j other.now) }
{
    if i >= first.len() {
        return Ordering::Greater;
    }
    if j >= other.len() {
        return Ordering::Less;
    }
    first[i].0.cmp(&other[j].0)
}

// A term at the end, if its coefficient is not 0.
fn push_term<B: SignedBasis>(
    alloc: Global,
    terms: &mut Vec<(B, i64)>,
    item: &B,
    count: i64,
) -> Result<(), AllocError>
    ensures { OnOk result (terms.new.items ≡ terms.old.items ++ with_term item.now count []) }
{
    if count == 0 {
        return Ok(());
    }
    match terms.push((item.copy(alloc)?, count)) {
        Ok(()) => Ok(()),
        Err(_) => Err(AllocError),
    }
}
