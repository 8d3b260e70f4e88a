//! The reduction of tuples.
ghost use Rattle.std.specs.Prelude.{◌≡◌, ◌↔◌, ◌≤◌, ◌<◌, ◌+◌, ◌-◌, ◌^◌, ℕ, ℤ, List, Err, IfOk, map};
ghost use Rattle.signed_sum.specs.Names.{entry_at, value_at, weight_of};
ghost use Rattle.operad_law.specs.FormalSums.{IsSameSum};
ghost use Rattle.surjection_law.specs.Names.{surjection_boundary};
ghost use Rattle.table_reduction_law.specs.Names.{binomial, table_reduction, IsPermutationOf, IsTuple, permuted_tuple, tuple_boundary, tuple_arity, tuple_degree};

use crate::walk::Walk;
use barratt_eccles::tuple::Tuple;
use counting::binomial_up_to;
use operad_law::basis::SignedBasis;
use operad_law::formal_sum::{FormalSum, MOST_WEIGHT, SumEnd};
use operad_law::perm::Perm;
use std::alloc::{AllocError, Global};
use surjection::surj::Surj;

/// The table reduction of a tuple of arity r and degree d, after Berger and Fresse: a sum of
/// surjections of arity r and degree d. It commutes with the boundary and with permutations. `TooLarge`
/// exactly where there are more than 10^18 lists of row lengths, the number of sets of d among r + d - 1
/// things.
pub fn reduce(alloc: Global, tuple: &Tuple) -> Result<FormalSum<Surj>, SumEnd>
    ensures sum { IfOk result (λ s. IsSameSum s (table_reduction tuple.now)) }
    ensures boundary { IfOk result (λ s. (h : List ℕ → ℤ) → value_at (λ u. value_at h (surjection_boundary u)) s ≡ value_at (λ w. value_at h (table_reduction w)) (tuple_boundary tuple.now)) }
    ensures action { IfOk result (λ s. (t : List ℕ) (h : List ℕ → ℤ) → IsPermutationOf (tuple_arity tuple.now) t → value_at h (table_reduction (permuted_tuple t tuple.now)) ≡ value_at (λ u. h (map (entry_at t) u)) s) }
    ensures too_large { (result ≡ Err SumEnd.TooLarge) ↔ (10 ^ 18 < binomial (tuple_arity tuple.now + tuple_degree tuple.now - 1) (tuple_degree tuple.now)) }
{
    let entries = tuple.as_slice();
    let arity = u32::from(entries[0].len());
    let degree = tuple.degree();
    if binomial_up_to(arity + degree - 1, degree, MOST_WEIGHT + 1) > MOST_WEIGHT {
        return Err(SumEnd::TooLarge);
    }
    match reduce_entries(alloc, entries) {
        Ok(sum) => Ok(sum),
        Err(_) => Err(SumEnd::OutOfMemory),
    }
}

// The table reduction of a list of permutations of the same numbers. Neighbours may be equal. The
// arity and the degree, the number of entries less 1, sum to at most 255, and there are at most 10^18 lists of row lengths.
fn reduce_entries(alloc: Global, entries: &[Perm]) -> Result<FormalSum<Surj>, AllocError>
    requires wide { 1 ≤ tuple_arity entries.now }
    requires narrow { tuple_arity entries.now ≤ 32 }
    requires short { tuple_arity entries.now + tuple_degree entries.now ≤ 255 }
    requires few { binomial (tuple_arity entries.now + tuple_degree entries.now - 1) (tuple_degree entries.now) ≤ 10 ^ 18 }
    requires tuple { IsTuple (tuple_arity entries.now) entries.now }
    ensures sum { IfOk result (λ s. IsSameSum s (table_reduction entries.now)) }
    ensures weight { IfOk result (λ s. weight_of s ≤ binomial (tuple_arity entries.now + tuple_degree entries.now - 1) (tuple_degree entries.now)) }
{
    let mut walk = Walk::new(alloc);
    let Some((row, rows)) = entries.split_first() else {
        return Ok(walk.into_sum());
    };
    walk.add_from(alloc, row.as_slice(), rows)?;
    Ok(walk.into_sum())
}
