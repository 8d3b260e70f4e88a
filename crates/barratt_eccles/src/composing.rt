//! The composition of tuples.
ghost use Rattle.std.specs.Prelude.{◌≡◌, ◌≤◌, ◌<◌, ◌+◌, ◌^◌, ◌-◌, ◌∷◌, ◌++◌, [], ℕ, All, IfOk, OnOk, cond, false, length, map, nat_abs, nat_lt, pos};
ghost use Rattle.signed_sum.specs.Names.{signed, weight_of};
ghost use Rattle.operad_law.specs.FormalSums.{IsSameSum};
ghost use Rattle.table_reduction_law.specs.Names.{is_degenerate_tuple, tuple_arity};
ghost use Rattle.barratt_eccles.specs.{Generators.IsGenerator, CompositionWalk.{AddsPaths, AddsTuple, IsAtPoint, paths_through}, CompositionLaws.{compose_arity as compose_arity_law, compose_degree as compose_degree_law, compose_valid as compose_valid_law}};
ghost use Rattle.composition_law.{specs.Tuples.{IsWithinLimits, inserted, path_count, replaced, tuple_composition}, proofs.Tuples.tuple_leibniz};

use crate::tuple::{Tuple, copied, equal_neighbours};
use counting::binomial_up_to;
use operad_law::basis::SignedBasis;
use operad_law::composing::{Composing, Leibniz};
use operad_law::formal_sum::{FormalSum, MOST_WEIGHT, SumEnd};
use operad_law::perm::Perm;
use std::alloc::{AllocError, Global};

impl Composing for Tuple {
    ghost compose = { tuple_composition };

    ghost candidate_count = { λ k. path_count };

    ghost within_limits = { IsWithinLimits };

    #[tactic(auto, using(crate::proofs::PathCounts::count_of_paths))]
    fn compose_at(&self, alloc: Global, k: u8, other: &Self) -> Result<FormalSum<Self>, SumEnd> {
        let degree = self.degree();
        if binomial_up_to(degree + other.degree(), degree, u64::MAX) > MOST_WEIGHT {
            return Err(SumEnd::TooLarge);
        }
        match sum_of_paths(alloc, k, self.as_slice(), other.as_slice()) {
            Ok(sum) => Ok(sum),
            Err(_) => Err(SumEnd::OutOfMemory),
        }
    }

    ghost compose_valid = { compose_valid_law };

    ghost compose_arity = { compose_arity_law };

    ghost compose_degree = { compose_degree_law };
}

impl Leibniz for Tuple {
    ghost leibniz = { λ phi k w v g h a b. tuple_leibniz.boundary k w v phi g.some h.some };
}

fn sum_of_paths(
    alloc: Global,
    k: u8,
    outer: &[Perm],
    inner: &[Perm],
) -> Result<FormalSum<Tuple>, AllocError>
    requires outer { IsGenerator outer.now }
    requires inner { IsGenerator inner.now }
    requires some { 1 ≤ k }
    requires within { k ≤ tuple_arity outer.now }
    requires limits { IsWithinLimits outer.now inner.now }
    requires few { path_count outer.now inner.now ≤ 10 ^ 18 }
    ensures { IfOk result (λ sum. IsSameSum sum (tuple_composition k outer.now inner.now)) }
{
    let mut sum = FormalSum::new(alloc);
    let before = Vec::new(alloc);
    add_paths(alloc, &mut sum, k, outer, inner, before.as_slice(), 1)?;
    Ok(sum)
}

// Adds the tuples along the paths through the rest of two tuples, behind the entries before.
fn add_paths(
    alloc: Global,
    sum: &mut FormalSum<Tuple>,
    k: u8,
    outer: &[Perm],
    inner: &[Perm],
    before: &[Perm],
    sign: i64,
) -> Result<(), AllocError>
    requires point { IsAtPoint k outer.now inner.now before.now }
    requires small { nat_abs sign ≤ 1 }
    requires light { weight_of sum.old + paths_through outer.now inner.now ≤ 10 ^ 18 }
    ensures { OnOk result (AddsPaths k outer.now inner.now before.now sign sum.old sum.new) }
{
    if outer.is_empty() || inner.is_empty() {
        return Ok(());
    }
    let entry = composed_entry(alloc, &outer[0], k, &inner[0])?;
    let along = extended(alloc, before, entry)?;
    if outer.len() == 1 && inner.len() == 1 {
        return add_tuple(sum, along, sign);
    }
    let turned = with_sign(outer.len() - 1, sign);
    add_paths(alloc, sum, k, &outer[1..], inner, along.as_slice(), sign)?;
    add_paths(alloc, sum, k, outer, &inner[1..], along.as_slice(), turned)
}

// Adds a tuple, if it is not degenerate.
fn add_tuple(sum: &mut FormalSum<Tuple>, entries: Vec<Perm>, sign: i64) -> Result<(), AllocError>
    requires generator { is_degenerate_tuple entries.items ≡ false → IsGenerator entries.items }
    requires small { nat_abs sign ≤ 1 }
    requires light { weight_of sum.old < 10 ^ 18 }
    ensures { OnOk result (AddsTuple entries.items sign sum.old sum.new) }
{
    if equal_neighbours(entries.as_slice()).is_some() {
        return Ok(());
    }
    match sum.add_term(Tuple::from_entries(entries), sign) {
        Ok(()) => Ok(()),
        Err(_) => Err(AllocError),
    }
}

// The entries before, and one more.
fn extended(alloc: Global, before: &[Perm], entry: Perm) -> Result<Vec<Perm>, AllocError>
    ensures { IfOk result (λ all. all.items ≡ before.now ++ entry ∷ []) }
{
    let mut all = copied(alloc, before)?;
    all.push(entry)?;
    Ok(all)
}

// The sign after as many changes.
fn with_sign(changes: usize, sign: i64) -> i64
    requires { nat_abs sign ≤ 1 }
    ensures { result ≡ signed changes sign }
{
    if changes % 2 == 1 { -sign } else { sign }
}

// The outer permutation with the inner one in the place of its value k.
#[tactic(auto, using(operad_law::proofs::PermLemmas::perm_values))]
fn composed_entry(alloc: Global, outer: &Perm, k: u8, inner: &Perm) -> Result<Perm, AllocError>
    requires some { 1 ≤ k }
    requires within { k ≤ length outer.now }
    ensures { IfOk result (λ p. p ≡ inserted k outer.now inner.now) }
{
    let _lengths = (outer.len(), inner.len());
    let mut values = Vec::new(alloc);
    for value in outer.as_slice() {
        push_replaced(&mut values, k, inner.as_slice(), *value)?;
    }
    match Perm::new(alloc, values.as_slice()) {
        Ok(entry) => Ok(entry),
        Err(_) => Err(AllocError),
    }
}

// Adds what stands for a value of the outer permutation.
fn push_replaced(values: &mut Vec<u8>, k: u8, inner: &[u8], value: u8) -> Result<(), AllocError>
    requires place { 1 ≤ k }
    requires low { k ≤ 32 }
    requires value { value ≤ 32 }
    requires some { 1 ≤ length inner.now }
    requires short { length inner.now ≤ 32 }
    requires values { All (λ y. y ≤ 32) inner.now }
    ensures { OnOk result (values.new.items ≡ values.old.items ++ replaced k inner.now value) }
{
    if value == k {
        return push_raised(values, inner, k - 1);
    }
    values.push(grown(value, k, inner.len()))?;
    Ok(())
}

// A value of the outer permutation other than k.
fn grown(value: u8, k: u8, size: usize) -> u8
    requires value { value ≤ 32 }
    requires some { 1 ≤ size }
    requires short { size ≤ 32 }
    ensures { result ≡ cond (nat_lt k value) (value + (size - 1)) value }
{
    if k < value {
        value + (size - 1) as u8
    } else {
        value
    }
}

// Adds the values, each raised.
fn push_raised(values: &mut Vec<u8>, inner: &[u8], by: u8) -> Result<(), AllocError>
    requires low { by ≤ 32 }
    requires values { All (λ y. y ≤ 32) inner.now }
    ensures { OnOk result (values.new.items ≡ values.old.items ++ map (λ y. y + by) inner.now) }
{
    for value in inner {
        values.push(*value + by)?;
    }
    Ok(())
}
