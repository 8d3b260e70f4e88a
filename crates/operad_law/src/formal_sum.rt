//! Formal sums: elements with whole coefficients.
ghost use Rattle.std.specs.Prelude.{◌≡◌, ◌≤◌, ◌<◌, ◌+ℤ◌, ℤ, [], List, length, slice_index_or, IsTrue, IfOk, OnOk, OnErr, ◌↔◌, ◌+◌, ◌^◌, ◌≢◌, nat_abs, Err, take, drop, suc, ◌++◌};
ghost use Rattle.std.specs.declared.cmp.Ordering.TheVariants.{Less};
ghost use Rattle.signed_sum.specs.Names.{weight_of};
ghost use Rattle.operad_law.specs.FormalSums.{IsFormalSum, IsAscending, coefficient_of, plus_term, with_term};
ghost use Rattle.operad_law.specs.Places.{IsAbove};

use std::alloc::{AllocError, Global};
use std::cmp::Ordering;
use std::marker::Model;
use thiserror::Error;

/// Why a sum did not grow.
#[derive(Debug, Drop, Error)]
pub enum SumEnd {
    #[error("the sizes of the coefficients sum to more than 10^18")]
    TooLarge,
    #[error("out of memory")]
    OutOfMemory,
}

/// The most that the sizes of the coefficients of a formal sum may sum to.
pub const MOST_WEIGHT: u64 = 1_000_000_000_000_000_000;

/// A sum of elements with whole coefficients, as the list of its terms: strictly ascending by
/// element, no coefficient 0, with weight at most `MOST_WEIGHT`.
#[derive(Drop)]
pub struct FormalSum<B: Ord + Drop> {
    terms: Vec<(B, i64)>,
    weight: u64,
}

impl<B: Ord + Drop> Model for FormalSum<B> {
    ghost use Rattle.std.specs.Prelude.{◌≡◌, List, ℤ};
    ghost use Rattle.operad_law.specs.FormalSums.{IsWeighed};

    ghost Value = { List (B × ℤ) };

    ghost view = { λ s. s.terms.items };

    ghost invariant = { λ s. IsWeighed B.cmp s.terms.items s.weight };
}

impl<B: Ord + Drop> FormalSum<B> {
    /// The empty sum, whose terms will come from this allocator.
    pub fn new(alloc: Global) -> Self
        ensures { result ≡ [] }
    {
        FormalSum {
            terms: Vec::new(alloc),
            weight: 0,
        }
    }

    /// The number of terms.
    pub fn len(&self) -> usize
        ensures { result ≡ length self.now }
    {
        self.terms.len()
    }

    /// Whether there is no term.
    pub fn is_empty(&self) -> bool
        ensures { IsTrue result ↔ (self.now ≡ []) }
    {
        self.terms.is_empty()
    }

    /// The weight: the sum of the sizes of the coefficients.
    pub fn weight(&self) -> u64
        ensures value { result ≡ weight_of self.now }
        ensures sum { IsFormalSum B.cmp self.now }
    {
        self.weight
    }

    /// The term at a place, from 0: an element and its coefficient.
    pub fn term(&self, k: usize) -> (&B, i64)
        requires { k < length self.now }
        ensures { (result.0.now, result.1) ≡ slice_index_or self.now k (result.0.now, result.1) }
    {
        let t = &self.terms[k];
        (&t.0, t.1)
    }

    /// The coefficient of an element, 0 where it has no term.
    pub fn coefficient(&self, item: &B) -> i64
        ensures { result ≡ coefficient_of B.cmp item.now self.now }
    {
        coefficient_in(&self.terms, item)
    }

    /// Adds `by` times the item. `TooLarge` exactly where the weight and the size of `by` pass
    /// `MOST_WEIGHT`. After an error the sum is as before.
    pub fn add_term(&mut self, item: B, by: i64) -> Result<(), SumEnd>
        ensures ok { OnOk result (self.new ≡ plus_term B.cmp self.old item by) }
        ensures too_large { (result ≡ Err SumEnd.TooLarge) ↔ (10 ^ 18 < weight_of self.old + nat_abs by) }
        ensures grows { OnOk result (weight_of self.new ≤ weight_of self.old + nat_abs by) }
        ensures err { OnErr result (self.new ≡ self.old) }
    {
        if by.unsigned_abs() > MOST_WEIGHT - self.weight {
            return Err(SumEnd::TooLarge);
        }
        match add_to(&mut self.terms, self.weight, item, by) {
            Ok(weight) => {
                self.weight = weight;
                Ok(())
            }
            Err(_) => Err(SumEnd::OutOfMemory),
        }
    }

    // The sum of these terms.
    pub(crate) fn from_terms(terms: Vec<(B, i64)>) -> Self
        requires { IsFormalSum B.cmp terms.items }
        ensures { result ≡ terms.items }
    {
        let weight = weight_of_terms(&terms);
        FormalSum { terms, weight }
    }

    // The terms.
    pub(crate) fn as_slice(&self) -> &[(B, i64)]
        ensures value { result.now ≡ self.now }
        ensures sum { IsFormalSum B.cmp self.now }
    {
        &self.terms
    }

    // The allocator of the terms.
    pub(crate) fn allocator(&self) -> Global {
        *self.terms.allocator()
    }
}

// The sum of the sizes of the coefficients.
fn weight_of_terms<B>(terms: &[(B, i64)]) -> u64
    requires { weight_of terms.now ≤ 10 ^ 18 }
    ensures { result ≡ weight_of terms.now }
{
    let mut sum: u64 = 0;
    for t in terms {
        sum += t.1.unsigned_abs();
    }
    sum
}

// How many terms at the front have a smaller element.
fn place_of<B: Ord>(terms: &[(B, i64)], item: &B) -> usize
    requires { IsAscending B.cmp terms.now }
    ensures within { result ≤ length terms.now }
    ensures above { IsAbove B.cmp item.now (take result terms.now) }
    ensures stops { (d : B × ℤ) → result < length terms.now → B.cmp (slice_index_or terms.now result d).0 item.now ≢ Less }
{
    let mut low = 0;
    let mut high = terms.len();
    while low < high {
        let middle = low + (high - low) / 2;
        match terms[middle].0.cmp(item) {
            Ordering::Less => low = middle + 1,
            _ => high = middle,
        }
    }
    low
}

// The coefficient of an element in an ascending list.
fn coefficient_in<B: Ord>(terms: &[(B, i64)], item: &B) -> i64
    requires { IsAscending B.cmp terms.now }
    ensures { result ≡ coefficient_of B.cmp item.now terms.now }
{
    let place = place_of(terms, item);
    if place < terms.len() && terms[place].0.cmp(item).is_eq() {
        return terms[place].1;
    }
    0
}

// Adds to the coefficient at a place.
fn change_at<B: Drop>(terms: &mut Vec<(B, i64)>, place: usize, by: i64)
    requires within { place < length terms.old.items }
    requires fits { weight_of terms.old.items + nat_abs by ≤ 10 ^ 18 }
    ensures { (d : B × ℤ) → terms.new.items ≡ take place terms.old.items ++ with_term (slice_index_or terms.old.items place d).0 ((slice_index_or terms.old.items place d).1 +ℤ by) (drop (suc place) terms.old.items) }
{
    let sum = terms[place].1 + by;
    if sum == 0 {
        let _gone = terms.remove(place);
    } else {
        terms[place].1 = sum;
    }
}

// The weight after `by` is added to a coefficient.
fn weight_after(weight: u64, before: i64, by: i64) -> u64
    requires within { nat_abs before ≤ weight }
    requires fits { weight + nat_abs by ≤ 10 ^ 18 }
    ensures { result + nat_abs before ≡ weight + nat_abs (before +ℤ by) }
{
    weight - before.unsigned_abs() + (before + by).unsigned_abs()
}

// Adds one term to an ascending list. The result is the new weight.
fn add_to<B: Ord + Drop>(
    terms: &mut Vec<(B, i64)>,
    weight: u64,
    item: B,
    by: i64,
) -> Result<u64, AllocError>
    requires ascending { IsAscending B.cmp terms.old.items }
    requires weighed { weight ≡ weight_of terms.old.items }
    requires fits { weight_of terms.old.items + nat_abs by ≤ 10 ^ 18 }
    ensures ok { OnOk result (terms.new.items ≡ plus_term B.cmp terms.old.items item by) }
    ensures weighed { IfOk result (λ w. w ≡ weight_of terms.new.items) }
    ensures err { OnErr result (terms.new.items ≡ terms.old.items) }
{
    let place = place_of(terms, &item);
    if place < terms.len() && terms[place].0.cmp(&item).is_eq() {
        let before = terms[place].1;
        change_at(terms, place, by);
        return Ok(weight_after(weight, before, by));
    }
    if by == 0 {
        return Ok(weight);
    }
    match terms.insert(place, (item, by)) {
        Ok(()) => Ok(weight + by.unsigned_abs()),
        Err(_) => Err(AllocError),
    }
}
