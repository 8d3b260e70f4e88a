//! Permutations of the numbers from 1 on.
ghost use Rattle.std.specs.Prelude.{◌≡◌, ◌↔◌, ◌≤◌, ◌<◌, ◌==◌, ℕ, All, IfOk, Some, Err, length};
ghost use Rattle.std.proofs.Common.{rules};
ghost use Rattle.std.specs.Cmp.{partial_order_from_own_ties};
ghost use Rattle.std.specs.Cmp.Rules.{comparing};
ghost use Rattle.std.specs.Cmp.Lexicographic.{slice_cmp};
ghost use Rattle.std.specs.Ordering.{nat_cmp, eq_by_cmp, as_partial_cmp};
ghost use Rattle.signed_sum.specs.Names.{occurs, cycle_power, entry_at};
ghost use Rattle.operad_law.specs.Permutations.{IsPerm, composed};
ghost use Rattle.operad_law.specs.Refusals.{permutation_fault};

use smallvec::SmallVec;
use std::alloc::{AllocError, Global};
use std::cmp::Ordering;
use std::marker::Model;
use thiserror::Error;

/// Why a list of values is no permutation.
#[derive(Debug, Drop, Error)]
pub enum PermRefused {
    #[error("no permutation: see place {place}")]
    NotAPermutation { place: usize },
    #[error("out of memory")]
    OutOfMemory,
}

/// A permutation of the numbers from 1 to its length, at most 32, as the list of its values.
#[derive(Drop)]
pub struct Perm {
    values: SmallVec<u8, 8>,
}

impl Model for Perm {
    ghost use Rattle.std.specs.Prelude.{List, ℕ};
    ghost use Rattle.operad_law.specs.Permutations.{IsPerm};

    ghost Value = { List ℕ };

    ghost view = { λ p. p.values.items };

    ghost invariant = { λ p. IsPerm p.values.items };
}

impl PartialEq for Perm {
    ghost eq = { eq_by_cmp (slice_cmp nat_cmp) };

    ghost laws = { Prim.search (comparing, rules) };

    fn eq(&self, other: &Perm) -> bool {
        self.cmp(other).is_eq()
    }
}

impl Eq for Perm {
    ghost laws = { Prim.search (comparing, rules) };
}

impl PartialOrd for Perm {
    ghost partial_cmp = { as_partial_cmp (slice_cmp nat_cmp) };

    ghost laws = { partial_order_from_own_ties (Prim.search (comparing, rules)) (Prim.search (comparing, rules)) };

    fn partial_cmp(&self, other: &Perm) -> Option<Ordering> {
        Some(self.cmp(other))
    }
}

impl Ord for Perm {
    ghost cmp = { slice_cmp nat_cmp };

    ghost total = { Prim.search (comparing, rules) };

    ghost matches_partial_cmp = { Prim.search (comparing, rules) };

    ghost matches_eq = { Prim.search (comparing, rules) };

    fn cmp(&self, other: &Perm) -> Ordering {
        self.values.as_slice().cmp(other.values.as_slice())
    }
}

impl Perm {
    /// The permutation with these values. `NotAPermutation` exactly where they are no permutation of 1
    /// to their number, or are none or more than 32. Its place is 0 where there are none or more than
    /// 32, else the first place, from 1, whose value is out of range or stands at an earlier place.
    pub fn new(alloc: Global, values: &[u8]) -> Result<Perm, PermRefused>
        ensures ok { IfOk result (λ p. p ≡ values.now) }
        ensures refused { (place : ℕ) → (result ≡ Err (PermRefused.NotAPermutation place)) ↔ (permutation_fault values.now ≡ Some place) }
    {
        if let Some(place) = fault_of(values) {
            return Err(PermRefused::NotAPermutation { place });
        }
        match SmallVec::from_slice(alloc, values) {
            Ok(values) => Ok(Perm { values }),
            Err(_) => Err(PermRefused::OutOfMemory),
        }
    }

    /// A power of the cycle `1 -> 2 -> .. -> r -> 1`.
    pub fn cycle(alloc: Global, r: u8, times: u32) -> Result<Perm, AllocError>
        requires some { 1 ≤ r }
        requires short { r ≤ 32 }
        ensures { IfOk result (λ p. p ≡ cycle_power r times) }
    {
        let by = (times % u32::from(r)) as u8;
        Ok(Perm {
            values: shifted_numbers(alloc, r, by)?,
        })
    }

    /// How many numbers it permutes.
    pub fn len(&self) -> u8
        ensures value { result ≡ length self.now }
        ensures permutation { IsPerm self.now }
    {
        self.values.len() as u8
    }

    /// Its value at i.
    pub fn at(&self, i: u8) -> u8
        requires some { 1 ≤ i }
        requires within { i ≤ length self.now }
        ensures { result ≡ entry_at self.now i }
    {
        self.values.as_slice()[usize::from(i) - 1]
    }

    /// The composition `i -> self(other(i))` of two permutations of the same numbers.
    pub fn compose(&self, alloc: Global, other: &Perm) -> Result<Perm, AllocError>
        requires { length self.now ≡ length other.now }
        ensures { IfOk result (λ p. p ≡ composed self.now other.now) }
    {
        let values = values_at(alloc, self.values.as_slice(), other.values.as_slice())?;
        Ok(Perm { values })
    }

    /// An equal permutation.
    pub fn copy(&self, alloc: Global) -> Result<Perm, AllocError>
        ensures { IfOk result (λ p. p ≡ self.now) }
    {
        Ok(Perm {
            values: SmallVec::from_slice(alloc, self.values.as_slice())?,
        })
    }

    /// Its values in order.
    pub fn as_slice(&self) -> &[u8]
        ensures { result.now ≡ self.now }
    {
        self.values.as_slice()
    }
}

/// Whether a value is in a list.
pub fn stands_in(values: &[u8], value: u8) -> bool
    ensures { result ≡ (occurs value values.now == 1) }
{
    values.contains(&value)
}

// Where the values are no permutation.
fn fault_of(values: &[u8]) -> Option<usize>
    ensures { result ≡ permutation_fault values.now }
{
    if values.is_empty() || values.len() > 32 {
        return Some(0);
    }
    for i in 0..values.len() {
        let value = values[i];
        if value == 0 || usize::from(value) > values.len() || stands_in(&values[..i], value) {
            return Some(i + 1);
        }
    }
    None
}

// The numbers from 1 to r, each moved on by a number of steps along the cycle.
fn shifted_numbers(alloc: Global, r: u8, by: u8) -> Result<SmallVec<u8, 8>, AllocError>
    requires below { by < r }
    requires short { r ≤ 32 }
    ensures { IfOk result (λ values. values.items ≡ cycle_power r by) }
{
    let mut values = SmallVec::new(alloc);
    for i in 0..r {
        values.push((i + by) % r + 1)?;
    }
    Ok(values)
}

// The values of the one list at the places of the other.
fn values_at(alloc: Global, outer: &[u8], inner: &[u8]) -> Result<SmallVec<u8, 8>, AllocError>
    requires { All (λ v. (1 ≤ v) × (v ≤ length outer.now)) inner.now }
    ensures { IfOk result (λ values. values.items ≡ composed outer.now inner.now) }
{
    let mut values = SmallVec::new(alloc);
    for value in inner {
        values.push(outer[usize::from(*value) - 1])?;
    }
    Ok(values)
}
