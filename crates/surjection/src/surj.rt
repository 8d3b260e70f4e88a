//! Generators of the surjection operad.
ghost use Rattle.std.{specs.Prelude.{◌≡◌, ◌↔◌, ℕ, ◌≤◌, ◌<◌, ◌^◌, length, nat_abs, false, None, IfOk, IfSome, IsErrOf, IsOkUnless, IsTrue, OnOk, remove}, proofs.Common.rules, specs.Cmp.partial_order_from_own_ties, specs.Cmp.Rules.comparing, specs.Cmp.Lexicographic.slice_cmp, specs.Ordering.{nat_cmp, eq_by_cmp, as_partial_cmp}};
ghost use Rattle.signed_sum.specs.Names.{is_degenerate, entry_at, is_zero, weight_of};
ghost use Rattle.surjection_law.{specs.Names.{surjection_boundary, IsSurjection, arity, surjection_degree}, proofs.BoundaryTwice.surjection_boundary-surjection_boundary, proofs.SurjectionTerms.{degree_falls, narrow, no_boundary as no_boundary_law, valid}};
ghost use Rattle.operad_law.{specs.FormalSums.IsSameSum, proofs.ListOrder.equal_numbers};
ghost use Rattle.surjection.specs.Names.{comes_again, boundary_weight as boundary_weight_law, narrow_degree as narrow_degree_law, equal_neighbours_from, gap_of, surjection_fault, AddsList};

use operad_law::basis::{Narrow, SignedBasis};
use operad_law::formal_sum::FormalSum;
use operad_law::perm::stands_in;
use smallvec::SmallVec;
use std::alloc::{AllocError, Global};
use std::cmp::Ordering;
use std::marker::Model;
use thiserror::Error;

/// Why a list of values is no surjection.
#[derive(Debug, Drop, Error)]
pub enum NotASurjection {
    #[error("there is no value")]
    Empty,
    #[error("more than 255 values, or a value above 32")]
    TooLong,
    #[error("the value {value} is missing, or is 0")]
    Gap { value: u8 },
    #[error("place {place}: the value is the one before it")]
    EqualNeighbours { place: usize },
    #[error("out of memory")]
    OutOfMemory,
}

/// A generator of the surjection operad, as the list of its values: each value from 1 to the greatest,
/// the arity, comes, and no two neighbours are equal. Its degree is the number of places above the
/// arity. Places count from 1.
#[derive(Drop)]
pub struct Surj {
    values: SmallVec<u8, 16>,
}

impl Model for Surj {
    ghost use Rattle.std.specs.Prelude.{List, ℕ};
    ghost use Rattle.surjection_law.specs.Surjections.{IsSurjection};

    ghost Value = { List ℕ };

    ghost view = { λ s. s.values.items };

    ghost invariant = { λ s. IsSurjection s.values.items };
}

impl PartialEq for Surj {
    ghost eq = { eq_by_cmp (slice_cmp nat_cmp) };

    ghost laws = { Prim.search (comparing, rules) };

    fn eq(&self, other: &Surj) -> bool {
        self.cmp(other).is_eq()
    }
}

impl Eq for Surj {
    ghost laws = { Prim.search (comparing, rules) };
}

impl PartialOrd for Surj {
    ghost partial_cmp = { as_partial_cmp (slice_cmp nat_cmp) };

    ghost laws = { partial_order_from_own_ties (Prim.search (comparing, rules)) (Prim.search (comparing, rules)) };

    fn partial_cmp(&self, other: &Surj) -> Option<Ordering> {
        Some(self.cmp(other))
    }
}

impl Ord for Surj {
    ghost cmp = { slice_cmp nat_cmp };

    ghost total = { Prim.search (comparing, rules) };

    ghost matches_partial_cmp = { Prim.search (comparing, rules) };

    ghost matches_eq = { Prim.search (comparing, rules) };

    fn cmp(&self, other: &Surj) -> Ordering {
        self.values.as_slice().cmp(other.values.as_slice())
    }
}

impl Surj {
    /// The surjection with these values. Refusals come in this order: `Empty` where there is none;
    /// `TooLong` where there are more than 255 or one is above 32; `Gap` with the least value from 1 and
    /// below the greatest that is missing, or with 0 where 0 is a value; `EqualNeighbours` with the first
    /// place whose value is the one before it.
    pub fn new(alloc: Global, values: &[u8]) -> Result<Surj, NotASurjection>
        ensures ok { IfOk result (λ u. u ≡ values.now) }
        ensures refused { IfSome (surjection_fault values.now) (λ fault. IsErrOf result fault) }
        ensures taken { surjection_fault values.now ≡ None → IsOkUnless result NotASurjection.OutOfMemory }
    {
        if values.is_empty() {
            return Err(NotASurjection::Empty);
        }
        let most = greatest(values);
        if values.len() > 255 || most > 32 {
            return Err(NotASurjection::TooLong);
        }
        if let Some(value) = first_gap(values, most) {
            return Err(NotASurjection::Gap { value });
        }
        if let Some(place) = equal_neighbours(values) {
            return Err(NotASurjection::EqualNeighbours { place });
        }
        match SmallVec::from_slice(alloc, values) {
            Ok(values) => Ok(Surj { values }),
            Err(_) => Err(NotASurjection::OutOfMemory),
        }
    }

    /// The number of places.
    pub fn len(&self) -> usize
        ensures { result ≡ length self.now }
    {
        self.values.len()
    }

    /// The value at a place.
    pub fn value(&self, place: usize) -> u8
        requires some { 1 ≤ place }
        requires within { place ≤ length self.now }
        ensures { result ≡ entry_at self.now place }
    {
        self.values.as_slice()[place - 1]
    }

    /// Whether a place is a caesura: its value comes again. It takes no memory.
    pub fn is_caesura(&self, place: usize) -> bool
        requires some { 1 ≤ place }
        requires within { place ≤ length self.now }
        ensures { IsTrue result ↔ (comes_again self.now place ≡ 1) }
    {
        let values = self.values.as_slice();
        stands_in(&values[place..], values[place - 1])
    }

    /// The values in order.
    pub fn as_slice(&self) -> &[u8]
        ensures same { result.now ≡ self.now }
        ensures surjection { IsSurjection self.now }
    {
        self.values.as_slice()
    }

    // The greatest value.
    pub(crate) fn greatest_value(&self) -> u8
        ensures { result ≡ arity self.now }
    {
        greatest(self.values.as_slice())
    }

    // The surjection with values that are known to be one.
    pub(crate) fn from_values(values: SmallVec<u8, 16>) -> Surj
        requires { IsSurjection values.items }
        ensures { result ≡ values.items }
    {
        Surj { values }
    }
}

impl SignedBasis for Surj {
    ghost is_valid = { IsSurjection };

    ghost degree = { surjection_degree };

    ghost boundary = { surjection_boundary };

    fn degree(&self) -> u32 {
        let values = self.values.as_slice();
        (values.len() - usize::from(greatest(values))) as u32
    }

    fn boundary(&self, alloc: Global) -> Result<FormalSum<Self>, AllocError> {
        sum_of_faces(alloc, self.values.as_slice())
    }

    fn copy(&self, alloc: Global) -> Result<Self, AllocError> {
        Ok(Surj {
            values: SmallVec::from_slice(alloc, self.values.as_slice())?,
        })
    }

    ghost equal_is_same = { equal_numbers };

    ghost boundary_valid = { valid };

    ghost boundary_degree = { degree_falls };

    ghost no_boundary = { no_boundary_law };

    ghost boundary_twice = { λ phi x v. surjection_boundary-surjection_boundary phi x };

    ghost boundary_weight = { boundary_weight_law };
}

impl Narrow for Surj {
    ghost narrow_boundary = { narrow };

    ghost narrow_degree = { narrow_degree_law };
}

// The greatest value.
pub(crate) fn greatest(values: &[u8]) -> u8
    ensures { result ≡ arity values.now }
{
    let mut most: u8 = 0;
    for value in values {
        most = most.max(*value);
    }
    most
}

// The least missing value below the greatest, or 0 where that is a value.
fn first_gap(values: &[u8], most: u8) -> Option<u8>
    requires { most ≡ arity values.now }
    ensures { result ≡ gap_of values.now }
{
    if stands_in(values, 0) {
        return Some(0);
    }
    for value in 1..most {
        if !stands_in(values, value) {
            return Some(value);
        }
    }
    None
}

// The first place, from 1, whose value is the one before it.
fn equal_neighbours(values: &[u8]) -> Option<usize>
    ensures { result ≡ equal_neighbours_from 1 values.now }
{
    let mut i: usize = 0;
    while i + 1 < values.len() {
        if values[i] == values[i + 1] {
            return Some(i + 2);
        }
        i += 1;
    }
    None
}

fn copy_without(alloc: Global, values: &[u8], place: usize) -> Result<SmallVec<u8, 16>, AllocError>
    requires { place < length values.now }
    ensures { IfOk result (λ face. face.items ≡ remove values.now place) }
{
    let mut face = SmallVec::from_slice(alloc, values)?;
    let _gone = face.remove(place);
    Ok(face)
}

// Adds a list with a sign, if no two neighbours are equal.
pub(crate) fn add_list(
    sum: &mut FormalSum<Surj>,
    values: SmallVec<u8, 16>,
    sign: i64,
) -> Result<(), AllocError>
    requires surjection { is_degenerate values.items ≡ false → IsSurjection values.items }
    requires small { nat_abs sign ≤ 1 }
    requires light { weight_of sum.old < 10 ^ 18 }
    ensures { OnOk result (AddsList values.items sign sum.old sum.new) }
{
    if equal_neighbours(values.as_slice()).is_some() {
        return Ok(());
    }
    match sum.add_term(Surj { values }, sign) {
        Ok(()) => Ok(()),
        Err(_) => Err(AllocError),
    }
}

// Adds the list without a place, from 0, if that is no zero.
fn add_face(
    alloc: Global,
    sum: &mut FormalSum<Surj>,
    values: &[u8],
    place: usize,
    sign: i64,
) -> Result<(), AllocError>
    requires within { place < length values.now }
    requires face { is_zero sign ≡ false → is_degenerate (remove values.now place) ≡ false → IsSurjection (remove values.now place) }
    requires small { nat_abs sign ≤ 1 }
    requires light { weight_of sum.old ≤ 255 }
    ensures { OnOk result (AddsList (remove values.now place) sign sum.old sum.new) }
{
    if sign == 0 {
        return Ok(());
    }
    add_list(sum, copy_without(alloc, values, place)?, sign)
}

fn sum_of_faces(alloc: Global, values: &[u8]) -> Result<FormalSum<Surj>, AllocError>
    requires { IsSurjection values.now }
    ensures { IfOk result (λ sum. IsSameSum sum (surjection_boundary values.now)) }
{
    let mut sum = FormalSum::new(alloc);
    let mut sign: i64 = 1;
    let mut before = [0i64; 33];
    for i in 0..values.len() {
        let value = values[i];
        if stands_in(&values[i + 1..], value) {
            add_face(alloc, &mut sum, values, i, sign)?;
            before[value as usize] = sign;
            sign = -sign;
        } else {
            add_face(alloc, &mut sum, values, i, -before[value as usize])?;
        }
    }
    Ok(sum)
}
