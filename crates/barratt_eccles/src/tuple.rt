//! Generators of the Barratt-Eccles operad.
ghost use Rattle.std.{specs.Prelude.{◌≡◌, ℕ, ◌≤◌, ◌<◌, ◌==◌, All, None, Ok, Err, IfOk, IfSome, OnOk, false, length, nat_abs, remove, slice_index_or, []}, proofs.Common.rules, specs.Cmp.partial_order_from_own_ties, specs.Cmp.Rules.comparing, specs.Cmp.Lexicographic.slice_cmp, specs.Ordering.{nat_cmp, eq_by_cmp, as_partial_cmp}};
ghost use Rattle.signed_sum.specs.Names.{is_zero, weight_of};
ghost use Rattle.operad_law.{proofs.ListOrder.{equal_lists, equal_numbers}, specs.FormalSums.IsSameSum, specs.Permutations.IsPerm};
ghost use Rattle.table_reduction_law.{specs.Names.{is_zero_tuple, tuple_boundary, tuple_arity, tuple_degree}, proofs.FormalSums.tuple_boundary_law};
ghost use Rattle.barratt_eccles.specs.{Generators.IsGenerator, BoundaryLaws.{boundary_degree as boundary_degree_law, boundary_valid as boundary_valid_law, boundary_weight as boundary_weight_law, narrow_boundary as narrow_boundary_law, narrow_degree as narrow_degree_law, no_boundary as no_boundary_law}, Faces.AddsFace, Refusals.{equal_neighbours_from, other_length_from, tuple_fault}};

use operad_law::basis::{Narrow, SignedBasis};
use operad_law::formal_sum::FormalSum;
use operad_law::perm::Perm;
use std::alloc::{AllocError, Global};
use std::cmp::Ordering;
use std::marker::Model;
use thiserror::Error;

/// Why a list of permutations is no tuple. Places count from 0.
#[derive(Debug, Drop, Error)]
pub enum TupleRefused {
    #[error("there is no entry")]
    Empty,
    #[error("more than 201 entries")]
    TooLong,
    #[error("entry {place}: its length is not that of the first entry")]
    MixedArity { place: usize },
    #[error("entry {place}: it is the entry before it")]
    EqualNeighbours { place: usize },
}

/// A generator of the Barratt-Eccles operad, as the list of its entries: permutations of the numbers
/// from 1 to the arity, no two neighbours equal. Its degree is the number of entries less 1, at most
/// 200. Entries count from 0.
#[derive(Drop)]
pub struct Tuple {
    entries: Vec<Perm>,
}

impl Model for Tuple {
    ghost use Rattle.std.specs.Prelude.{List, ℕ};
    ghost use Rattle.barratt_eccles.specs.Generators.{IsGenerator};

    ghost Value = { List (List ℕ) };

    ghost view = { λ t. t.entries.items };

    ghost invariant = { λ t. IsGenerator t.entries.items };
}

impl PartialEq for Tuple {
    ghost eq = { eq_by_cmp (slice_cmp (slice_cmp nat_cmp)) };

    ghost laws = { Prim.search (comparing, rules) };

    fn eq(&self, other: &Tuple) -> bool {
        self.cmp(other).is_eq()
    }
}

impl Eq for Tuple {
    ghost laws = { Prim.search (comparing, rules) };
}

impl PartialOrd for Tuple {
    ghost partial_cmp = { as_partial_cmp (slice_cmp (slice_cmp nat_cmp)) };

    ghost laws = { partial_order_from_own_ties (Prim.search (comparing, rules)) (Prim.search (comparing, rules)) };

    fn partial_cmp(&self, other: &Tuple) -> Option<Ordering> {
        Some(self.cmp(other))
    }
}

impl Ord for Tuple {
    ghost cmp = { slice_cmp (slice_cmp nat_cmp) };

    ghost total = { Prim.search (comparing, rules) };

    ghost matches_partial_cmp = { Prim.search (comparing, rules) };

    ghost matches_eq = { Prim.search (comparing, rules) };

    fn cmp(&self, other: &Tuple) -> Ordering {
        self.entries.as_slice().cmp(other.entries.as_slice())
    }
}

impl Tuple {
    /// The tuple with these entries. Refusals come in this order: `Empty` where there is none;
    /// `TooLong` where there are more than 201; `MixedArity` with the first place of an entry of another
    /// length than the first; `EqualNeighbours` with the first place of an entry that is the one before
    /// it. It takes no memory.
    pub fn new(entries: Vec<Perm>) -> Result<Tuple, TupleRefused>
        ensures refused { IfSome (tuple_fault entries.items) (λ fault. result ≡ Err fault) }
        ensures taken { tuple_fault entries.items ≡ None → result ≡ Ok entries.items }
    {
        if entries.is_empty() {
            return Err(TupleRefused::Empty);
        }
        if entries.len() > 201 {
            return Err(TupleRefused::TooLong);
        }
        if let Some(place) = other_length(entries.as_slice()) {
            return Err(TupleRefused::MixedArity { place });
        }
        if let Some(place) = equal_neighbours(entries.as_slice()) {
            return Err(TupleRefused::EqualNeighbours { place });
        }
        Ok(Tuple { entries })
    }

    /// The entry at a place.
    pub fn entry(&self, i: u32) -> &Perm
        requires { i ≤ tuple_degree self.now }
        ensures { result.now ≡ slice_index_or self.now i [] }
    {
        &self.entries[i as usize]
    }

    /// The entries in order.
    pub fn as_slice(&self) -> &[Perm]
        ensures same { result.now ≡ self.now }
        ensures generator { IsGenerator self.now }
    {
        self.entries.as_slice()
    }

    // The tuple with entries that are known to be one.
    pub(crate) fn from_entries(entries: Vec<Perm>) -> Tuple
        requires { IsGenerator entries.items }
        ensures { result ≡ entries.items }
    {
        Tuple { entries }
    }
}

impl SignedBasis for Tuple {
    ghost is_valid = { IsGenerator };

    ghost degree = { tuple_degree };

    ghost boundary = { tuple_boundary };

    fn degree(&self) -> u32 {
        (self.entries.len() - 1) as u32
    }

    fn boundary(&self, alloc: Global) -> Result<FormalSum<Self>, AllocError> {
        sum_of_faces(alloc, self.entries.as_slice())
    }

    fn copy(&self, alloc: Global) -> Result<Self, AllocError> {
        Ok(Tuple {
            entries: copied(alloc, self.entries.as_slice())?,
        })
    }

    ghost equal_is_same = { equal_lists (slice_cmp nat_cmp) equal_numbers };

    ghost boundary_valid = { boundary_valid_law };

    ghost boundary_degree = { boundary_degree_law };

    ghost no_boundary = { no_boundary_law };

    ghost boundary_twice = { λ phi x v. tuple_boundary_law phi x };

    ghost boundary_weight = { boundary_weight_law };
}

impl Narrow for Tuple {
    ghost narrow_boundary = { narrow_boundary_law };

    ghost narrow_degree = { narrow_degree_law };
}

// The first place of an entry of another length than the first.
fn other_length(entries: &[Perm]) -> Option<usize>
    requires { 1 ≤ length entries.now }
    ensures place { result ≡ other_length_from (tuple_arity entries.now) 0 entries.now }
    ensures permutations { result ≡ None → All IsPerm entries.now }
{
    let arity = entries[0].len();
    for i in 0..entries.len() {
        if entries[i].len() != arity {
            return Some(i);
        }
    }
    None
}

// The first place of an entry that is the one before it.
pub(crate) fn equal_neighbours(entries: &[Perm]) -> Option<usize>
    ensures { result ≡ equal_neighbours_from 0 entries.now }
{
    let mut i: usize = 0;
    while i + 1 < entries.len() {
        if entries[i] == entries[i + 1] {
            return Some(i + 1);
        }
        i += 1;
    }
    None
}

// Whether a list of entries counts as zero.
fn is_zero(entries: &[Perm]) -> bool
    ensures { result ≡ is_zero_tuple entries.now }
{
    entries.is_empty() || equal_neighbours(entries).is_some()
}

// Equal entries.
pub(crate) fn copied(alloc: Global, entries: &[Perm]) -> Result<Vec<Perm>, AllocError>
    ensures { IfOk result (λ copies. copies.items ≡ entries.now) }
{
    let mut copies = Vec::new(alloc);
    for entry in entries {
        copies.push(entry.copy(alloc)?)?;
    }
    Ok(copies)
}

// The entries without the one at a place.
fn copied_without(alloc: Global, entries: &[Perm], place: usize) -> Result<Vec<Perm>, AllocError>
    requires { place < length entries.now }
    ensures { IfOk result (λ face. face.items ≡ remove entries.now place) }
{
    let mut face = copied(alloc, entries)?;
    let _gone = face.remove(place);
    Ok(face)
}

// Adds the tuple without an entry, if that is no zero.
fn add_face(
    alloc: Global,
    sum: &mut FormalSum<Tuple>,
    entries: &[Perm],
    place: usize,
    sign: i64,
) -> Result<(), AllocError>
    requires within { place < length entries.now }
    requires face { is_zero_tuple (remove entries.now place) ≡ false → IsGenerator (remove entries.now place) }
    requires small { nat_abs sign ≤ 1 }
    requires light { weight_of sum.old ≤ 255 }
    ensures { OnOk result (AddsFace entries.now place sign sum.old sum.new) }
{
    let face = copied_without(alloc, entries, place)?;
    if is_zero(face.as_slice()) {
        return Ok(());
    }
    match sum.add_term(Tuple { entries: face }, sign) {
        Ok(()) => Ok(()),
        Err(_) => Err(AllocError),
    }
}

fn sum_of_faces(alloc: Global, entries: &[Perm]) -> Result<FormalSum<Tuple>, AllocError>
    requires { IsGenerator entries.now }
    ensures { IfOk result (λ sum. IsSameSum sum (tuple_boundary entries.now)) }
{
    let mut sum = FormalSum::new(alloc);
    let mut sign: i64 = 1;
    for place in 0..entries.len() {
        add_face(alloc, &mut sum, entries, place, sign)?;
        sign = -sign;
    }
    Ok(sum)
}
