//! Compositions of surjections, after Berger and Fresse: sums over the cuts of one of them, each term
//! with the sign of the rearrangement of the caesuras.
ghost use Rattle.std.specs.Prelude.{◌≡◌, ◌≤◌, ◌<◌, ◌==◌, ◌+◌, ◌-◌, ◌^◌, ◌++◌, cond, drop, length, nat_lt, slice_index, pos, negsuc, IfOk, OnOk};
ghost use Rattle.signed_sum.specs.Names.{occurs, weight_of};
ghost use Rattle.surjection_law.specs.Names.{arity, IsSurjection, multiplicity};
ghost use Rattle.interval_cut_law.specs.Names.{rising_lists};
ghost use Rattle.operad_law.specs.FormalSums.{IsSameSum};
ghost use Rattle.composition_law.specs.Surjections.{IsWithinLimits, composition, cut_count, grown, lifted, piece, spliced, values_of, with_values, IsRising};
ghost use Rattle.surjection.specs.Names.{compose_arity as compose_arity_law, compose_degree as compose_degree_law, compose_valid as compose_valid_law, leibniz as leibniz_law, IsCutAt, IsReady, inner_after_mark, is_odd_order, marked, marked_term, odd_after_mark, terms_behind, AddsList, AddsTerms, Inner, Outer, Plain};

use crate::surj::{Surj, add_list, greatest};
use counting::binomial_up_to;
use operad_law::composing::{Composing, Leibniz};
use operad_law::formal_sum::{FormalSum, MOST_WEIGHT, SumEnd};
use operad_law::perm::stands_in;
use smallvec::SmallVec;
use std::alloc::{AllocError, Global};

/// What an entry of a term is: a caesura of the outer surjection, one of the inner, or neither.
#[derive(Clone, Copy, Default, PartialEq, Eq)]
pub(crate) enum Mark {
    #[default]
    Plain,
    Outer,
    Inner,
}

// The entries of a term, or of one of the two surjections.
type Entries = SmallVec<(u8, Mark), 16>;

// A composition at a value: the entries of the outer surjection, in which those with that value give
// way to pieces, and of the inner one, which is cut into them.
#[derive(Drop)]
struct Splice {
    at: u8,
    outer: Entries,
    inner: Entries,
}

impl Composing for Surj {
    ghost compose = { composition };

    ghost candidate_count = { cut_count };

    ghost within_limits = { IsWithinLimits };

    fn compose_at(&self, alloc: Global, k: u8, other: &Surj) -> Result<FormalSum<Self>, SumEnd> {
        let outer = self.as_slice();
        let inner = other.as_slice();
        let free = times(outer, k) - 1;
        if passes_limit(inner.len() - 1, free) {
            return Err(SumEnd::TooLarge);
        }
        match sum_of_cuts(alloc, outer, k, inner) {
            Ok(sum) => Ok(sum),
            Err(_) => Err(SumEnd::OutOfMemory),
        }
    }

    ghost compose_valid = { compose_valid_law };

    ghost compose_arity = { compose_arity_law };

    ghost compose_degree = { compose_degree_law };
}

impl Leibniz for Surj {
    ghost leibniz = { leibniz_law };
}

// How often a value comes.
fn times(values: &[u8], value: u8) -> usize
    ensures { result ≡ multiplicity value values.now }
{
    let mut count = 0;
    for entry in values {
        if *entry == value {
            count += 1;
        }
    }
    count
}

// Whether there are more than 10^18 lists of `free` places from 0 to `last` of which none is below
// the one before it.
fn passes_limit(last: usize, free: usize) -> bool
    requires last { last < 255 }
    requires free { free < 255 }
    ensures { result ≡ nat_lt (10 ^ 18) (length (rising_lists 0 last free)) }
{
    binomial_up_to((last + free) as u32, free as u32, MOST_WEIGHT + 1) > MOST_WEIGHT
}

fn sum_of_cuts(
    alloc: Global,
    outer: &[u8],
    k: u8,
    inner: &[u8],
) -> Result<FormalSum<Surj>, AllocError>
    requires outer { IsSurjection outer.now }
    requires inner { IsSurjection inner.now }
    requires some { 1 ≤ k }
    requires within { k ≤ arity outer.now }
    requires limits { IsWithinLimits outer.now inner.now }
    requires few { cut_count k outer.now inner.now ≤ 10 ^ 18 }
    ensures { IfOk result (λ sum. IsSameSum sum (composition k outer.now inner.now)) }
{
    let splice = Splice {
        at: k,
        outer: outer_entries(alloc, outer, k, inner)?,
        inner: inner_entries(alloc, inner, k)?,
    };
    let mut sum = FormalSum::new(alloc);
    let mut cut = Vec::new(alloc);
    splice.add_cuts(alloc, &mut sum, &mut cut, 0, times(outer, k) - 1)?;
    Ok(sum)
}

// The entries of the outer surjection: values above k grow by the arity of the inner one less 1.
fn outer_entries(alloc: Global, values: &[u8], k: u8, inner: &[u8]) -> Result<Entries, AllocError>
    requires outer { IsSurjection values.now }
    requires inner { IsSurjection inner.now }
    requires limits { IsWithinLimits values.now inner.now }
    ensures { IfOk result (λ entries. entries.items ≡ with_values (grown k (arity inner.now)) (marked Outer values.now)) }
{
    let by = greatest(inner) - 1;
    let mut entries = SmallVec::new(alloc);
    for i in 0..values.len() {
        let value = grown_value(values[i], k, by);
        entries.push((value, mark_at(values, i, Mark::Outer)))?;
    }
    Ok(entries)
}

// The entries of the inner surjection: the values grow by k - 1.
fn inner_entries(alloc: Global, values: &[u8], k: u8) -> Result<Entries, AllocError>
    requires inner { IsSurjection values.now }
    requires some { 1 ≤ k }
    requires small { k ≤ 32 }
    ensures { IfOk result (λ entries. entries.items ≡ with_values (lifted k) (marked Inner values.now)) }
{
    let mut entries = SmallVec::new(alloc);
    for i in 0..values.len() {
        let value = values[i] + (k - 1);
        entries.push((value, mark_at(values, i, Mark::Inner)))?;
    }
    Ok(entries)
}

// A value of the outer surjection in a term.
fn grown_value(value: u8, k: u8, by: u8) -> u8
    requires { value + by < 256 }
    ensures { result ≡ cond (nat_lt k value) (value + by) value }
{
    if k < value { value + by } else { value }
}

// The mark, if the value at a place comes again.
fn mark_at(values: &[u8], i: usize, mark: Mark) -> Mark
    requires { i < length values.now }
    ensures { result ≡ cond (occurs (slice_index values.now i) (drop (i + 1) values.now) == 1) mark Plain }
{
    if stands_in(&values[i + 1..], values[i]) {
        mark
    } else {
        Mark::Plain
    }
}

impl Splice {
    // Adds the terms of the cuts that begin with `cut` and go on with `left` places from `from` on.
    fn add_cuts(
        &self,
        alloc: Global,
        sum: &mut FormalSum<Surj>,
        cut: &mut Vec<usize>,
        from: usize,
        left: usize,
    ) -> Result<(), AllocError>
        requires ready { IsReady self.now.at self.now.outer.items self.now.inner.items }
        requires rising { IsRising 0 cut.old.items from }
        requires within { from < length self.now.inner.items }
        requires long { length cut.old.items + left + 1 ≡ multiplicity self.now.at (values_of self.now.outer.items) }
        requires light { weight_of sum.old + length (rising_lists from (length self.now.inner.items - 1 - from) left) ≤ 10 ^ 18 }
        ensures same { OnOk result (cut.new.items ≡ cut.old.items) }
        ensures sums { OnOk result (AddsTerms (terms_behind self.now.at self.now.outer.items self.now.inner.items cut.old.items (rising_lists from (length self.now.inner.items - 1 - from) left)) sum.old sum.new) }
    {
        if left == 0 {
            return self.add_cut(alloc, sum, cut.as_slice());
        }
        for place in from..self.inner.len() {
            cut.push(place)?;
            self.add_cuts(alloc, sum, cut, place, left - 1)?;
            let _place = cut.pop();
        }
        Ok(())
    }

    // Adds the term of a cut, if no two neighbours are equal.
    fn add_cut(
        &self,
        alloc: Global,
        sum: &mut FormalSum<Surj>,
        cut: &[usize],
    ) -> Result<(), AllocError>
        requires ready { IsReady self.now.at self.now.outer.items self.now.inner.items }
        requires cut { IsCutAt self.now.at self.now.outer.items self.now.inner.items cut.now }
        requires light { weight_of sum.old < 10 ^ 18 }
        ensures { OnOk result (AddsList (marked_term self.now.at self.now.outer.items self.now.inner.items cut.now).0 (marked_term self.now.at self.now.outer.items self.now.inner.items cut.now).1 sum.old sum.new) }
    {
        let entries = self.entries_at(alloc, cut)?;
        let values = copy_values(alloc, entries.as_slice())?;
        add_list(sum, values, order_sign(entries.as_slice()))
    }

    // The entries of the term of a cut.
    fn entries_at(&self, alloc: Global, cut: &[usize]) -> Result<Entries, AllocError>
        requires rising { IsRising 0 cut.now (length self.now.inner.items - 1) }
        requires some { 1 ≤ length self.now.inner.items }
        requires short { length self.now.inner.items ≤ 255 }
        ensures { IfOk result (λ entries. entries.items ≡ spliced self.now.at 0 self.now.inner.items self.now.outer.items cut.now) }
    {
        let inner = self.inner.as_slice();
        let mut entries = SmallVec::new(alloc);
        let mut start = 0;
        let mut places = 0;
        for entry in self.outer.as_slice() {
            if entry.0 != self.at {
                entries.push(*entry)?;
            } else if places < cut.len() {
                add_piece(&mut entries, inner, start, cut[places], entry.1)?;
                start = cut[places];
                places += 1;
            } else {
                entries.extend_from_slice(&inner[start..])?;
            }
        }
        Ok(entries)
    }
}

// Adds a piece: the entries from `start` up to `end`, at which the mark stands.
fn add_piece(
    entries: &mut Entries,
    inner: &[(u8, Mark)],
    start: usize,
    end: usize,
    mark: Mark,
) -> Result<(), AllocError>
    requires order { start ≤ end }
    requires within { end < length inner.now }
    requires short { length inner.now ≤ 255 }
    ensures { OnOk result (entries.new.items ≡ entries.old.items ++ piece (end - start) (drop start inner.now) mark) }
{
    entries.extend_from_slice(&inner[start..end])?;
    entries.push((inner[end].0, mark))?;
    Ok(())
}

// The values of entries.
fn copy_values(alloc: Global, entries: &[(u8, Mark)]) -> Result<SmallVec<u8, 16>, AllocError>
    ensures { IfOk result (λ values. values.items ≡ values_of entries.now) }
{
    let mut values = SmallVec::new(alloc);
    for entry in entries {
        values.push(entry.0)?;
    }
    Ok(values)
}

// -1 where an odd number of inner caesuras stand before outer ones, counted in pairs, else 1.
fn order_sign(entries: &[(u8, Mark)]) -> i64
    ensures { result ≡ cond (is_odd_order entries.now) (negsuc 0) (pos 1) }
{
    let mut inner = false;
    let mut odd = false;
    for entry in entries {
        odd = odd_after(entry.1, inner, odd);
        inner = inner_after(entry.1, inner);
    }
    if odd { -1 } else { 1 }
}

// Whether an odd number of inner caesuras were met, after one more entry.
fn inner_after(mark: Mark, inner: bool) -> bool
    ensures { result ≡ inner_after_mark mark inner }
{
    match mark {
        Mark::Inner => !inner,
        _ => inner,
    }
}

// Whether an odd number of pairs were met, after one more entry.
fn odd_after(mark: Mark, inner: bool, odd: bool) -> bool
    ensures { result ≡ odd_after_mark mark inner odd }
{
    match mark {
        Mark::Outer if inner => !odd,
        _ => odd,
    }
}
