//! Rows in little memory.
ghost use Rattle.std.specs.Prelude.{◌≡◌, ℕ, ◌+◌, ◌*◌, ◌-◌, ◌%◌, ◌^◌, ◌<◌, ◌≤◌, length, slice_index, IfOk, IsTrue};
ghost use Rattle.linear_law.specs.Names.{Congruent};
ghost use Rattle.fp_field.specs.Served.{served};
ghost use Rattle.sparse_rows.specs.Rows.{IsBelow, IsRow, value_in};
ghost use Rattle.row_reduce.specs.Names.{run_from, zipped};

use crate::reducing::plus_product;
use fp_field::Fp;
use sparse_rows::Row;
use std::alloc::{AllocError, Global};
use std::marker::Model;

/// Values at places. The first values stand at places of their own, and the others one after the other.
#[derive(Drop)]
pub struct Entries<const P: u32> {
    places: Vec<u32>,
    first: u32,
    values: Vec<Fp<P>>,
}

impl<const P: u32> Model for Entries<P> {
    ghost use Rattle.std.specs.Prelude.{ℕ, ◌+◌, ◌-◌, ◌^◌, ◌≤◌, List, length};
    ghost use Rattle.row_reduce.specs.Entries.{entries_of};

    ghost Value = { List (ℕ × ℕ) };

    ghost view = { λ e. entries_of e.places.items e.first e.values.items };

    ghost invariant = { λ e. (length e.places.items ≤ length e.values.items) × (e.first + (length e.values.items - length e.places.items) ≤ 2 ^ 32) };
}

impl<const P: u32> Entries<P> {
    /// The values of the pairs, each at its place.
    pub(crate) fn of_pairs(alloc: Global, pairs: &[(u32, Fp<P>)]) -> Result<Entries<P>, AllocError>
        ensures { IfOk result (λ e. e ≡ pairs.now) }
    {
        let mut places = Vec::with_capacity(alloc, pairs.len())?;
        let mut values = Vec::with_capacity(alloc, pairs.len())?;
        for pair in pairs {
            places.push(pair.0)?;
            values.push(pair.1)?;
        }
        Ok(Entries {
            places,
            first: 0,
            values,
        })
    }

    /// The values at the places from `first` on.
    pub(crate) fn of_run(alloc: Global, first: u32, run: &[Fp<P>]) -> Result<Entries<P>, AllocError>
        requires { first + length run.now ≤ 2 ^ 32 }
        ensures { IfOk result (λ e. e ≡ run_from first run.now) }
    {
        let values = Vec::from_slice(alloc, run)?;
        Ok(Entries {
            places: Vec::new(alloc),
            first,
            values,
        })
    }

    /// Adds `by` times the values to the sum.
    pub(crate) fn add_to(&self, sum: &mut [Fp<P>], by: Fp<P>)
        requires prime { IsTrue (served P) }
        requires fits { IsBelow (length sum.old) self.now }
        ensures { (k : ℕ) → Congruent P (slice_index sum.new k) (slice_index sum.old k + by.entry * value_in self.now k) }
    {
        let (alone, run) = self.values.as_slice().split_at(self.places.len());
        add_alone(sum, self.places.as_slice(), alone, by);
        add_run(sum, self.first as usize, run, by);
    }

    /// The row of the values.
    pub fn to_row(&self, alloc: Global) -> Result<Row<P>, AllocError>
        requires { IsTrue (served P) }
        ensures sum { IfOk result (λ r. (k : ℕ) → value_in r k ≡ value_in self.now k % P) }
        ensures row { IfOk result (λ r. IsRow P r) }
    {
        let places = self.places.as_slice();
        let values = self.values.as_slice();
        let mut pairs = Vec::with_capacity(alloc, values.len())?;
        for i in 0..values.len() {
            pairs.push((place_of(places, self.first, i), values[i]))?;
        }
        Row::from_pairs(alloc, pairs.as_slice())
    }
}

/// The place of the i-th value, where the first ones stand at these places, and the others from `first` on.
fn place_of(places: &[u32], first: u32, i: usize) -> u32
    requires { first + (i - length places.now) < 2 ^ 32 }
    ensures alone { i < length places.now → result ≡ slice_index places.now i }
    ensures run { length places.now ≤ i → result ≡ first + (i - length places.now) }
{
    if i < places.len() {
        places[i]
    } else {
        first + (i - places.len()) as u32
    }
}

/// Adds `by` times values at places of their own.
fn add_alone<const P: u32>(sum: &mut [Fp<P>], places: &[u32], values: &[Fp<P>], by: Fp<P>)
    requires prime { IsTrue (served P) }
    requires same { length places.now ≡ length values.now }
    requires fits { IsBelow (length sum.old) (zipped places.now values.now) }
    ensures { (k : ℕ) → Congruent P (slice_index sum.new k) (slice_index sum.old k + by.entry * value_in (zipped places.now values.now) k) }
{
    for i in 0..places.len() {
        let at = places[i] as usize;
        sum[at] = plus_product(sum[at], by, values[i]);
    }
}

/// Adds `by` times the values at the places from `first` on.
#[tactic(auto, using(crate::proofs::EntryLemmas::once_more))]
fn add_run<const P: u32>(sum: &mut [Fp<P>], first: usize, run: &[Fp<P>], by: Fp<P>)
    requires prime { IsTrue (served P) }
    requires inside { (i : ℕ) → i < length run.now → first + i < length sum.old }
    ensures { (k : ℕ) → Congruent P (slice_index sum.new k) (slice_index sum.old k + by.entry * value_in (run_from first run.now) k) }
{
    for _ in 0..by.value() {
        add_once(sum, first, run);
    }
}

/// Adds the values at the places from `first` on.
fn add_once<const P: u32>(sum: &mut [Fp<P>], first: usize, run: &[Fp<P>])
    requires prime { IsTrue (served P) }
    requires inside { (i : ℕ) → i < length run.now → first + i < length sum.old }
    ensures { (k : ℕ) → Congruent P (slice_index sum.new k) (slice_index sum.old k + value_in (run_from first run.now) k) }
{
    for i in 0..run.len() {
        let at = first + i;
        sum[at] = sum[at].add(run[i]);
    }
}
