ghost use Rattle.std.specs.Prelude.{◌≡◌, ℕ, ◌+◌, ◌^◌, ◌<◌, ◌≤◌, ◌≢◌, ◌%◌, length, slice_index, slice_index_or, List, [], ◌∷◌, ◌++◌, None, Some, OnOk, IfOk, IsTrue};
ghost use Rattle.linear_law.specs.Names.{Congruent, Each, StartsAt};
ghost use Rattle.fp_field.specs.Served.{served};
ghost use Rattle.sparse_rows.specs.Rows.{IsBelow, value_in};
ghost use Rattle.row_reduce.specs.Names.{IsMarkedIn, IsClear, IsLoaded, IsRest, IsStoredFrom, Owns, AreRows, IsReached, Reached, SkipsFit};

use crate::reducing::{add_row, reduce};
use crate::{Class, Entries, Pivots, Stored};
use fp_field::Fp;
use sparse_rows::Row;
use std::alloc::{AllocError, Global};

/// A walk over rows, from the last to the first.
#[derive(Drop)]
pub(crate) struct Walk<const P: u32> {
    /// Which rows are left out.
    pub(crate) skip: Vec<bool>,
    /// The rows that went to zero, from the last to the first.
    pub(crate) classes: Vec<Class<P>>,
    /// What is left of the others, each with a lead of its own.
    pub(crate) stored: Vec<Stored<P>>,
    /// Which of these has its lead at a place.
    pub(crate) pivots: Pivots,
}

/// A place before which the row has nothing.
fn first_place<const P: u32>(row: &[(u32, Fp<P>)], width: usize) -> usize
    ensures inside { result ≤ width }
    ensures before { (y : ℕ) → y < result → value_in row.now y ≡ 0 }
{
    let mut first = width;
    for entry in row {
        if (entry.0 as usize) < first {
            first = entry.0 as usize;
        }
    }
    first
}

/// Puts a row into an empty sum, and says where it starts.
fn load<const P: u32>(sum: &mut [Fp<P>], row: &[(u32, Fp<P>)]) -> usize
    requires prime { IsTrue (served P) }
    requires clear { IsClear P sum.old }
    requires fits { IsBelow (length sum.old) row.now }
    ensures { IsLoaded P row.now sum.new result }
{
    add_row(sum, row, Fp::new(1));
    first_place(row, sum.len())
}

/// Takes the values that are left in the sum, from `start` on, each with its place.
fn take_pairs<const P: u32>(
    alloc: Global,
    sum: &mut [Fp<P>],
    start: usize,
) -> Result<Vec<(u32, Fp<P>)>, AllocError>
    requires prime { IsTrue (served P) }
    requires narrow { length sum.old ≤ 2 ^ 32 }
    requires before { StartsAt P start (slice_index sum.old) }
    ensures { IfOk result (λ r. IsRest P sum.old sum.new r.items) }
{
    let mut rest = Vec::new(alloc);
    for at in start..sum.len() {
        let value = sum[at];
        if value.value() != 0 {
            rest.push((at as u32, value))?;
            sum[at] = Fp::new(0);
        }
    }
    Ok(rest)
}

/// Clears the sum, which has nothing before `start`.
#[tactic(auto, using(crate::proofs::StoredLemmas::all_clear, crate::proofs::EntryLemmas::clear_more))]
fn clear_from<const P: u32>(sum: &mut [Fp<P>], start: usize)
    requires prime { IsTrue (served P) }
    requires before { StartsAt P start (slice_index sum.old) }
    ensures { IsClear P sum.new }
{
    for at in start..sum.len() {
        sum[at] = Fp::new(0);
    }
}

/// Takes all values of the sum from `start` on.
fn take_run<const P: u32>(
    alloc: Global,
    sum: &mut [Fp<P>],
    start: usize,
) -> Result<Entries<P>, AllocError>
    requires prime { IsTrue (served P) }
    requires narrow { length sum.old ≤ 2 ^ 32 }
    requires inside { start < length sum.old }
    requires before { StartsAt P start (slice_index sum.old) }
    ensures { IfOk result (λ r. IsRest P sum.old sum.new r) }
{
    let rest = Entries::of_run(alloc, start as u32, &sum[start..])?;
    clear_from(sum, start);
    Ok(rest)
}

/// Takes what is left in the sum, from `start` on, in the form that takes less memory.
fn take_rest<const P: u32>(
    alloc: Global,
    sum: &mut [Fp<P>],
    start: usize,
) -> Result<Entries<P>, AllocError>
    requires prime { IsTrue (served P) }
    requires narrow { length sum.old ≤ 2 ^ 32 }
    requires inside { start < length sum.old }
    requires before { StartsAt P start (slice_index sum.old) }
    ensures { IfOk result (λ r. IsRest P sum.old sum.new r) }
{
    let left = &sum[start..];
    let filled = left.iter().filter(|value| !value.is_zero()).count();
    if filled < left.len() / 8 {
        let pairs = take_pairs(alloc, sum, start)?;
        Entries::of_pairs(alloc, pairs.as_slice())
    } else {
        take_run(alloc, sum, start)
    }
}

/// Takes a row that was not reduced from the sum.
fn take_given<const P: u32>(
    alloc: Global,
    sum: &mut [Fp<P>],
    row: &[(u32, Fp<P>)],
) -> Result<Entries<P>, AllocError>
    requires prime { IsTrue (served P) }
    requires fits { IsBelow (length sum.old) row.now }
    requires same { (y : ℕ) → Congruent P (slice_index sum.old y) (value_in row.now y) }
    ensures { IfOk result (λ r. IsRest P sum.old sum.new r) }
{
    add_row(sum, row, Fp::new(1).neg());
    let rest = Entries::of_pairs(alloc, row)?;
    Ok(rest)
}

/// Takes what is left in the sum, which is the given row where nothing was added.
fn take_left<const P: u32>(
    alloc: Global,
    sum: &mut [Fp<P>],
    row: &[(u32, Fp<P>)],
    history: &[(u32, Fp<P>)],
    start: usize,
) -> Result<Entries<P>, AllocError>
    requires prime { IsTrue (served P) }
    requires narrow { length sum.old ≤ 2 ^ 32 }
    requires inside { start < length sum.old }
    requires before { StartsAt P start (slice_index sum.old) }
    requires fits { IsBelow (length sum.old) row.now }
    requires same { history.now ≡ [] → (y : ℕ) → Congruent P (slice_index sum.old y) (value_in row.now y) }
    ensures { IfOk result (λ r. IsRest P sum.old sum.new r) }
{
    if history.is_empty() {
        take_given(alloc, sum, row)
    } else {
        take_rest(alloc, sum, start)
    }
}

/// Makes the row that is left in the sum one to store, where `left` is its lead and its history.
fn store<const P: u32>(
    alloc: Global,
    sum: &mut [Fp<P>],
    given: &[(u32, Fp<P>)],
    source: u32,
    left: (usize, Vec<(u32, Fp<P>)>),
) -> Result<Stored<P>, AllocError>
    requires prime { IsTrue (served P) }
    requires narrow { length sum.old ≤ 2 ^ 32 }
    requires before { StartsAt P left.0 (slice_index sum.old) }
    requires inside { left.0 < length sum.old }
    requires nonzero { slice_index sum.old left.0 % P ≢ 0 }
    requires fits { IsBelow (length sum.old) given.now }
    requires same { left.1.items ≡ [] → (y : ℕ) → Congruent P (slice_index sum.old y) (value_in given.now y) }
    ensures { IfOk result (λ i. IsStoredFrom P sum.old sum.new left.entry.0 source left.entry.1.items i) }
{
    let (lead, history) = left;
    let factor = sum[lead].inv().neg();
    let row = take_left(alloc, sum, given, history.as_slice(), lead)?;
    let history = Entries::of_pairs(alloc, history.as_slice())?;
    Ok(Stored {
        place: lead as u32,
        factor,
        row,
        source,
        history,
    })
}

/// The class of a row that went to zero.
fn class_of<const P: u32>(
    alloc: Global,
    place: u32,
    history: Vec<(u32, Fp<P>)>,
) -> Result<Class<P>, AllocError>
    ensures { IfOk result (λ c. (c.place ≡ place) × (c.history ≡ history.entry.items)) }
{
    let history = Entries::of_pairs(alloc, history.as_slice())?;
    Ok(Class { place, history })
}

/// Values that are all zero.
pub fn zero_values<const P: u32>(alloc: Global, count: usize) -> Result<Vec<Fp<P>>, AllocError>
    requires { IsTrue (served P) }
    ensures len { IfOk result (λ v. length v.items ≡ count) }
    ensures clear { IfOk result (λ v. IsClear P v.items) }
{
    vec![in alloc; Fp::new(0); count]
}

/// Appends a row, which then has its lead alone.
fn append<const P: u32>(
    stored: &mut Vec<Stored<P>>,
    pivots: &mut Pivots,
    row: Stored<P>,
) -> Result<(), AllocError>
    requires few { length stored.old.items + 1 < 2 ^ 32 }
    requires owns { Owns (length pivots.old) stored.old.items pivots.old }
    requires inside { row.place < length pivots.old }
    ensures owns { OnOk result (Owns (length pivots.old) stored.new.items pivots.new) }
    ensures items { OnOk result (stored.new.items ≡ stored.old.items ++ (row.entry ∷ [])) }
{
    pivots.insert(row.place as usize, stored.len() as u32);
    stored.push(row)?;
    Ok(())
}

impl<const P: u32> Walk<P> {
    /// A walk of rows of this width that has not begun.
    fn start(alloc: Global, width: usize, skip: Vec<bool>) -> Result<Walk<P>, AllocError>
        requires { IsTrue (served P) }
        ensures skip { IfOk result (λ w. w.skip ≡ skip) }
        ensures reached { IfOk result (λ w. (rows : List (List (ℕ × ℕ))) → SkipsFit P width rows skip.items → IsReached P width rows (length rows) w) }
    {
        Ok(Walk {
            skip,
            classes: Vec::new(alloc),
            stored: Vec::new(alloc),
            pivots: Pivots::none(alloc, width)?,
        })
    }

    /// Takes one more row: it is left out, or it goes to zero and is a class, or what is left of it is stored.
    fn step(
        &mut self,
        alloc: Global,
        rows: &[Row<P>],
        low: usize,
        sum: &mut [Fp<P>],
    ) -> Result<(), AllocError>
        requires prime { IsTrue (served P) }
        requires rows { AreRows (length sum.old) rows.now }
        requires inside { low < length rows.now }
        requires clear { IsClear P sum.old }
        requires reached { IsReached P (length sum.old) rows.now (low + 1) self.old }
        ensures clear { OnOk result (IsClear P sum.new) }
        ensures skip { OnOk result (self.new.skip ≡ self.old.skip) }
        ensures reached { OnOk result (IsReached P (length sum.old) rows.now low self.new) }
    {
        if self.skip[low] {
            return Ok(());
        }
        let row = rows[low].as_slice();
        let start = load(sum, row);
        let left = reduce(alloc, sum, start, self.stored.as_slice(), &self.pivots)?;
        if left.0 == sum.len() {
            let class = class_of(alloc, low as u32, left.1)?;
            self.classes.push(class)?;
        } else {
            let stored = store(alloc, sum, row, low as u32, left)?;
            append(&mut self.stored, &mut self.pivots, stored)?;
        }
        Ok(())
    }

    /// Walks all rows, from the last to the first.
    fn go(&mut self, alloc: Global, rows: &[Row<P>], sum: &mut [Fp<P>]) -> Result<(), AllocError>
        requires prime { IsTrue (served P) }
        requires rows { AreRows (length sum.old) rows.now }
        requires clear { IsClear P sum.old }
        requires reached { IsReached P (length sum.old) rows.now (length rows.now) self.old }
        ensures skip { OnOk result (self.new.skip ≡ self.old.skip) }
        ensures reached { OnOk result (IsReached P (length sum.old) rows.now 0 self.new) }
    {
        for done in 0..rows.len() {
            self.step(alloc, rows, rows.len() - 1 - done, sum)?;
        }
        Ok(())
    }

    /// Walks rows of this width from the last to the first, but for those that are left out. What is left of
    /// a row after older rows were added is stored with its lead, or it is zero, a class.
    pub(crate) fn over(
        alloc: Global,
        rows: &[Row<P>],
        width: usize,
        skip: Vec<bool>,
    ) -> Result<Walk<P>, AllocError>
        requires prime { IsTrue (served P) }
        requires rows { AreRows width rows.now }
        requires skips { SkipsFit P width rows.now skip.items }
        ensures skip { IfOk result (λ w. w.skip ≡ skip) }
        ensures reached { IfOk result (λ w. IsReached P width rows.now 0 w) }
    {
        let mut sum = zero_values(alloc, width)?;
        let mut walk = Walk::start(alloc, width, skip)?;
        walk.go(alloc, rows, sum.as_mut_slice())?;
        Ok(walk)
    }
}
