//! The walk over the lists that come from a tuple.
ghost use Rattle.std.specs.Prelude.{◌≡◌, ◌≤◌, ◌+◌, ◌^◌, ◌∷◌, [], false, All, OnOk};
ghost use Rattle.signed_sum.specs.Names.{IsDistinct, is_degenerate, occurs, weight_of};
ghost use Rattle.table_reduction.specs.Walks.{AddsLists, is_last, needed};

use operad_law::formal_sum::{FormalSum, SumEnd};
use operad_law::perm::{Perm, stands_in};
use std::alloc::{AllocError, Global};
use surjection::surj::{NotASurjection, Surj};

/// A walk over the rows of a tuple: the values that are written, the entries that later rows leave out,
/// and the sum of the lists that are complete.
#[derive(Drop)]
pub(crate) struct Walk {
    values: Vec<u8>,
    used: Vec<u8>,
    sum: FormalSum<Surj>,
}

impl Walk {
    // The walk before the first row.
    pub(crate) fn new(alloc: Global) -> Walk
        ensures sum { result.sum ≡ [] }
        ensures used { result.used.items ≡ [] }
        ensures values { result.values.items ≡ [] }
    {
        Walk {
            values: Vec::new(alloc),
            used: Vec::new(alloc),
            sum: FormalSum::new(alloc),
        }
    }

    // The sum.
    pub(crate) fn into_sum(self) -> FormalSum<Surj>
        ensures { result ≡ self.sum }
    {
        self.sum
    }

    // Adds the lists that go on with entries of `left`, what follows in the row at hand, and of the
    // later rows. An entry that is used is left out; one that is equal to the last value makes the
    // list degenerate.
    #[cycle(rows)]
    pub(crate) fn add_from(
        &mut self,
        alloc: Global,
        left: &[u8],
        later: &[Perm],
    ) -> Result<(), AllocError>
        requires row { IsDistinct left.now }
        requires rows { All IsDistinct later.now }
        requires plain { is_degenerate self.old.values.items ≡ false }
        requires room { weight_of self.old.sum + needed later.now left.now self.old.used.items self.old.values.items ≤ 10 ^ 18 }
        ensures sum { OnOk result (AddsLists later.now left.now self.old.used.items self.old.values.items self.old.sum self.new.sum) }
        ensures used { OnOk result (self.new.used.items ≡ self.old.used.items) }
        ensures values { OnOk result (self.new.values.items ≡ self.old.values.items) }
    {
        let Some((value, rest)) = left.split_first() else {
            return self.end_row(alloc, later);
        };
        if stands_in(self.used.as_slice(), *value) {
            return self.add_from(alloc, rest, later);
        }
        if ends_with(self.values.as_slice(), *value) {
            return Ok(());
        }
        self.add_value(alloc, *value, rest, later)
    }

    // Adds the lists that go on with `value`, an entry of the row at hand before `rest`, which ends the
    // row or not.
    #[cycle(rows)]
    fn add_value(
        &mut self,
        alloc: Global,
        value: u8,
        rest: &[u8],
        later: &[Perm],
    ) -> Result<(), AllocError>
        requires row { IsDistinct (value ∷ rest.now) }
        requires rows { All IsDistinct later.now }
        requires free { occurs value self.old.used.items ≡ 0 }
        requires apart { is_last value self.old.values.items ≡ false }
        requires plain { is_degenerate self.old.values.items ≡ false }
        requires room { weight_of self.old.sum + needed later.now (value ∷ rest.now) self.old.used.items self.old.values.items ≤ 10 ^ 18 }
        ensures sum { OnOk result (AddsLists later.now (value ∷ rest.now) self.old.used.items self.old.values.items self.old.sum self.new.sum) }
        ensures used { OnOk result (self.new.used.items ≡ self.old.used.items) }
        ensures values { OnOk result (self.new.values.items ≡ self.old.values.items) }
    {
        self.values.push(value)?;
        if let Some((row, rows)) = later.split_first() {
            self.add_from(alloc, row.as_slice(), rows)?;
            self.used.push(value)?;
            self.add_from(alloc, rest, later)?;
            let _used = self.used.pop();
        } else {
            self.add_from(alloc, rest, later)?;
        }
        let _value = self.values.pop();
        Ok(())
    }

    // Adds the list that is written, if no row is left.
    fn end_row(&mut self, alloc: Global, later: &[Perm]) -> Result<(), AllocError>
        requires plain { is_degenerate self.old.values.items ≡ false }
        requires room { weight_of self.old.sum + needed later.now [] self.old.used.items self.old.values.items ≤ 10 ^ 18 }
        ensures sum { OnOk result (AddsLists later.now [] self.old.used.items self.old.values.items self.old.sum self.new.sum) }
        ensures used { OnOk result (self.new.used.items ≡ self.old.used.items) }
        ensures values { OnOk result (self.new.values.items ≡ self.old.values.items) }
    {
        if !later.is_empty() {
            return Ok(());
        }
        let list = match Surj::new(alloc, self.values.as_slice()) {
            Ok(list) => list,
            Err(NotASurjection::OutOfMemory) => return Err(AllocError),
            Err(_) => unreachable!(),
        };
        match self.sum.add_term(list, 1) {
            Ok(()) => Ok(()),
            Err(SumEnd::OutOfMemory) => Err(AllocError),
            Err(SumEnd::TooLarge) => unreachable!(),
        }
    }
}

/// Whether a value is the last of a list.
pub fn ends_with(values: &[u8], value: u8) -> bool
    ensures { result ≡ is_last value values.now }
{
    match values.split_last() {
        Some((last, _)) => value == *last,
        None => false,
    }
}
