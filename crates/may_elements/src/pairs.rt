//! Walks over all tuples of a May element at once: over rows, and over pairs of powers of the cycle.
ghost use Rattle.std.specs.Prelude.{◌≡◌, ◌≤◌, ◌<◌, ◌/◌, ◌*◌, ◌^◌, ◌∷◌, ◌++◌, [], ℤ, ◌+ℤ◌, List, ℕ, length, None, Some, false, not, IfOk, IfSome, IsTrue, OnOk, suc};
ghost use Rattle.signed_sum.specs.Names.{cycle_power, kept_terms, normalized, occurs, restricted, total, value_at};
ghost use Rattle.operad_law.specs.FormalSums.{IsSameSum};
ghost use Rattle.surjection.specs.Names.{surjection_fault};
ghost use Rattle.table_reduction.specs.Walks.{is_last};
ghost use Rattle.table_reduction_law.{specs.Names.{candidate_count, may_element}, proofs.PowerPairs.may_sum};
ghost use Rattle.may_elements.specs.{Live.is_left_out, Pairs.{AddsBelow, AddsLists, IsAt, IsBegun, IsCrowded, unless_out}};

use interval_cut::live_count;
use operad_law::formal_sum::{FormalSum, SumEnd};
use operad_law::perm::{Perm, stands_in};
use std::alloc::{AllocError, Global};
use surjection::surj::{NotASurjection, Surj};
use table_reduction::walk::ends_with;

/// What lists are wanted of: the numbers 1 to `p`, and where a degree is given, cuts that are live for it.
#[derive(Clone, Copy)]
pub(crate) struct Wanted {
    pub(crate) p: u8,
    pub(crate) live_for: Option<u32>,
}

impl Wanted {
    // Whether a list is wanted.
    fn takes(self, alloc: Global, list: &Surj) -> Result<bool, AllocError>
        requires { IfSome self.live_for (λ q. q ≤ 15) }
        ensures { IfOk result (λ b. b ≡ not (is_left_out self.live_for list.now)) }
    {
        match self.live_for {
            Some(q) => Ok(live_count(alloc, list, q)? > 0),
            None => Ok(true),
        }
    }

    // Whether the last of the values comes too often for a list that begins with them to be wanted.
    fn rejects(self, values: &[u8]) -> bool
        requires { IfSome self.live_for (λ q. q ≤ 15) }
        ensures { IsTrue result → IsCrowded self.live_for values.now }
    {
        match self.live_for {
            Some(q) => is_crowded(values, q),
            None => false,
        }
    }
}

// Whether the last of the values comes more than q + 1 times.
fn is_crowded(values: &[u8], q: u32) -> bool
    requires { q ≤ 15 }
    ensures { IsTrue result → IsCrowded (Some q) values.now }
{
    let Some(last) = values.last() else {
        return false;
    };
    values.iter().filter(|value| *value == last).count() > q as usize + 1
}

/// A walk over the rows of tuples: the values that are written, the entries that later rows leave out,
/// and the lists that are complete.
#[derive(Drop)]
pub(crate) struct PairWalk {
    values: Vec<u8>,
    used: Vec<u8>,
    lists: Vec<Surj>,
}

impl PairWalk {
    // The walk before the first row.
    pub(crate) fn new(alloc: Global) -> PairWalk
        ensures lists { result.lists.items ≡ [] }
        ensures used { result.used.items ≡ [] }
        ensures values { result.values.items ≡ [] }
    {
        PairWalk {
            values: Vec::new(alloc),
            used: Vec::new(alloc),
            lists: Vec::new(alloc),
        }
    }

    // Adds the lists of the tuples of which the May element of degree d is the sum.
    pub(crate) fn add_tuples(&mut self, wanted: Wanted, d: u32) -> Result<(), AllocError>
        requires some { 1 ≤ wanted.p }
        requires narrow { wanted.p ≤ 32 }
        requires small { IfSome wanted.live_for (λ q. q ≤ 15) }
        requires short { suc (d / 2) * suc wanted.p ≤ 255 }
        requires used { self.old.used.items ≡ [] }
        requires values { self.old.values.items ≡ [] }
        ensures { OnOk result ((phi : List ℕ → ℤ) → total phi self.new.lists.items ≡ total phi self.old.lists.items +ℤ may_sum wanted.p d (normalized (restricted (is_left_out wanted.live_for) phi))) }
    {
        if d % 2 == 1 {
            return self.add_pair(wanted, 0, d / 2);
        }
        let row = Perm::cycle(*self.lists.allocator(), wanted.p, 0)?;
        self.add_from(wanted, row.as_slice(), d / 2)
    }

    // Adds the lists that go on with entries of `left`, what follows in the row at hand, and of so many
    // pairs of a power of the cycle of 1 to p and the next. An entry that is used is left out; one that is
    // equal to the last value makes the list degenerate.
    #[cycle(rows)]
    fn add_from(&mut self, wanted: Wanted, left: &[u8], pairs: u32) -> Result<(), AllocError>
        requires some { 1 ≤ wanted.p }
        requires narrow { wanted.p ≤ 32 }
        requires small { IfSome wanted.live_for (λ q. q ≤ 15) }
        requires at { IsAt wanted.p pairs left.now self.old.used.items self.old.values.items }
        ensures lists { OnOk result (AddsLists (is_left_out wanted.live_for) wanted.p pairs [] left.now self.old.used.items self.old.values.items self.old.lists.items self.new.lists.items) }
        ensures used { OnOk result (self.new.used.items ≡ self.old.used.items) }
        ensures values { OnOk result (self.new.values.items ≡ self.old.values.items) }
    {
        if wanted.rejects(self.values.as_slice()) {
            return Ok(());
        }
        let Some((value, rest)) = left.split_first() else {
            if pairs == 0 {
                return self.end_list(wanted);
            }
            return Ok(());
        };
        if stands_in(self.used.as_slice(), *value) {
            return self.add_from(wanted, rest, pairs);
        }
        if ends_with(self.values.as_slice(), *value) {
            return Ok(());
        }
        self.add_value(wanted, *value, rest, pairs)
    }

    // Adds the lists that go on with `value`, an entry of the row at hand before `rest`, which ends the
    // row or not.
    #[cycle(rows)]
    fn add_value(
        &mut self,
        wanted: Wanted,
        value: u8,
        rest: &[u8],
        pairs: u32,
    ) -> Result<(), AllocError>
        requires some { 1 ≤ wanted.p }
        requires narrow { wanted.p ≤ 32 }
        requires small { IfSome wanted.live_for (λ q. q ≤ 15) }
        requires at { IsAt wanted.p pairs (value ∷ rest.now) self.old.used.items self.old.values.items }
        requires free { occurs value self.old.used.items ≡ 0 }
        requires apart { is_last value self.old.values.items ≡ false }
        ensures lists { OnOk result (AddsLists (is_left_out wanted.live_for) wanted.p pairs [] (value ∷ rest.now) self.old.used.items self.old.values.items self.old.lists.items self.new.lists.items) }
        ensures used { OnOk result (self.new.used.items ≡ self.old.used.items) }
        ensures values { OnOk result (self.new.values.items ≡ self.old.values.items) }
    {
        self.values.push(value)?;
        if pairs == 0 {
            self.add_from(wanted, rest, pairs)?;
        } else {
            self.add_pairs(wanted, pairs - 1)?;
            self.used.push(value)?;
            self.add_from(wanted, rest, pairs)?;
            let _used = self.used.pop();
        }
        let _value = self.values.pop();
        Ok(())
    }

    // Adds the lists that go on with a pair of a power and the next, and so many pairs more.
    #[cycle(rows)]
    fn add_pairs(&mut self, wanted: Wanted, pairs: u32) -> Result<(), AllocError>
        requires some { 1 ≤ wanted.p }
        requires narrow { wanted.p ≤ 32 }
        requires small { IfSome wanted.live_for (λ q. q ≤ 15) }
        requires begun { IsBegun wanted.p (suc pairs) self.old.used.items self.old.values.items }
        ensures lists { OnOk result (AddsBelow (is_left_out wanted.live_for) wanted.p pairs wanted.p self.old.used.items self.old.values.items self.old.lists.items self.new.lists.items) }
        ensures used { OnOk result (self.new.used.items ≡ self.old.used.items) }
        ensures values { OnOk result (self.new.values.items ≡ self.old.values.items) }
    {
        for exponent in 0..wanted.p {
            self.add_pair(wanted, exponent, pairs)?;
        }
        Ok(())
    }

    // Adds the lists that go on with a power and the next. The row of the power has its first entry and no
    // other: the next row begins with the value that ends this one, unless it ends with that value.
    #[cycle(rows)]
    fn add_pair(&mut self, wanted: Wanted, exponent: u8, pairs: u32) -> Result<(), AllocError>
        requires some { 1 ≤ wanted.p }
        requires narrow { wanted.p ≤ 32 }
        requires small { IfSome wanted.live_for (λ q. q ≤ 15) }
        requires below { exponent < wanted.p }
        requires begun { IsBegun wanted.p (suc pairs) self.old.used.items self.old.values.items }
        ensures lists { OnOk result (AddsLists (is_left_out wanted.live_for) wanted.p pairs (cycle_power wanted.p (suc exponent) ∷ []) (cycle_power wanted.p exponent) self.old.used.items self.old.values.items self.old.lists.items self.new.lists.items) }
        ensures used { OnOk result (self.new.used.items ≡ self.old.used.items) }
        ensures values { OnOk result (self.new.values.items ≡ self.old.values.items) }
    {
        let value = exponent + 1;
        if stands_in(self.used.as_slice(), value) || ends_with(self.values.as_slice(), value) {
            return Ok(());
        }
        let next = Perm::cycle(*self.lists.allocator(), wanted.p, u32::from(value))?;
        self.values.push(value)?;
        self.add_from(wanted, next.as_slice(), pairs)?;
        let _value = self.values.pop();
        Ok(())
    }

    // Adds the list that is written, if it is wanted.
    fn end_list(&mut self, wanted: Wanted) -> Result<(), AllocError>
        requires complete { surjection_fault self.old.values.items ≡ None }
        requires small { IfSome wanted.live_for (λ q. q ≤ 15) }
        ensures lists { OnOk result (self.new.lists.items ≡ self.old.lists.items ++ unless_out (is_left_out wanted.live_for) self.old.values.items) }
        ensures used { OnOk result (self.new.used.items ≡ self.old.used.items) }
        ensures values { OnOk result (self.new.values.items ≡ self.old.values.items) }
    {
        match Surj::new(*self.lists.allocator(), self.values.as_slice()) {
            Ok(list) => {
                if wanted.takes(*self.lists.allocator(), &list)? {
                    self.lists.push(list)?;
                }
                Ok(())
            }
            Err(NotASurjection::OutOfMemory) => Err(AllocError),
            Err(_) => unreachable!(),
        }
    }
}

// The sum of the wanted lists of the May element of degree d.
pub(crate) fn wanted_sum(
    alloc: Global,
    wanted: Wanted,
    d: u32,
) -> Result<FormalSum<Surj>, AllocError>
    requires some { 1 ≤ wanted.p }
    requires narrow { wanted.p ≤ 32 }
    requires small { IfSome wanted.live_for (λ q. q ≤ 15) }
    requires short { suc (d / 2) * suc wanted.p ≤ 255 }
    requires few { candidate_count wanted.p d ≤ 10 ^ 12 }
    ensures { IfOk result (λ s. IsSameSum s (kept_terms (is_left_out wanted.live_for) (may_element wanted.p d))) }
{
    let mut walk = PairWalk::new(alloc);
    walk.add_tuples(wanted, d)?;
    sum_of(walk.lists)
}

// The sum of lists. They are added in order, so that each goes behind those before it.
fn sum_of(lists: Vec<Surj>) -> Result<FormalSum<Surj>, AllocError>
    requires { length lists.items ≤ 10 ^ 18 }
    ensures { IfOk result (λ s. (phi : List ℕ → ℤ) → value_at phi s ≡ total phi lists.items) }
{
    let mut ascending = lists;
    ascending.sort()?;
    let mut sum = FormalSum::new(*ascending.allocator());
    for list in ascending {
        match sum.add_term(list, 1) {
            Ok(()) => {}
            Err(SumEnd::OutOfMemory) => return Err(AllocError),
            Err(SumEnd::TooLarge) => unreachable!(),
        }
    }
    Ok(sum)
}
