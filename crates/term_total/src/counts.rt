//! What rows count, where the live cuts of each May element are counted once.
ghost use Rattle.std.specs.Prelude.{◌≡◌, ◌≤◌, ◌*◌, ℕ, ℤ, List, IfOk, IfSome, IsSome, IsTrue, map};
ghost use Rattle.fp_field.specs.Served.{served};
ghost use Rattle.linear_law.specs.Names.{sum_over, Each};
ghost use Rattle.interval_cut.specs.Names.{counted_live};
ghost use Rattle.may_elements.specs.{Counted.cut_off, Stored.stored_at};
ghost use Rattle.term_total.specs.Names.{AreCounted, AreReady, IsReady, IsThere, addend_number, live_total, operation_number};

use crate::charges::product;
use crate::plan::{Addend, Applied, Row};
use interval_cut::live_count;
use may_elements::MayTable;
use may_elements::terms::MOST_COUNT;
use operad_law::formal_sum::FormalSum;
use std::alloc::{AllocError, Global};
use surjection::surj::Surj;

/// How many cuts are live for a degree over the surjections of a May element.
#[derive(Clone, Copy)]
struct Counted {
    element: u32,
    degree: u32,
    count: u64,
}

/// The numbers of live cuts that are counted so far.
#[derive(Drop)]
pub(crate) struct CutCounts<const P: u32> {
    counts: Vec<Counted>,
    ghost counted: { AreCounted P counts.items },
}

/// The number of cuts that are live for q over the surjections of a sum, cut off.
fn live_cuts_in(alloc: Global, sum: &FormalSum<Surj>, q: u32) -> Result<u64, AllocError>
    requires { q ≤ 15 }
    ensures { IfOk result (λ n. n ≡ cut_off (sum_over (λ (t : List ℕ × ℤ). counted_live q t.0) sum.now)) }
{
    let mut count: u64 = 0;
    for k in 0..sum.len() {
        let (surjection, _) = sum.term(k);
        let more = live_count(alloc, surjection, q)?;
        count = MOST_COUNT.min(count.saturating_add(more));
    }
    Ok(count)
}

impl<const P: u32> CutCounts<P> {
    /// Nothing is counted.
    pub(crate) fn new(alloc: Global) -> CutCounts<P> {
        CutCounts {
            counts: Vec::new(alloc),
        }
    }

    /// The count for a May element and a degree, if it is there.
    fn found(&self, element: u32, degree: u32) -> Option<u64>
        ensures { IfSome result (λ n. n ≡ cut_off (live_total P element degree)) }
    {
        for count in self.counts.as_slice() {
            if count.element == element && count.degree == degree {
                return Some(count.count);
            }
        }
        None
    }

    /// The number of cuts that are live for q over the surjections of the May element of degree d, cut off. It is
    /// counted where it is not there yet.
    fn live_cuts(&mut self, table: &MayTable<P>, d: u32, q: u32) -> Result<u64, AllocError>
        requires prime { IsTrue (served P) }
        requires low { q ≤ 15 }
        requires most { d ≤ P * q }
        requires stored { IsSome (stored_at d q table.now) }
        ensures { IfOk result (λ n. n ≡ cut_off (live_total P d q)) }
    {
        if let Some(count) = self.found(d, q) {
            return Ok(count);
        }
        let alloc = *self.counts.allocator();
        let count = match table.part(d, q) {
            Some(part) => {
                let _weight = part.weight();
                live_cuts_in(alloc, part, q)?
            }
            None => unreachable!(),
        };
        self.counts.push(Counted {
            element: d,
            degree: q,
            count,
        })?;
        Ok(count)
    }

    /// What an operation counts, cut off.
    fn operation(&mut self, table: &MayTable<P>, operation: &Applied) -> Result<u64, AllocError>
        requires prime { IsTrue (served P) }
        requires ready { IsReady P (IsThere table.now) operation.now }
        ensures { IfOk result (λ n. n ≡ cut_off (operation_number P operation.now)) }
    {
        let cuts = self.live_cuts(table, operation.element, operation.degree)?;
        Ok(product(operation.simplices, cuts))
    }

    /// What an addend counts, cut off.
    fn addend(&mut self, table: &MayTable<P>, addend: &Addend) -> Result<u64, AllocError>
        requires prime { IsTrue (served P) }
        requires ready { Each (IsReady P (IsThere table.now)) addend.now.operations }
        ensures { IfOk result (λ n. n ≡ cut_off (addend_number P addend.now)) }
    {
        let mut sum: u64 = 0;
        for operation in addend.operations.as_slice() {
            let number = self.operation(table, operation)?;
            sum = MOST_COUNT.min(sum.saturating_add(number));
        }
        Ok(product(addend.factor, sum))
    }

    /// The numbers of the addends of a row, cut off.
    pub(crate) fn numbers(
        &mut self,
        alloc: Global,
        table: &MayTable<P>,
        row: &Row,
    ) -> Result<Vec<u64>, AllocError>
        requires prime { IsTrue (served P) }
        requires ready { AreReady P (IsThere table.now) row.now }
        ensures { IfOk result (λ v. v.items ≡ map cut_off (map (addend_number P) row.now.addends)) }
    {
        let mut numbers = Vec::new(alloc);
        for addend in row.addends.as_slice() {
            numbers.push(self.addend(table, addend)?)?;
        }
        Ok(numbers)
    }
}
