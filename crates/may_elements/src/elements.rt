//! The May elements at a prime.
ghost use Rattle.std.specs.Prelude.{◌≡◌, ◌↔◌, ◌≤◌, ◌+◌, ◌^◌, ◌≢◌, [], ℕ, List, ℤ, IfOk, IfSome, IsSome, IsTrue, OnOk, OnErr};
ghost use Rattle.fp_field.specs.Served.{served};
ghost use Rattle.signed_sum.specs.Names.{value_at};
ghost use Rattle.operad_law.specs.FormalSums.{IsSameSum};
ghost use Rattle.table_reduction_law.specs.Names.{candidate_count, in_turn, may_element};
ghost use Rattle.surjection_law.specs.Names.{surjection_boundary};
ghost use Rattle.may_elements.specs.{Counted.{cut_off}, Live.{live_part}, Stored.{boundary_value, stored_at}};

use crate::pairs::{Wanted, wanted_sum};
use crate::terms::{MOST_COUNT, Over};
use counting::binomial_up_to;
use operad_law::formal_sum::FormalSum;
use std::alloc::{AllocError, Global};
use std::marker::Model;
use surjection::surj::Surj;
use thiserror::Error;

/// Why terms were not charged, or a May element was not stored.
#[derive(Debug, Drop, Error)]
pub enum MayRefused {
    #[error("{0}")]
    TooManyTerms(Over),
    #[error("out of memory")]
    OutOfMemory,
}

/// What operations see of the May elements at the prime `P`: parts of them, each under the degree of
/// the element and that of the cochains.
#[derive(Drop)]
pub struct MayTable<const P: u32> {
    stored: Vec<((u32, u32), FormalSum<Surj>)>,
}

impl<const P: u32> Model for MayTable<P> {
    ghost use Rattle.may_elements.specs.Stored.{AreLiveParts, Parts};

    ghost Value = { Parts };

    ghost view = { λ t. t.stored.items };

    ghost invariant = { λ t. AreLiveParts P t.stored.items };
}

impl<const P: u32> MayTable<P> {
    /// Nothing is stored. What is stored will come from this allocator.
    pub fn new(alloc: Global) -> MayTable<P>
        ensures { result ≡ [] }
    {
        MayTable {
            stored: Vec::new(alloc),
        }
    }

    /// What an operation on cochains of degree q sees of the May element of degree d: its terms that have
    /// a cut live for q. `None` exactly where this is not stored.
    pub fn part(&self, d: u32, q: u32) -> Option<&FormalSum<Surj>>
        ensures stored { IsSome result ↔ IsSome (stored_at d q self.now) }
        ensures part { IfSome result (λ s. IsSameSum s.now (live_part P d q)) }
    {
        for entry in self.stored.as_slice() {
            if entry.0.0 == d && entry.0.1 == q {
                return Some(&entry.1);
            }
        }
        None
    }

    /// Stores what an operation on cochains of degree q sees of the May element of degree d, if it is not
    /// stored. After want of memory the table is as before.
    pub fn store(&mut self, d: u32, q: u32) -> Result<(), AllocError>
        requires prime { IsTrue (served P) }
        requires low { d ≤ 60 }
        requires small { q ≤ 15 }
        requires few { candidate_count P d ≤ 10 ^ 12 }
        ensures stored { OnOk result (IsSome (stored_at d q self.new)) }
        ensures others { (k r : ℕ) → (k ≡ d → r ≢ q) → stored_at k r self.new ≡ stored_at k r self.old }
        ensures again { IsSome (stored_at d q self.old) → self.new ≡ self.old }
        ensures refused { OnErr result (self.new ≡ self.old) }
    {
        if self.part(d, q).is_some() {
            return Ok(());
        }
        let part = MayTable::<P>::build_part(*self.stored.allocator(), d, q)?;
        self.stored.push(((d, q), part))?;
        Ok(())
    }

    /// The number of lists that the May element of degree d is made from, `P^(d div 2) · C(P+d-1, d)`,
    /// cut off at 10^15.
    pub fn candidates(d: u32) -> u64
        requires prime { IsTrue (served P) }
        requires low { d ≤ 60 }
        ensures { result ≡ cut_off (candidate_count P d) }
    {
        let mut count = binomial_up_to(P + d - 1, d, MOST_COUNT);
        for _pair in 0..d / 2 {
            count = MOST_COUNT.min(count * u64::from(P));
        }
        count
    }

    /// The May element of degree d, after Kaufmann and Medina-Mardones: the table reduction of the sum of
    /// tuples of powers of the cycle. At 2 it is the one list 1 2 1 .. of d + 2 places. Its boundary is T
    /// or N of the element of one degree less.
    pub fn build(alloc: Global, d: u32) -> Result<FormalSum<Surj>, AllocError>
        requires prime { IsTrue (served P) }
        requires low { d ≤ 60 }
        requires few { candidate_count P d ≤ 10 ^ 12 }
        ensures element { IfOk result (λ s. IsSameSum s (may_element P d)) }
        ensures boundary { IfOk result (λ s. (h : List ℕ → ℤ) → value_at (λ u. value_at h (surjection_boundary u)) s ≡ boundary_value P d h) }
        ensures at_two { IfOk result (λ s. (h : List ℕ → ℤ) → P ≡ 2 → value_at h s ≡ h (in_turn 1 2 (d + 2))) }
    {
        let whole = Wanted {
            p: P as u8,
            live_for: None,
        };
        wanted_sum(alloc, whole, d)
    }

    // The terms of the May element of degree d that have a cut live for q.
    fn build_part(alloc: Global, d: u32, q: u32) -> Result<FormalSum<Surj>, AllocError>
        requires prime { IsTrue (served P) }
        requires low { d ≤ 60 }
        requires small { q ≤ 15 }
        requires few { candidate_count P d ≤ 10 ^ 12 }
        ensures { IfOk result (λ s. IsSameSum s (live_part P d q)) }
    {
        let live = Wanted {
            p: P as u8,
            live_for: Some(q),
        };
        wanted_sum(alloc, live, d)
    }
}
