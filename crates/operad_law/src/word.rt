//! Words of letters a and b.
ghost use Rattle.std.specs.Prelude.{◌≡◌, ◌≤◌, ◌<◌, ◌^◌, ◌/◌, ◌%◌, ◌==◌, ℕ, ℤ, Bool, true, pos, List, OnOk, All, IsTrue, cond};
ghost use Rattle.std.specs.declared.cmp.Ordering.TheVariants.{Equal};
ghost use Rattle.std.proofs.Common.{lit≤};
ghost use Rattle.std.proofs.Math.Nat.{le_trans};
ghost use Rattle.signed_sum.specs.Names.{signed, weight_of, IsWord, letter_count, letter_degree, letters, mask_boundary, mask_degree, mask_turn, parity, word_degree};
ghost use Rattle.signed_sum.proofs.Names.{exact_words, boundary_degree as boundary_degree_law, boundary_twice as boundary_twice_law, boundary_turn as boundary_turn_law, boundary_valid as boundary_valid_law, boundary_weight as boundary_weight_law, degree_bound, no_boundary as no_boundary_law, turn_degree as turn_degree_law, turn_sign as turn_sign_law, turn_valid as turn_valid_law, turned_round as turned_round_law};
ghost use Rattle.operad_law.specs.Words.{with_place};

use crate::basis::{Narrow, SignedBasis};
use crate::cyclic::{CyclicModel, add_small};
use crate::formal_sum::FormalSum;
use std::alloc::{AllocError, Global};
use std::marker::Model;

/// A word of P letters, P from 1 to 31, each the letter a or the letter b, the boundary of a. Bit i of
/// the mask is set where letter i + 1 is b. The degree of a is odd where `odd` says so, and that of b
/// where it does not; the degree of the word is the number of its letters a.
#[derive(PartialEq, Eq, PartialOrd, Ord, Drop)]
pub struct Word<const P: u32> {
    mask: u32,
    odd: bool,
}

impl<const P: u32> Model for Word<P> {
    ghost use Rattle.std.specs.Prelude.{ℕ, Bool};
    ghost use Rattle.signed_sum.specs.Words.{IsWord};

    ghost Value = { ℕ × Bool };

    ghost view = { λ w. (w.mask, w.odd) };

    ghost inverse = { λ x. record { mask = x.0; odd = x.1 } };

    ghost invariant = { λ w. IsWord P (w.mask, w.odd) };
}

impl<const P: u32> Word<P> {
    /// The word of a mask, with the parity of the letter a.
    pub fn new(mask: u32, odd: bool) -> Self
        requires { IsWord P (mask, odd) }
        ensures { result ≡ (mask, odd) }
    {
        Word { mask, odd }
    }
}

impl<const P: u32> SignedBasis for Word<P> {
    ghost is_valid = { IsWord P };

    ghost degree = { mask_degree P };

    ghost boundary = { mask_boundary P };

    fn degree(&self) -> u32 {
        count_letters(self.mask, P, false)
    }

    fn boundary(&self, alloc: Global) -> Result<FormalSum<Self>, AllocError> {
        let mut sum = FormalSum::new(alloc);
        for place in 0..P {
            add_place(&mut sum, self, place)?;
        }
        Ok(sum)
    }

    fn copy(&self, _alloc: Global) -> Result<Self, AllocError> {
        Ok(Word {
            mask: self.mask,
            odd: self.odd,
        })
    }

    ghost equal_is_same = { exact_words };

    ghost boundary_valid = { boundary_valid_law P };

    ghost boundary_degree = { λ x v. boundary_degree_law P x };

    ghost no_boundary = { λ x v. no_boundary_law P x };

    ghost boundary_twice = { λ phi x v. boundary_twice_law P phi x };

    ghost boundary_weight = { λ x v. le_trans (boundary_weight_law P x v) (lit≤ tt) };
}

impl<const P: u32> Narrow for Word<P> {
    ghost narrow_boundary = { λ x v. le_trans (boundary_weight_law P x v) (lit≤ tt) };

    ghost narrow_degree = { λ x v. le_trans (degree_bound P x v) (lit≤ tt) };
}

impl<const P: u32> CyclicModel<P> for Word<P> {
    ghost fits = { λ x. true };

    ghost turn = { mask_turn P };

    fn fits(&self) -> bool {
        true
    }

    fn turn(&self, _alloc: Global) -> Result<(Self, i64), AllocError> {
        let mask = self.mask;
        let top = bit(P - 1);
        let last = mask / top;
        let before = mask % top;
        let others = count_letters(before, P - 1, !self.odd);
        let exchanges = counted(!self.odd, last == 1) * others;
        let turned = Word {
            mask: 2 * before + last,
            odd: self.odd,
        };
        Ok((turned, sign_of_odd(exchanges % 2 == 1)))
    }

    ghost turn_valid = { λ x v f. turn_valid_law P x v };

    ghost turn_fits = { λ x v f. f };

    ghost turn_degree = { λ x v f. turn_degree_law P x };

    ghost turn_sign = { λ x v f. turn_sign_law P x };

    ghost boundary_fits = { λ x v f k t h. f };

    ghost turned_round = { λ x v f. turned_round_law P x v };

    ghost boundary_turn = { λ phi x v f. boundary_turn_law P phi x };
}

// A power of two.
fn bit(place: u32) -> u32
    requires { place < 32 }
    ensures { result ≡ 2 ^ place }
{
    1 << place
}

// The sign of an odd or even number of exchanges.
fn sign_of_odd(odd: bool) -> i64
    ensures { result ≡ signed (parity odd) (pos 1) }
{
    if odd { -1 } else { 1 }
}

// 1 where the letter is the wanted one, else 0.
fn counted(wanted: bool, letter: bool) -> u32
    ensures { result ≡ letter_count wanted letter }
{
    if letter == wanted { 1 } else { 0 }
}

// How many of the first letters of a mask are the wanted one.
fn count_letters(mask: u32, len: u32, wanted: bool) -> u32
    requires { len ≤ 31 }
    ensures { result ≡ word_degree (letter_count wanted) (letters len mask) }
{
    let mut rest = mask;
    let mut count = 0;
    for _place in 0..len {
        count += counted(wanted, rest % 2 == 1);
        rest /= 2;
    }
    count
}

// Adds the term of a word's boundary in which the letter at a place, from 0, is changed from a to b.
fn add_place<const P: u32>(
    sum: &mut FormalSum<Word<P>>,
    word: &Word<P>,
    place: u32,
) -> Result<(), AllocError>
    requires within { place < P }
    requires room { weight_of sum.old ≤ place }
    ensures valid { IsWord P word.now }
    ensures placed { OnOk result (sum.new ≡ with_place place word.now sum.old) }
{
    let mask = word.mask;
    let step = bit(place);
    if mask / step % 2 == 1 {
        return Ok(());
    }
    let before = count_letters(mask, place, !word.odd);
    let changed = Word {
        mask: mask + step,
        odd: word.odd,
    };
    add_small(sum, changed, sign_of_odd(before % 2 == 1))
}
