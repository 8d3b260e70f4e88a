//! Words of different symbols of odd degree, and the sign of their rearrangement.
ghost use Rattle.std.specs.Prelude.{◌≡◌, ◌↔◌, ◌==◌, ℕ, IfOk, Some, Err};
ghost use Rattle.signed_sum.specs.Names.{occurs, count_before, inversion_count, rearrangement_sign, stands_before};
ghost use Rattle.operad_law.specs.Refusals.{repeated_place};
ghost use Rattle.operad_law.specs.Parity.{is_odd};

use std::alloc::Global;
use std::marker::Model;
use thiserror::Error;

/// Why a list of symbols is no word.
#[derive(Debug, Drop, Error)]
pub enum WordRefused {
    #[error("place {place}: the symbol stands at an earlier place")]
    Repeated { place: usize },
    #[error("out of memory")]
    OutOfMemory,
}

/// A word of different symbols, each of odd degree, as the list of its symbols.
#[derive(Drop)]
pub struct OddWord {
    symbols: Vec<u32>,
}

impl Model for OddWord {
    ghost use Rattle.std.specs.Prelude.{List, ℕ};
    ghost use Rattle.signed_sum.specs.Lists.{IsDistinct};

    ghost Value = { List ℕ };

    ghost view = { λ w. w.symbols.items };

    ghost invariant = { λ w. IsDistinct w.symbols.items };
}

impl OddWord {
    /// The word of these symbols. `Repeated` exactly where a symbol stands twice, with the first
    /// place, from 1, whose symbol stands at an earlier place.
    pub fn new(alloc: Global, symbols: &[u32]) -> Result<OddWord, WordRefused>
        ensures ok { IfOk result (λ w. w ≡ symbols.now) }
        ensures repeated { (place : ℕ) → (result ≡ Err (WordRefused.Repeated place)) ↔ (repeated_place symbols.now ≡ Some place) }
    {
        if let Some(place) = first_repeated(symbols) {
            return Err(WordRefused::Repeated { place });
        }
        match Vec::from_slice(alloc, symbols) {
            Ok(symbols) => Ok(OddWord { symbols }),
            Err(_) => Err(WordRefused::OutOfMemory),
        }
    }
}

/// The sign of the rearrangement of one word into another with the same symbols: -1 to the number of
/// pairs of symbols that stand in different order in the two. It takes no memory.
pub fn sign_of(from: &OddWord, to: &OddWord) -> i8
    ensures { result ≡ rearrangement_sign from.now to.now }
{
    if is_odd_rearrangement(&from.symbols, &to.symbols) {
        -1
    } else {
        1
    }
}

// Whether a symbol is in a list.
fn stands_in(symbols: &[u32], symbol: u32) -> bool
    ensures { result ≡ (occurs symbol symbols.now == 1) }
{
    symbols.contains(&symbol)
}

// The first place, from 1, whose symbol stands at an earlier place.
fn first_repeated(symbols: &[u32]) -> Option<usize>
    ensures { result ≡ repeated_place symbols.now }
{
    for i in 0..symbols.len() {
        if stands_in(&symbols[..i], symbols[i]) {
            return Some(i + 1);
        }
    }
    None
}

// Whether y is met before x.
fn comes_before(word: &[u32], y: u32, x: u32) -> bool
    ensures { result ≡ (stands_before word.now y x == 1) }
{
    for z in word {
        if *z == x {
            return false;
        }
        if *z == y {
            return true;
        }
    }
    false
}

// Whether an odd number of the other symbols come before x in the word.
fn is_odd_count(word: &[u32], x: u32, others: &[u32]) -> bool
    ensures { result ≡ is_odd (count_before (stands_before word.now) x others.now) }
{
    let mut odd = false;
    for y in others {
        if comes_before(word, *y, x) {
            odd = !odd;
        }
    }
    odd
}

// Whether an odd number of pairs stand in different order in the two words.
fn is_odd_rearrangement(from: &[u32], to: &[u32]) -> bool
    ensures { result ≡ is_odd (inversion_count (stands_before to.now) from.now) }
{
    let mut odd = false;
    for i in 0..from.len() {
        if is_odd_count(to, from[i], &from[i + 1..]) {
            odd = !odd;
        }
    }
    odd
}
