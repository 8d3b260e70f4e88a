//! The word of the gaps of a cut, and its inversions.
ghost use Rattle.std.specs.Prelude.{◌≡◌, ℕ, ◌+◌, ◌≤◌, ◌^◌, [], ◌∷◌, ◌++◌, count_by, length, nat_lt, pos, take};
ghost use Rattle.signed_sum.specs.Names.{inversion_count, less, numbers_from, signed};
ghost use Rattle.surjection_law.specs.Names.{caesura_count};
ghost use Rattle.interval_cut_law.specs.Names.{IsCutFrom, gap_symbols, gap_word};

use crate::faces::{end_of, write_numbers};
use crate::signs::{comes_again, sign_of};

/// The most symbols that a word has: as many as there are caesuras and edges.
const SYMBOLS: usize = 510;

/// The number of caesuras.
pub(crate) fn count_caesuras(values: &[u8]) -> u32
    requires { length values.now ≤ 255 }
    ensures count { result ≡ caesura_count values.now }
    ensures small { result ≤ 255 }
{
    let mut count = 0;
    for i in 0..values.len() {
        count += comes_again(values, i);
    }
    count
}

/// Writes the gaps of one interval at `at`: its edges, and then its caesura if it is one. Answers where
/// they end.
fn write_interval(
    word: &mut [u32],
    at: usize,
    edge: u32,
    edges: usize,
    caesura: u32,
    caesuras: usize,
) -> usize
    requires room { at + (edges + caesuras) ≤ length word.old }
    requires edges { edge + edges ≤ 2 ^ 32 }
    requires caesuras { caesura + caesuras ≤ 2 ^ 32 }
    ensures next { result ≡ at + (edges + caesuras) }
    ensures written { take result word.new ≡ take at word.old ++ (numbers_from edge edges ++ numbers_from caesura caesuras) }
{
    write_numbers(word, at, edge, edges);
    write_numbers(word, at + edges, caesura, caesuras);
    at + edges + caesuras
}

/// Writes the gaps of face `k` at `at`, and answers where they end. The j-th caesura is the symbol j, and
/// the edge from place m - 1 to place m is the symbol m after all caesuras.
fn write_gaps(word: &mut [u32], at: usize, values: &[u8], inner: &[u32], top: u32, k: u8) -> usize
    requires cut { IsCutFrom values.now 0 (inner.now ++ top ∷ []) }
    requires short { length values.now ≤ 255 }
    requires low { top ≤ 255 }
    requires room { at + length (gap_symbols k (caesura_count values.now) 1 values.now 0 (inner.now ++ top ∷ [])) ≤ length word.old }
    ensures next { result ≡ at + length (gap_symbols k (caesura_count values.now) 1 values.now 0 (inner.now ++ top ∷ [])) }
    ensures written { take result word.new ≡ take at word.old ++ gap_symbols k (caesura_count values.now) 1 values.now 0 (inner.now ++ top ∷ []) }
{
    let all = count_caesuras(values);
    let mut next = at;
    let mut start = 0;
    let mut caesura = 1;
    for (i, value) in values.iter().enumerate() {
        let end = end_of(inner, top, i);
        let caesuras = comes_again(values, i);
        if *value == k {
            let edges = (end - start) as usize;
            next = write_interval(
                word,
                next,
                all + start + 1,
                edges,
                caesura,
                caesuras as usize,
            );
        }
        caesura += caesuras;
        start = end;
    }
    next
}

/// Writes the word of the gaps of the faces 1 to `most`, and answers where it ends.
fn write_word(word: &mut [u32], values: &[u8], inner: &[u32], top: u32, most: u8) -> usize
    requires cut { IsCutFrom values.now 0 (inner.now ++ top ∷ []) }
    requires short { length values.now ≤ 255 }
    requires low { top ≤ 255 }
    requires room { 510 ≤ length word.old }
    ensures next { result ≤ 510 }
    ensures written { take result word.new ≡ gap_word (numbers_from 1 most) values.now (inner.now ++ top ∷ []) }
{
    let mut next = 0;
    for k in 0..most {
        next = write_gaps(word, next, values, inner, top, k + 1);
    }
    next
}

/// How many of the later symbols are below a symbol.
fn count_below(later: &[u32], symbol: u32) -> usize
    ensures count { result ≡ count_by (λ other. nat_lt other symbol) later.now }
    ensures short { result ≤ length later.now }
{
    later.iter().filter(|other| **other < symbol).count()
}

/// The number of pairs of symbols in the wrong order.
fn count_inversions(word: &[u32]) -> u32
    requires { length word.now ≤ 510 }
    ensures { result ≡ inversion_count less word.now }
{
    let mut count = 0;
    for i in 0..word.len() {
        count += count_below(&word[i + 1..], word[i]) as u32;
    }
    count
}

/// The sign of a cut by the word of the gaps of its faces 1 to `most`.
pub(crate) fn cut_word_sign(values: &[u8], inner: &[u32], top: u32, most: u8) -> i8
    requires cut { IsCutFrom values.now 0 (inner.now ++ top ∷ []) }
    requires short { length values.now ≤ 255 }
    requires low { top ≤ 255 }
    ensures { result ≡ signed (inversion_count less (gap_word (numbers_from 1 most) values.now (inner.now ++ top ∷ []))) (pos 1) }
{
    let mut word = [0; SYMBOLS];
    let end = write_word(&mut word, values, inner, top, most);
    sign_of(count_inversions(&word[..end]))
}
