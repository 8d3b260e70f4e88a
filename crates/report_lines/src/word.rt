ghost use Rattle.std.specs.{Prelude.{◌≡◌, ◌==◌, IfOk}, List.slice_split};
ghost use Rattle.complex_file.specs.Names.{texts};
ghost use Rattle.report_text_law.specs.Names.{number, numbers, op_of, with_digit};

use report::OpWord;
use std::alloc::{AllocError, Global};

/// The pieces of a text between the bytes `by`, also empty ones. It fails for want of memory alone.
pub fn pieces(alloc: Global, by: u8, text: &[u8]) -> Result<Vec<&[u8]>, AllocError>
    ensures { IfOk result (λ v. texts v.items ≡ slice_split (λ b. b == by) text.now) }
{
    text.split(|b| *b == by).collect(alloc)
}

// The number behind one more digit, or 0 past the numbers below 2^32.
fn with_digit(n: u32, digit: u8) -> u32
    ensures { result ≡ with_digit n digit }
{
    let more = u64::from(n) * 10 + u64::from(digit.saturating_sub(b'0'));
    u32::try_from(more).unwrap_or(0)
}

/// The number that a word spells, if it spells one below 2^32.
pub fn number(word: &[u8]) -> u32
    ensures { result ≡ number word.now }
{
    let mut value = 0u32;
    for digit in word {
        value = with_digit(value, *digit);
    }
    value
}

/// The numbers that words spell. It fails for want of memory alone.
pub fn numbers(alloc: Global, words: &[&[u8]]) -> Result<Vec<u32>, AllocError>
    ensures { IfOk result (λ v. v.items ≡ numbers (texts words.now)) }
{
    words.iter().map(|word| number(word)).collect(alloc)
}

/// The kind of operation that a word names: each word but `Sq` and `P` is taken for `bP`.
pub fn op_of(word: &[u8]) -> OpWord
    ensures { result ≡ op_of word.now }
{
    if word == b"Sq".as_slice() {
        OpWord::Sq
    } else if word == b"P".as_slice() {
        OpWord::Power
    } else {
        OpWord::BocksteinPower
    }
}
