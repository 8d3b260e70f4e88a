ghost use Rattle.std.specs.{Prelude.{◌≡◌, ◌&&◌, nat_le, IfOk}, List.{list_all, slice_split}};
ghost use Rattle.complex_file.specs.{Names.{begins_with_letter, is_allowed, is_blank, is_digit, is_letter, is_name, is_name_byte, lines, words, texts}, Text.number};

use std::alloc::{AllocError, Global};

fn is_blank(b: u8) -> bool
    ensures { result ≡ is_blank b }
{
    b == 9 || b == 13 || b == 32
}

fn is_between(low: u8, b: u8, high: u8) -> bool
    ensures { result ≡ (nat_le low b && nat_le b high) }
{
    low <= b && b <= high
}

fn is_allowed(b: u8) -> bool
    ensures { result ≡ is_allowed b }
{
    b == 9 || b == 10 || b == 13 || is_between(32, b, 126)
}

fn is_letter(b: u8) -> bool
    ensures { result ≡ is_letter b }
{
    is_between(b'A', b, b'Z') || is_between(b'a', b, b'z')
}

fn is_digit(b: u8) -> bool
    ensures { result ≡ is_digit b }
{
    is_between(b'0', b, b'9')
}

fn is_name_byte(b: u8) -> bool
    ensures { result ≡ is_name_byte b }
{
    is_letter(b) || is_digit(b) || b == b'_' || b == b'-'
}

pub fn is_text(line: &[u8]) -> bool
    ensures { result ≡ list_all is_allowed line.now }
{
    line.iter().all(|b| is_allowed(*b))
}

pub fn lines_of(alloc: Global, text: &[u8]) -> Result<Vec<&[u8]>, AllocError>
    ensures { IfOk result (λ v. texts v.items ≡ lines text.now) }
{
    text.split(|b| *b == 10).collect(alloc)
}

// The pieces between blanks, also empty ones.
fn blank_pieces(alloc: Global, line: &[u8]) -> Result<Vec<&[u8]>, AllocError>
    ensures { IfOk result (λ v. texts v.items ≡ slice_split is_blank line.now) }
{
    line.split(|b| is_blank(*b)).collect(alloc)
}

pub fn words_of(alloc: Global, line: &[u8]) -> Result<Vec<&[u8]>, AllocError>
    ensures { IfOk result (λ v. texts v.items ≡ words line.now) }
{
    let pieces = blank_pieces(alloc, line)?;
    let mut found = Vec::new(alloc);
    for piece in &pieces {
        if !piece.is_empty() {
            found.push(*piece)?;
        }
    }
    Ok(found)
}

#[tactic(auto, unfolding(crate::specs::Text::number))]
pub fn number_of(word: &[u8]) -> Option<u32>
    ensures { result ≡ number word.now }
{
    if word.is_empty() || word.len() > 6 {
        return None;
    }
    let mut value = 0u32;
    for b in word {
        if !is_digit(*b) {
            return None;
        }
        value = value * 10 + u32::from(*b - b'0');
    }
    Some(value)
}

fn begins_with_letter(word: &[u8]) -> bool
    ensures { result ≡ begins_with_letter word.now }
{
    match word {
        [first, ..] => is_letter(*first),
        [] => false,
    }
}

fn are_name_bytes(word: &[u8]) -> bool
    ensures { result ≡ list_all is_name_byte word.now }
{
    word.iter().all(|b| is_name_byte(*b))
}

/// Whether the word is a name: 1 to 32 letters, digits, `_` and `-` that begin with a letter.
pub fn is_name(word: &[u8]) -> bool
    ensures { result ≡ is_name word.now }
{
    if word.len() > 32 || !begins_with_letter(word) {
        return false;
    }
    are_name_bytes(word)
}
