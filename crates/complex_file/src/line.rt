ghost use Rattle.std.specs.Prelude.{◌≡◌, IfOk, option_map};
ghost use Rattle.complex_file.specs.{Names.{begins_with_hash, is_skipped, line_of, line_of_complex, line_of_facet, line_of_few, line_of_four, line_of_three, line_of_two, numbers, send_line, send_of, line_seen, texts}, Text.number};

use crate::Sent;
use crate::text::{is_name, number_of};
use std::alloc::{AllocError, Global};

/// What a line says, by its words. A word that should be a number and is none leaves `None`.
#[derive(Drop)]
pub enum Line<'a> {
    Heading,
    Prime(Option<u32>),
    Complex(&'a [u8]),
    Facet(Option<Vec<u32>>),
    Map(&'a [u8], &'a [u8], &'a [u8]),
    Send(Option<Sent>),
    End,
    Other,
}

fn begins_with_hash(word: &[u8]) -> bool
    ensures { result ≡ begins_with_hash word.now }
{
    match word {
        [first, ..] => *first == 35,
        [] => false,
    }
}

pub fn is_skipped(words: &[&[u8]]) -> bool
    ensures { result ≡ is_skipped (texts words.now) }
{
    match words {
        [] => true,
        [word, ..] => begins_with_hash(word),
    }
}

// The numbers that all the words are.
fn numbers_of(alloc: Global, words: &[&[u8]]) -> Result<Option<Vec<u32>>, AllocError>
    ensures { IfOk result (λ o. option_map (λ v. v.items) o ≡ numbers (texts words.now)) }
{
    let mut found = Vec::new(alloc);
    for word in words {
        match number_of(word) {
            Some(n) => found.push(n)?,
            None => return Ok(None),
        }
    }
    Ok(Some(found))
}

fn facet_line<'a>(alloc: Global, vertices: &[&[u8]]) -> Result<Line<'a>, AllocError>
    ensures { IfOk result (λ l. line_seen l ≡ line_of_facet (texts vertices.now)) }
{
    if vertices.is_empty() {
        return Ok(Line::Other);
    }
    Ok(Line::Facet(numbers_of(alloc, vertices)?))
}

fn complex_line(name: &[u8]) -> Line<'_>
    ensures { line_seen result ≡ line_of_complex name.now }
{
    if is_name(name) {
        Line::Complex(name)
    } else {
        Line::Other
    }
}

fn line_of_two<'a>(word: &[u8], value: &'a [u8]) -> Line<'a>
    ensures { line_seen result ≡ line_of_two word.now value.now }
{
    if word == b"comch".as_slice() && value == b"1".as_slice() {
        Line::Heading
    } else if word == b"prime".as_slice() {
        Line::Prime(number_of(value))
    } else if word == b"complex".as_slice() {
        complex_line(value)
    } else {
        Line::Other
    }
}

fn send_line<'a>(from: &[u8], to: &[u8]) -> Line<'a>
    ensures { line_seen result ≡ send_line (send_of (number from.now) (number to.now)) }
{
    match (number_of(from), number_of(to)) {
        (Some(from), Some(to)) => Line::Send(Some(Sent { from, to })),
        _ => Line::Send(None),
    }
}

fn line_of_three<'a>(word: &[u8], from: &[u8], to: &[u8]) -> Line<'a>
    ensures { line_seen result ≡ line_of_three word.now from.now to.now }
{
    if word == b"send".as_slice() {
        send_line(from, to)
    } else {
        Line::Other
    }
}

fn line_of_four<'a>(word: &[u8], name: &'a [u8], from: &'a [u8], to: &'a [u8]) -> Line<'a>
    ensures { line_seen result ≡ line_of_four word.now name.now from.now to.now }
{
    if word == b"map".as_slice() && is_name(name) && is_name(from) && is_name(to) {
        Line::Map(name, from, to)
    } else {
        Line::Other
    }
}

fn line_of_few<'a>(word: &[u8], values: &[&'a [u8]]) -> Line<'a>
    ensures { line_seen result ≡ line_of_few word.now (texts values.entry.now) }
{
    match values {
        [] => {
            if word == b"end".as_slice() {
                Line::End
            } else {
                Line::Other
            }
        }
        [value] => line_of_two(word, value),
        [from, to] => line_of_three(word, from, to),
        [name, from, to] => line_of_four(word, name, from, to),
        [_, _, _, _, ..] => Line::Other,
    }
}

pub fn line_of<'a>(alloc: Global, words: &[&'a [u8]]) -> Result<Line<'a>, AllocError>
    ensures { IfOk result (λ l. line_seen l ≡ line_of (texts words.entry.now)) }
{
    match words {
        [] => Ok(Line::Other),
        [word, values @ ..] => {
            if *word == b"facet".as_slice() {
                facet_line(alloc, values)
            } else {
                Ok(line_of_few(word, values))
            }
        }
    }
}
