//! The lines of a text, one after another.
ghost use Rattle.std.specs.Prelude.{◌≡◌, ◌==◌, ◌+◌, ◌<◌, ℕ, [], ◌∷◌, IfOk, OnOk, OnSome, MatchOption, Some, None, length};
ghost use Rattle.report_text_law.specs.Names.{pieces};
ghost use Rattle.report_reader.specs.Names.{Follows, HasRoom, line_for, ReportRefused};

use crate::ReadRefused;
use report_lines::{is_line, line_of};
use report_text_law::Line;
use std::alloc::{AllocError, Global};
use std::marker::Model;

// The bytes before the first byte 10, and those behind it.
fn split(text: &[u8]) -> Option<(&[u8], &[u8])>
    ensures { MatchOption result (pieces text.entry.now ≡ text.entry.now ∷ []) (λ p. (pieces text.entry.now ≡ p.0.now ∷ pieces p.1.now) × (length p.1.now < length text.entry.now)) }
{
    match text.iter().position(|b| *b == b'\n') {
        Some(at) => Some((&text[..at], &text[at + 1..])),
        None => None,
    }
}

// The line that is spelled by these bytes, if it is well formed at the prime.
fn well_formed(alloc: Global, prime: u32, bytes: &[u8]) -> Result<Option<Line>, AllocError>
    ensures { IfOk result (λ l. l ≡ line_for prime bytes.now) }
{
    match line_of(alloc, bytes)? {
        Some(line) => {
            if is_line(prime, &line) {
                Ok(Some(line))
            } else {
                Ok(None)
            }
        }
        None => Ok(None),
    }
}

// The next line of a text, if it is well formed at the prime and has its byte 10, and the bytes behind it.
fn read_next(alloc: Global, prime: u32, text: &[u8]) -> Result<(Option<Line>, &[u8]), AllocError>
    ensures { IfOk result (λ p. (n : ℕ) → Follows prime (record { number = n; line = None; text = text.entry.now }) (record { number = n + 1; line = p.0; text = p.1.now })) }
{
    match split(text) {
        Some((bytes, behind)) => Ok((well_formed(alloc, prime, bytes)?, behind)),
        None => Ok((None, text)),
    }
}

/// A text with one of its lines: the number of the line, the line, if it is one, and the bytes behind it.
#[derive(Drop)]
pub struct Reader<'a> {
    number: u64,
    line: Option<Line>,
    text: &'a [u8],
}

impl<'a> Model for Reader<'a> {
    ghost use Rattle.std.specs.Prelude.{OnSome};
    ghost use Rattle.report_reader.specs.Reading.{HasRoom, Place};

    ghost Value = { Place };

    ghost view = { λ r. record { number = r.number; line = r.line; text = r.text.now } };

    ghost invariant = { λ r. OnSome r.line (HasRoom (record { number = r.number; line = r.line; text = r.text.now })) };
}

impl<'a> Reader<'a> {
    /// The text before its first line.
    pub fn new(text: &'a [u8]) -> Reader<'a>
        ensures { result ≡ record { number = 0; line = None; text = text.entry.now } }
    {
        Reader {
            number: 0,
            line: None,
            text,
        }
    }

    /// The refusal of this line.
    pub fn refused(&self) -> ReadRefused
        ensures { result ≡ ReportRefused self.now.number }
    {
        ReadRefused::ReportRefused { line: self.number }
    }

    /// The refusal of the line behind this one.
    pub fn next_refused(&self) -> ReadRefused
        requires { HasRoom self.now }
        ensures { result ≡ ReportRefused (self.now.number + 1) }
    {
        ReadRefused::ReportRefused {
            line: self.number + 1,
        }
    }

    /// Whether no bytes stand behind the line.
    pub fn is_last(&self) -> bool
        ensures { result ≡ (length self.now.text == 0) }
    {
        self.text.is_empty()
    }

    /// The line, which is taken out.
    pub fn take(&mut self) -> Option<Line>
        ensures line { result ≡ self.old.line }
        ensures left { self.new ≡ record { number = self.old.number; line = None; text = self.old.text } }
        ensures room { OnSome result (HasRoom self.old) }
    {
        self.line.take()
    }

    /// Puts a line back that was taken out.
    pub fn put_back(&mut self, line: Line)
        requires { HasRoom self.old }
        ensures { self.new ≡ record { number = self.old.number; line = Some line; text = self.old.text } }
    {
        self.line = Some(line);
    }

    /// Goes to the next line, which is none where it is not well formed at the prime or lacks its byte 10.
    pub fn next_line(&mut self, alloc: Global, prime: u32) -> Result<(), AllocError>
        requires { HasRoom self.old }
        ensures { OnOk result (Follows prime self.old self.new) }
    {
        let (line, text) = read_next(alloc, prime, self.text)?;
        self.number += 1;
        self.line = line;
        self.text = text;
        Ok(())
    }
}
