ghost use Rattle.std.specs.Prelude.{◌≡◌, IfOk};
ghost use Rattle.complex_file.specs.Names.{texts};
ghost use Rattle.report_text_law.specs.Names.{guess, guess_complex, guess_degree, guess_head, guess_induced, guess_last, guess_line, guess_map, guess_prime, guess_send, guess_table};

use crate::chain::{chain_of, simplex};
use crate::tables::{guess_cartan, guess_column, guess_operation, guess_product};
use crate::word::number;
use complex_file::Name;
use report_text_law::Line;
use std::alloc::{AllocError, Global};

fn guess_prime(words: &[&[u8]]) -> Option<Line>
    ensures { result ≡ guess_prime (texts words.now) }
{
    match words {
        [p] => Some(Line::Prime(number(p))),
        _ => None,
    }
}

fn guess_complex(alloc: Global, words: &[&[u8]]) -> Result<Option<Line>, AllocError>
    ensures { IfOk result (λ l. l ≡ guess_complex (texts words.now)) }
{
    match words {
        [name] => Ok(Some(Line::Complex(Name::new(alloc, name)?))),
        _ => Ok(None),
    }
}

fn guess_degree(words: &[&[u8]]) -> Option<Line>
    ensures { result ≡ guess_degree (texts words.now) }
{
    match words {
        [n, _, rank] => Some(Line::Degree {
            n: number(n),
            rank: number(rank),
        }),
        _ => None,
    }
}

fn guess_map(alloc: Global, words: &[&[u8]]) -> Result<Option<Line>, AllocError>
    ensures { IfOk result (λ l. l ≡ guess_map (texts words.now)) }
{
    match words {
        [name, from, to] => Ok(Some(Line::Map {
            name: Name::new(alloc, name)?,
            from: Name::new(alloc, from)?,
            to: Name::new(alloc, to)?,
        })),
        _ => Ok(None),
    }
}

fn guess_send(words: &[&[u8]]) -> Option<Line>
    ensures { result ≡ guess_send (texts words.now) }
{
    match words {
        [from, to] => Some(Line::Send {
            from: number(from),
            to: number(to),
        }),
        _ => None,
    }
}

fn guess_induced(words: &[&[u8]]) -> Option<Line>
    ensures { result ≡ guess_induced (texts words.now) }
{
    match words {
        [q] => Some(Line::Induced { q: number(q) }),
        _ => None,
    }
}

fn guess_last(word: &[u8], words: &[&[u8]]) -> Option<Line>
    ensures { result ≡ guess_last word.now (texts words.now) }
{
    if word == b"end".as_slice() {
        Some(Line::End)
    } else if word == b"prime".as_slice() {
        guess_prime(words)
    } else if word == b"comch".as_slice() {
        Some(Line::Heading)
    } else if word == b"done".as_slice() {
        Some(Line::Done)
    } else {
        None
    }
}

fn guess_head(alloc: Global, word: &[u8], words: &[&[u8]]) -> Result<Option<Line>, AllocError>
    ensures { IfOk result (λ l. l ≡ guess_head word.now (texts words.now)) }
{
    if word == b"degree".as_slice() {
        Ok(guess_degree(words))
    } else if word == b"send".as_slice() {
        Ok(guess_send(words))
    } else if word == b"induced".as_slice() {
        Ok(guess_induced(words))
    } else if word == b"complex".as_slice() {
        guess_complex(alloc, words)
    } else if word == b"map".as_slice() {
        guess_map(alloc, words)
    } else {
        Ok(guess_last(word, words))
    }
}

fn guess_table(alloc: Global, word: &[u8], words: &[&[u8]]) -> Result<Option<Line>, AllocError>
    ensures { IfOk result (λ l. l ≡ guess_table word.now (texts words.now)) }
{
    if word == b"column".as_slice() {
        guess_column(alloc, words)
    } else if word == b"cartan".as_slice() {
        Ok(guess_cartan(words))
    } else if word == b"product".as_slice() {
        Ok(guess_product(words))
    } else if word == b"operation".as_slice() {
        Ok(guess_operation(words))
    } else if word == b"facet".as_slice() {
        Ok(Some(Line::Facet(simplex(alloc, words)?)))
    } else {
        guess_head(alloc, word, words)
    }
}

fn guess_line(alloc: Global, word: &[u8], words: &[&[u8]]) -> Result<Option<Line>, AllocError>
    ensures { IfOk result (λ l. l ≡ guess_line word.now (texts words.now)) }
{
    if word == b"with".as_slice() {
        Ok(Some(Line::With(chain_of(alloc, words)?)))
    } else if word == b"below".as_slice() {
        Ok(Some(Line::Below(chain_of(alloc, words)?)))
    } else if word == b"class".as_slice() {
        Ok(Some(Line::Class(chain_of(alloc, words)?)))
    } else if word == b"cycle".as_slice() {
        Ok(Some(Line::Cycle(chain_of(alloc, words)?)))
    } else {
        guess_table(alloc, word, words)
    }
}

/// What a line of these words says, if it is spelled rightly. It fails for want of memory alone.
pub fn guess(alloc: Global, words: &[&[u8]]) -> Result<Option<Line>, AllocError>
    ensures { IfOk result (λ l. l ≡ guess (texts words.now)) }
{
    match words {
        [] => Ok(None),
        [word, more @ ..] => guess_line(alloc, word, more),
    }
}
