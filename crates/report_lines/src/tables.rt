ghost use Rattle.std.specs.Prelude.{◌≡◌, IfOk};
ghost use Rattle.complex_file.specs.Names.{texts};
ghost use Rattle.report_text_law.specs.Names.{guess_cartan, guess_column, guess_no, guess_operation, guess_pair, guess_product, guess_yes};

use crate::word::{number, numbers, op_of};
use comch_io::Listed;
use report_text_law::Line;
use std::alloc::{AllocError, Global};

/// The first line of a product.
pub fn guess_product(words: &[&[u8]]) -> Option<Line>
    ensures { result ≡ guess_product (texts words.now) }
{
    match words {
        [a, b] => Some(Line::Product {
            a: number(a),
            b: number(b),
        }),
        _ => None,
    }
}

// A column of a product, whose two classes are spelled by `i` and `j`. The first word behind them says `is`.
fn guess_pair(
    alloc: Global,
    i: &[u8],
    j: &[u8],
    words: &[&[u8]],
) -> Result<Option<Line>, AllocError>
    ensures { IfOk result (λ l. l ≡ guess_pair i.now j.now (texts words.now)) }
{
    match words {
        [_, values @ ..] => Ok(Some(Line::Pair {
            i: number(i),
            j: number(j),
            values: Listed::from(numbers(alloc, values)?),
        })),
        [] => Ok(None),
    }
}

/// A column: of a product, unless its second word says `is`. It fails for want of memory alone.
pub fn guess_column(alloc: Global, words: &[&[u8]]) -> Result<Option<Line>, AllocError>
    ensures { IfOk result (λ l. l ≡ guess_column (texts words.now)) }
{
    match words {
        [j, word, values @ ..] => {
            if *word == b"is".as_slice() {
                Ok(Some(Line::Column {
                    j: number(j),
                    values: Listed::from(numbers(alloc, values)?),
                }))
            } else {
                guess_pair(alloc, j, word, values)
            }
        }
        _ => Ok(None),
    }
}

/// The first line of an operation.
pub fn guess_operation(words: &[&[u8]]) -> Option<Line>
    ensures { result ≡ guess_operation (texts words.now) }
{
    match words {
        [word, k, _, from, _, to] => Some(Line::Operation {
            word: op_of(word),
            number: number(k),
            from: number(from),
            to: number(to),
        }),
        _ => None,
    }
}

fn guess_yes(words: &[&[u8]]) -> Option<Line>
    ensures { result ≡ guess_yes (texts words.now) }
{
    match words {
        [a, i, b, j, n, _] => Some(Line::CartanYes {
            a: number(a),
            i: number(i),
            b: number(b),
            j: number(j),
            n: number(n),
        }),
        _ => None,
    }
}

fn guess_no(words: &[&[u8]]) -> Option<Line>
    ensures { result ≡ guess_no (texts words.now) }
{
    match words {
        [a, i, b, j, n, _, value] => Some(Line::CartanNo {
            a: number(a),
            i: number(i),
            b: number(b),
            j: number(j),
            n: number(n),
            value: number(value),
        }),
        _ => None,
    }
}

/// A verdict: six words say `yes`, and seven `no`.
pub fn guess_cartan(words: &[&[u8]]) -> Option<Line>
    ensures { result ≡ guess_cartan (texts words.now) }
{
    if words.len() == 6 {
        guess_yes(words)
    } else {
        guess_no(words)
    }
}
