ghost use Rattle.std.specs.{Prelude.{◌≡◌, ◌++◌, ◌∷◌, [], OnOk, flat_map, map}, Fmt.decimal};
ghost use Rattle.report_text_law.specs.Names.{behind, joined, term_word, chain_words, ended, op_word};

use comch_io::Bytes;
use report::{Chain, OpWord, Term};
use std::alloc::{AllocError, Global};

// A number in decimal digits. One digit takes no memory of its own.
pub fn add_number(alloc: Global, text: &mut Bytes, n: u64) -> Result<(), AllocError>
    ensures { OnOk result (text.new ≡ text.old ++ decimal n) }
{
    if n < 10 {
        return text.push(b'0' + n as u8);
    }
    let digits = n.to_string(alloc)?;
    text.extend(digits.as_bytes())
}

// A space and a number.
pub fn add_next(alloc: Global, text: &mut Bytes, n: u32) -> Result<(), AllocError>
    ensures { OnOk result (text.new ≡ text.old ++ 32 ∷ decimal n) }
{
    text.push(b' ')?;
    add_number(alloc, text, u64::from(n))
}

// Numbers, each behind a byte.
#[tactic(auto, using(crate::proofs::Flat::flat_more_map))]
pub fn add_numbers(
    alloc: Global,
    text: &mut Bytes,
    by: u8,
    numbers: &[u32],
) -> Result<(), AllocError>
    ensures { OnOk result (text.new ≡ text.old ++ flat_map (behind by) (map decimal numbers.now)) }
{
    for n in numbers {
        text.push(by)?;
        add_number(alloc, text, u64::from(*n))?;
    }
    Ok(())
}

fn add_vertices(alloc: Global, text: &mut Bytes, vertices: &[u32]) -> Result<(), AllocError>
    ensures { OnOk result (text.new ≡ text.old ++ joined 46 (map decimal vertices.now)) }
{
    match vertices {
        [] => Ok(()),
        [v, more @ ..] => {
            add_number(alloc, text, u64::from(*v))?;
            add_numbers(alloc, text, b'.', more)
        }
    }
}

fn add_term(alloc: Global, text: &mut Bytes, term: &Term) -> Result<(), AllocError>
    ensures { OnOk result (text.new ≡ text.old ++ term_word term.now) }
{
    add_number(alloc, text, u64::from(term.coefficient()))?;
    text.push(b':')?;
    add_vertices(alloc, text, term.vertices())
}

// Terms, each behind a space.
#[tactic(auto, using(crate::proofs::Flat::flat_more_map))]
fn add_terms(alloc: Global, text: &mut Bytes, terms: &[Term]) -> Result<(), AllocError>
    ensures { OnOk result (text.new ≡ text.old ++ flat_map (behind 32) (map term_word terms.now)) }
{
    for term in terms {
        text.push(b' ')?;
        add_term(alloc, text, term)?;
    }
    Ok(())
}

/// A line of one word and a chain.
pub fn add_chain(
    alloc: Global,
    text: &mut Bytes,
    first: &[u8],
    chain: &Chain,
) -> Result<(), AllocError>
    ensures { OnOk result (text.new ≡ text.old ++ ended (joined 32 (first.now ∷ chain_words chain.now))) }
{
    text.extend(first)?;
    match chain.as_slice() {
        [] => text.extend(b" 0\n"),
        terms => {
            add_terms(alloc, text, terms)?;
            text.push(b'\n')
        }
    }
}

/// The word of an operation.
pub fn add_op(text: &mut Bytes, word: OpWord) -> Result<(), AllocError>
    ensures { OnOk result (text.new ≡ text.old ++ op_word word) }
{
    match word {
        OpWord::Sq => text.extend(b"Sq"),
        OpWord::Power => text.extend(b"P"),
        OpWord::BocksteinPower => text.extend(b"bP"),
    }
}
