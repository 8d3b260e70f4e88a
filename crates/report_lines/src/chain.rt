ghost use Rattle.std.specs.Prelude.{◌≡◌, ◌++◌, IfOk, OnOk};
ghost use Rattle.complex_file.specs.Names.{texts};
ghost use Rattle.report_text_law.specs.Names.{chain_of, numbers, simplex_of, term_of};

use crate::word::{number, numbers, pieces};
use comch_io::Listed;
use report::{Chain, Term};
use simplex_set::Simplex;
use std::alloc::{AllocError, Global};

/// The simplex with the vertices that words spell. It fails for want of memory alone.
pub fn simplex(alloc: Global, words: &[&[u8]]) -> Result<Simplex, AllocError>
    ensures { IfOk result (λ s. s ≡ numbers (texts words.now)) }
{
    Simplex::new(alloc, &numbers(alloc, words)?)
}

// The vertices that stand between full stops.
fn vertices_of(alloc: Global, word: &[u8]) -> Result<Vec<u32>, AllocError>
    ensures { IfOk result (λ v. v.items ≡ simplex_of word.now) }
{
    numbers(alloc, &pieces(alloc, b'.', word)?)
}

// Adds the term that a word spells: a coefficient, a colon and a simplex. A word that is not two pieces adds none.
fn add_term(alloc: Global, terms: &mut Vec<Term>, word: &[u8]) -> Result<(), AllocError>
    ensures { OnOk result (terms.new.items ≡ terms.old.items ++ term_of word.now) }
{
    let pieces = pieces(alloc, b':', word)?;
    if let [coefficient, vertices] = pieces.as_slice() {
        let vertices = vertices_of(alloc, vertices)?;
        terms.push(Term::new(alloc, number(coefficient), &vertices)?)?;
    }
    Ok(())
}

/// The chain of the terms that words spell. It fails for want of memory alone.
pub fn chain_of(alloc: Global, words: &[&[u8]]) -> Result<Chain, AllocError>
    ensures { IfOk result (λ c. c ≡ chain_of (texts words.now)) }
{
    let mut terms = Vec::with_capacity(alloc, words.len())?;
    for word in words {
        add_term(alloc, &mut terms, word)?;
    }
    Ok(Listed::from(terms))
}
