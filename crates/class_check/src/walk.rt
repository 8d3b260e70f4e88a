//! The walk of the lines of a complex.
ghost use Rattle.std.specs.{Prelude.{◌≡◌, ◌↔◌, ◌<◌, ◌+◌, ◌^◌, ℕ, List, [], length, reverse, sum_by, true, IfOk, IsTrue}, List.list_all};
ghost use Rattle.linear_law.specs.Names.{Each, IsAscending};
ghost use Rattle.fp_field.specs.Served.{served};
ghost use Rattle.complex_index.specs.Names.{IsComplexIndex, IsIndexOf, level};
ghost use Rattle.report.specs.declared.complex.ComplexPart.{ComplexPart as Part};
ghost use Rattle.report_law.specs.Names.{below_in};
ghost use Rattle.report_text_law.specs.Names.{complex_lines as lines_of, degree_lines as lines_of_degree, degrees_from, is_chain, is_line};
ghost use Rattle.certificate_law.specs.Names.{Asks, complex_ends, complex_stated, degree_stated, numbered};
ghost use Rattle.certificate_walk.specs.Names.{complex_lines, degree_lines, IsWalk};
ghost use Rattle.class_check.specs.Questions.{AreLeads, AreReady, chain_lines, condition_of, others_of};

use crate::question::Question::{self, Below, Class, Cocycle};
use crate::question::passes;
use certificate_walk::{Stop, ask, operations_lines, products_lines};
use comch_io::Listed;
use complex_index::Indexed;
use report::{Chain, ComplexPart, DegreePart};
use std::alloc::Global;

/// The walk of chains that are listed of degree `n`.
fn chains_fault<const P: u32>(
    alloc: Global,
    index: &Indexed,
    n: u32,
    question: Question,
    chains: &Listed<Chain>,
    leads: &mut Vec<bool>,
    before: u64,
) -> Result<u64, Stop>
    requires prime { IsTrue (served P) }
    requires complex { IsComplexIndex index.now }
    requires listed { list_all (is_chain P) chains.now ≡ true }
    requires marks { length leads.old.items ≡ length (level index.now n) }
    requires room { before + length chains.now < 2 ^ 64 }
    ensures count { IfOk result (λ at. at ≡ before + length chains.now) }
    ensures len { length leads.new.items ≡ length leads.old.items }
    ensures walk { (c : Part) → IsIndexOf c.facets index.now → AreReady P question (chain_lines question c n [] chains.now) → AreLeads c.facets n P (level index.now n) (others_of P question c n []) leads.old.items → IsWalk (Asks P (condition_of question)) before (chain_lines question c n [] chains.now) result }
    ensures leads { IfOk result (λ _. (c : Part) → IsIndexOf c.facets index.now → AreReady P question (chain_lines question c n [] chains.now) → AreLeads c.facets n P (level index.now n) (others_of P question c n []) leads.old.items → AreLeads c.facets n P (level index.now n) (others_of P question c n (reverse chains.now)) leads.new.items) }
{
    let mut at = before;
    for chain in chains.as_slice() {
        let passed = passes::<P>(alloc, index, n, question, chain.as_slice(), leads)?;
        at = ask(passed, at)?;
    }
    Ok(at)
}

/// The walk of the lines of degree `n`.
fn degree_fault<const P: u32>(
    alloc: Global,
    index: &Indexed,
    n: u32,
    question: Question,
    degree: &DegreePart,
    before: u64,
) -> Result<u64, Stop>
    requires prime { IsTrue (served P) }
    requires complex { IsComplexIndex index.now }
    requires well_formed { list_all (is_line P) (lines_of_degree n degree.now) ≡ true }
    requires room { before + degree_lines degree.now < 2 ^ 64 }
    ensures lines { IfOk result (λ last. last ≡ before + degree_lines degree.now) }
    ensures walk { (c : Part) → IsIndexOf c.facets index.now → below_in c n ≡ degree.now.below → AreReady P question (degree_stated c n degree.now) → IsWalk (Asks P (condition_of question)) before (degree_stated c n degree.now) result }
{
    let mut leads = vec![in alloc; false; index.count(n) as usize]?;
    let at = before + 1;
    match question {
        Below => {
            let at = chains_fault::<P>(alloc, index, n, Below, &degree.below, &mut leads, at)?;
            Ok(at + degree.classes.len() as u64)
        }
        Cocycle => {
            let at = at + degree.below.len() as u64;
            chains_fault::<P>(alloc, index, n, Cocycle, &degree.classes, &mut leads, at)
        }
        Class => {
            let at = chains_fault::<P>(alloc, index, n, Below, &degree.below, &mut leads, at)?;
            chains_fault::<P>(alloc, index, n, Class, &degree.classes, &mut leads, at)
        }
    }
}

/// The walk of the lines of all degrees.
fn degrees_fault<const P: u32>(
    alloc: Global,
    index: &Indexed,
    question: Question,
    degrees: &[DegreePart],
    before: u64,
) -> Result<u64, Stop>
    requires prime { IsTrue (served P) }
    requires complex { IsComplexIndex index.now }
    requires well_formed { list_all (is_line P) (degrees_from 0 degrees.now) ≡ true }
    requires room { before + sum_by degree_lines degrees.now < 2 ^ 64 }
    ensures lines { IfOk result (λ last. last ≡ before + sum_by degree_lines degrees.now) }
    ensures walk { (c : Part) → IsIndexOf c.facets index.now → c.degrees ≡ degrees.now → AreReady P question (numbered (degree_stated c) 0 degrees.now) → IsWalk (Asks P (condition_of question)) before (numbered (degree_stated c) 0 degrees.now) result }
{
    let mut at = before;
    for (n, degree) in degrees.iter().enumerate() {
        at = degree_fault::<P>(alloc, index, n as u32, question, degree, at)?;
    }
    Ok(at)
}

/// Whether the last line of a complex is as asked: that its degrees are those in which it has simplices.
fn is_ended(question: Question, part: &ComplexPart, index: &Indexed) -> bool
    requires index { IsIndexOf part.now.facets index.now }
    requires ascending { Each IsAscending part.now.facets }
    ensures { (p : ℕ) → IsTrue result ↔ Asks p (condition_of question) (complex_ends part.now) }
{
    match question {
        Below => index.degrees() as usize == part.degrees.len(),
        _ => true,
    }
}

/// The walk of the lines of a complex, behind `before` others.
pub(crate) fn part_fault<const P: u32>(
    alloc: Global,
    question: Question,
    part: &ComplexPart,
    index: &Indexed,
    before: u64,
) -> Result<u64, Stop>
    requires prime { IsTrue (served P) }
    requires index { IsIndexOf part.now.facets index.now }
    requires well_formed { list_all (is_line P) (lines_of part.now) ≡ true }
    requires room { before + complex_lines part.now < 2 ^ 64 }
    requires ready { AreReady P question (numbered (degree_stated part.now) 0 part.now.degrees) }
    ensures { (earlier : List Part) → IsWalk (Asks P (condition_of question)) before (complex_stated earlier part.now) result }
{
    let at = before + 1 + part.facets.len() as u64;
    let at = degrees_fault::<P>(alloc, index, question, part.degrees.as_slice(), at)?;
    let blocks = products_lines(part.products.as_slice())
        + operations_lines(part.operations.as_slice());
    let last = at + blocks + 2 * part.cartans.len() as u64;
    ask(is_ended(question, part, index), last)
}
