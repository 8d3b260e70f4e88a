//! What a certificate lists of the degrees of a complex: that the listed cochains have coboundaries with new least
//! simplices, that the classes are cocycles, and that they have new least simplices too.
#![tactic(auto)]

mod question;
mod walk;

ghost use Rattle.std.specs.{Prelude.{◌≡◌, ◌<◌, ◌+◌, ◌^◌, List, true, IsTrue}, List.list_all};
ghost use Rattle.linear_law.specs.Names.{Each};
ghost use Rattle.fp_field.specs.Served.{served};
ghost use Rattle.complex_index.specs.Names.{IsIndexOf};
ghost use Rattle.report.specs.declared.complex.ComplexPart.{ComplexPart as Listed};
ghost use Rattle.report_text_law.specs.Names.{complex_lines as lines_of, is_line};
ghost use Rattle.certificate_law.specs.Names.{Asks, complex_stated};
ghost use Rattle.certificate_walk.specs.Names.{complex_lines, IsWalk};

use crate::question::Question;
use crate::walk::part_fault;
use certificate_walk::Stop;
use complex_index::Indexed;
use report::ComplexPart;
use std::alloc::Global;

/// The walk of the lines of a complex, behind `before` others, for condition 2: each cochain under `below` stands on
/// simplices of one degree less, its coboundary has a least simplex, which is that of none before it, and the degrees
/// are those in which the complex has simplices.
pub fn coboundary_fault<const P: u32>(
    alloc: Global,
    part: &ComplexPart,
    index: &Indexed,
    before: u64,
) -> Result<u64, Stop>
    requires prime { IsTrue (served P) }
    requires index { IsIndexOf part.now.facets index.now }
    requires well_formed { list_all (is_line P) (lines_of part.now) ≡ true }
    requires room { before + complex_lines part.now < 2 ^ 64 }
    ensures { (earlier : List Listed) → IsWalk (Asks P 2) before (complex_stated earlier part.now) result }
{
    part_fault::<P>(alloc, Question::Below, part, index, before)
}

/// The walk for condition 3: each class stands on simplices of its degree, and is a cocycle.
pub fn cocycle_fault<const P: u32>(
    alloc: Global,
    part: &ComplexPart,
    index: &Indexed,
    before: u64,
) -> Result<u64, Stop>
    requires prime { IsTrue (served P) }
    requires index { IsIndexOf part.now.facets index.now }
    requires well_formed { list_all (is_line P) (lines_of part.now) ≡ true }
    requires room { before + complex_lines part.now < 2 ^ 64 }
    ensures { (earlier : List Listed) → IsWalk (Asks P 3) before (complex_stated earlier part.now) result }
{
    part_fault::<P>(alloc, Question::Cocycle, part, index, before)
}

/// The walk for condition 4: each class has a least simplex, which is that of no class before it, nor of a coboundary
/// of a cochain under `below`. Conditions 2 and 3 hold.
pub fn class_fault<const P: u32>(
    alloc: Global,
    part: &ComplexPart,
    index: &Indexed,
    before: u64,
) -> Result<u64, Stop>
    requires prime { IsTrue (served P) }
    requires index { IsIndexOf part.now.facets index.now }
    requires well_formed { list_all (is_line P) (lines_of part.now) ≡ true }
    requires room { before + complex_lines part.now < 2 ^ 64 }
    requires coboundaries { (earlier : List Listed) × Each (Asks P 2) (complex_stated earlier part.now) }
    requires cocycles { (earlier : List Listed) × Each (Asks P 3) (complex_stated earlier part.now) }
    ensures { (earlier : List Listed) → IsWalk (Asks P 4) before (complex_stated earlier part.now) result }
{
    part_fault::<P>(alloc, Question::Class, part, index, before)
}
