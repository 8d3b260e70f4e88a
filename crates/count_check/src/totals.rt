//! The counted terms.
ghost use Rattle.std.specs.{Prelude.{◌≡◌, ◌<◌, ◌+◌, ◌∷◌, ◌^◌, ℕ, List, [], IfOk, IsTrue, OnOk, is_some}, List.AllZip};
ghost use Rattle.linear_law.specs.Names.{Each, IsAscending};
ghost use Rattle.fp_field.specs.Served.{served};
ghost use Rattle.complex_index.specs.Names.{IsIndexOf};
ghost use Rattle.may_elements.specs.Stored.{stored_at};
ghost use Rattle.report_law.specs.Names.{simplex_counts, sizes_of};
ghost use Rattle.term_total.specs.Names.{uses};
ghost use Rattle.certificate_law.specs.Names.{Asks, finish};
ghost use Rattle.certificate_walk.specs.Names.{IsWalk};
ghost use Rattle.count_check.specs.Totals.{IsCountable, job_sizes};

use crate::rank::ranks;
use certificate_walk::Stop;
use comch_io::Listed;
use complex_index::Indexed;
use may_elements::terms::Terms;
use may_elements::{MayRefused, MayTable};
use report::{ComplexPart, Sizes};
use std::alloc::{AllocError, Global};
use term_total::total;

/// How many simplices each of the first degrees has, where the index is that of ascending facets.
pub fn simplex_numbers(alloc: Global, index: &Indexed, degrees: u32) -> Result<Vec<u32>, AllocError>
    ensures { IfOk result (λ v. (facets : List (List ℕ)) → IsIndexOf facets index.now → Each IsAscending facets → v.items ≡ simplex_counts facets degrees) }
{
    let mut numbers = Vec::new(alloc);
    for n in 0..degrees {
        numbers.push(index.count(n))?;
    }
    Ok(numbers)
}

/// The sizes of a complex.
fn sizes(alloc: Global, part: &ComplexPart, index: &Indexed) -> Result<Sizes, AllocError>
    requires { IsCountable index.now part.now }
    ensures { IfOk result (λ z. z ≡ sizes_of part.now.facets part.now) }
{
    let simplices = simplex_numbers(alloc, index, part.degrees.len() as u32)?;
    let ranks = ranks(alloc, part.degrees.as_slice())?;
    Ok(Sizes {
        simplices: Listed::from(simplices),
        ranks: Listed::from(ranks),
    })
}

/// The sizes of complexes.
fn all_sizes(
    alloc: Global,
    parts: &[ComplexPart],
    indexes: &[Indexed],
) -> Result<Vec<Sizes>, AllocError>
    requires { AllZip IsCountable indexes.now parts.now }
    ensures { IfOk result (λ v. v.items ≡ job_sizes parts.now) }
{
    let mut all = Vec::new(alloc);
    for (place, part) in parts.iter().enumerate() {
        all.push(sizes(alloc, part, &indexes[place])?)?;
    }
    Ok(all)
}

/// The walk of the last line, behind complexes with these indexes: whether the counted terms of their ranks are at most 10^12. If
/// they are, the table stores what they use of May elements.
pub fn total_fault<const P: u32>(
    alloc: Global,
    parts: &[ComplexPart],
    indexes: &[Indexed],
    table: &mut MayTable<P>,
    before: u64,
) -> Result<u64, Stop>
    requires prime { IsTrue (served P) }
    requires parts { AllZip IsCountable indexes.now parts.now }
    requires room { before + 1 < 2 ^ 64 }
    ensures walk { IsWalk (Asks P 5) before (finish parts.now ∷ []) result }
    ensures stored { OnOk result (Each (λ u. IsTrue (is_some (stored_at u.0 u.1 table.new))) (uses P (job_sizes parts.now))) }
{
    let sizes = all_sizes(alloc, parts, indexes)?;
    let mut terms = Terms::new(1_000_000_000_000);
    match total(alloc, &sizes, table, &mut terms) {
        Ok(()) => Ok(before + 1),
        Err(MayRefused::TooManyTerms(_)) => Err(Stop::Fails { line: before + 1 }),
        Err(MayRefused::OutOfMemory) => Err(Stop::OutOfMemory),
    }
}
