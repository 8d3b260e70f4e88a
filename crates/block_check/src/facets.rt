//! The facets of a complex.
ghost use Rattle.std.specs.Prelude.{◌≡◌, ◌<◌, ◌+◌, ◌^◌, ◌∷◌, [], ℕ, List, length, IfOk};
ghost use Rattle.certificate_law.specs.Names.{Asks, behind, facet_stands};
ghost use Rattle.certificate_walk.specs.Names.{IsWalk};
ghost use Rattle.block_check.specs.Blocks.{IsFacetWalk, walked};

use certificate_walk::Stop;
use complex_file::Simplex;
use simplex_set::{FacetRefused, OpenComplex};
use std::alloc::Global;

/// A complex with one more facet, behind `before` lines, if it has at most 16 vertices and the complex then has at most 100,000
/// simplices.
fn with_facet(
    alloc: Global,
    complex: OpenComplex,
    facet: &Simplex,
    before: u64,
) -> Result<OpenComplex, Stop>
    requires { before + 1 < 2 ^ 64 }
    ensures { IsFacetWalk before complex facet.now result }
{
    if facet.vertices().len() > 16 {
        return Err(Stop::Fails { line: before + 1 });
    }
    let copy = Simplex::new(alloc, facet.vertices())?;
    match complex.with_facet(alloc, copy, 100_000) {
        Ok(more) => Ok(more),
        Err(FacetRefused::TooManySimplices) => Err(Stop::Fails { line: before + 1 }),
        Err(FacetRefused::OutOfMemory) => Err(Stop::OutOfMemory),
    }
}

/// The walk of the facets of a complex, which are kept.
pub(crate) fn facets(alloc: Global, facets: &[Simplex], before: u64) -> Result<OpenComplex, Stop>
    requires { before + length facets.now < 2 ^ 64 }
    ensures walk { (p : ℕ) → IsWalk (Asks p 1) before (behind (λ fs f. facet_stands fs f ∷ []) [] facets.now) (walked (before + length facets.now) result) }
    ensures kept { IfOk result (λ c. c ≡ facets.now) }
{
    let mut complex = OpenComplex::new(alloc);
    for (place, facet) in facets.iter().enumerate() {
        complex = with_facet(alloc, complex, facet, before + place as u64)?;
    }
    Ok(complex)
}
