ghost use Rattle.std.specs.Prelude.{◌≡◌, IfOk, option_map};
ghost use Rattle.complex_file.specs.Names.{ascending, complex_fault, facet_of, first_facet_fault, with_facet, Gives};

use crate::fault::LineFault;
use crate::{BlockFault, ComplexBlock, InputKind};
use simplex_set::{FacetRefused, OpenComplex, Simplex};
use std::alloc::{AllocError, Global};
use std::collections::BTreeSet;
use std::mem;

// The items of a set, in order.
fn items_of(alloc: Global, set: &BTreeSet<u32>) -> Result<Vec<u32>, AllocError>
    ensures { IfOk result (λ v. v.items ≡ set.now.keys) }
{
    set.iter().copied().collect(alloc)
}

/// The simplex with these vertices in ascending order, each once.
pub fn ascending_of(alloc: Global, vertices: &[u32]) -> Result<Simplex, AllocError>
    ensures { IfOk result (λ s. s ≡ ascending vertices.now) }
{
    let mut set = BTreeSet::new(alloc);
    for v in vertices {
        set.insert(*v)?;
    }
    let ascending = items_of(alloc, &set)?;
    Simplex::new(alloc, &ascending)
}

/// The facet with these vertices, in ascending order, or the fault of its line.
pub fn facet_of(alloc: Global, vertices: Option<Vec<u32>>) -> Result<Simplex, LineFault>
    ensures { Gives (λ f. f) result (facet_of (option_map (λ v. v.items) vertices)) }
{
    let Some(vertices) = vertices else {
        return Err(LineFault::Kind(InputKind::BadNumber));
    };
    let simplex = ascending_of(alloc, &vertices)?;
    if simplex.vertices().len() < vertices.len() {
        return Err(LineFault::Kind(InputKind::RepeatedVertex));
    }
    Ok(simplex)
}

/// Adds a facet, or gives its fault.
pub fn add_facet(alloc: Global, complex: &mut OpenComplex, facet: Simplex) -> Result<(), LineFault>
    ensures { Gives (λ _. complex.new) result (with_facet complex.old facet) }
{
    if facet.vertices().len() > 16 {
        return Err(LineFault::Kind(InputKind::FacetTooWide));
    }
    let before = mem::replace(complex, OpenComplex::new(alloc));
    match before.with_facet(alloc, facet, 100_000) {
        Ok(more) => {
            *complex = more;
            Ok(())
        }
        Err(FacetRefused::OutOfMemory) => Err(LineFault::Memory),
        Err(FacetRefused::TooManySimplices) => Err(LineFault::Kind(InputKind::TooManySimplices)),
    }
}

/// The first facet of the complex that has more than 16 vertices, or with which the complex has more than 100,000
/// simplices, with that kind and its place. `None` exactly where there is none.
pub fn complex_fault(alloc: Global, block: &ComplexBlock) -> Result<Option<BlockFault>, AllocError>
    ensures { IfOk result (λ r. r ≡ complex_fault block.now.facets) }
{
    let mut complex = OpenComplex::new(alloc);
    first_fault(alloc, &mut complex, block.facets.facets())
}

// The first of the facets that is at fault behind those of the complex.
fn first_fault(
    alloc: Global,
    complex: &mut OpenComplex,
    facets: &[Simplex],
) -> Result<Option<BlockFault>, AllocError>
    ensures { IfOk result (λ r. r ≡ first_facet_fault complex.old 0 facets.now) }
{
    for (at, facet) in facets.iter().enumerate() {
        let copy = Simplex::new(alloc, facet.vertices())?;
        match add_facet(alloc, complex, copy) {
            Ok(()) => {}
            Err(LineFault::Memory) => return Err(AllocError),
            Err(LineFault::Kind(kind)) => {
                return Ok(Some(BlockFault {
                    kind,
                    at: at as u64,
                }));
            }
        }
    }
    Ok(None)
}
