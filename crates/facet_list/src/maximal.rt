//! The facets that lie in no other.
ghost use Rattle.std.specs.Prelude.{◌≡◌, ◌<◌, ℕ, List, length, IfOk, OnOk};
ghost use Rattle.linear_law.specs.Names.{Each, IsAscending};
ghost use Rattle.complex_index.specs.Names.{IsComplexIndex, IsIndexOf};
ghost use Rattle.report_law.specs.Names.{AreMaximalFacets};
ghost use Rattle.facet_list.specs.Covered.{AddsFree};

use crate::covered::covered;
use comch_io::Listed;
use complex_index::Indexed;
use simplex_set::Simplex;
use std::alloc::{AllocError, Global};
use std::collections::BTreeSet;

/// Adds the simplices of degree n that are faces of no other.
fn add_free(
    alloc: Global,
    index: &Indexed,
    n: u32,
    found: &mut BTreeSet<Simplex>,
) -> Result<(), AllocError>
    requires complex { IsComplexIndex index.now }
    requires low { n < 16 }
    ensures { OnOk result (AddsFree index.now n found.old.keys found.new.keys) }
{
    let covered = covered(alloc, index, n)?;
    for place in 0..index.count(n) {
        if !covered[place as usize] {
            found.insert(Simplex::new(alloc, index.simplex(n, place))?)?;
        }
    }
    Ok(())
}

/// The simplices of a set, in order.
fn listed(alloc: Global, found: BTreeSet<Simplex>) -> Result<Listed<Simplex>, AllocError>
    ensures { IfOk result (λ l. l ≡ found.keys) }
{
    let simplices: Vec<Simplex> = found.into_iter().collect(alloc)?;
    Ok(Listed::from(simplices))
}

/// The facets of the complex with this index that lie in no other, each once, ascending as lists: its simplices that
/// are no face of another. Its facets are ascending and not empty.
pub fn maximal_facets(alloc: Global, index: &Indexed) -> Result<Listed<Simplex>, AllocError>
    ensures { IfOk result (λ l. (facets : List (List ℕ)) → IsIndexOf facets index.now → Each IsAscending facets → Each (λ f. 0 < length f) facets → AreMaximalFacets facets l) }
{
    let mut found = BTreeSet::new(alloc);
    for n in 0..index.degrees() {
        add_free(alloc, index, n, &mut found)?;
    }
    listed(alloc, found)
}
