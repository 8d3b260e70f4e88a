ghost use Rattle.std.specs.{Prelude.{◌≡◌, ◌≤◌, ◌<◌, ◌++◌, ◌∷◌, [], length, MatchResult, IfOk}, List.filter};
ghost use Rattle.simplicial_law.specs.ListedSimplices.{simplices};
ghost use Rattle.simplex_set.specs.{declared.open.FacetRefused.TheVariants.OutOfMemory, Refused.Refuses};

use crate::closed::add_facet;
use crate::levels::levels_of;
use crate::{Complex, Simplex};
use indexmap::IndexSet;
use std::alloc::{AllocError, AllocFailed, Global};
use std::marker::Model;

/// The facets of a complex that is being read, in the order in which they came, with the simplices of
/// the complex so far.
#[derive(Debug, Drop)]
pub struct OpenComplex {
    facets: Vec<Simplex>,
    found: IndexSet<Simplex>,
}

impl Model for OpenComplex {
    ghost use Rattle.std.specs.Prelude.{◌≡◌, List, ℕ};
    ghost use Rattle.simplicial_law.specs.ListedSimplices.{simplices};
    ghost use Rattle.simplex_set.specs.InOrder.{in_order};

    ghost Value = { List (List ℕ) };

    ghost view = { λ c. c.facets.items };

    ghost invariant = { λ c. in_order c.found.keys ≡ simplices c.facets.items };
}

/// Why a facet was not added.
#[derive(Clone, Copy, Debug)]
pub enum FacetRefused {
    OutOfMemory,
    /// With the facet the complex has more simplices than the limit.
    TooManySimplices,
}

impl From<AllocError> for FacetRefused {
    ghost from_gives = { λ _ e. e ≡ OutOfMemory };

    fn from(_: AllocError) -> Self {
        FacetRefused::OutOfMemory
    }
}

impl<T: Drop> From<AllocFailed<T>> for FacetRefused {
    ghost from_gives = { λ _ e. e ≡ OutOfMemory };

    fn from(_: AllocFailed<T>) -> Self {
        FacetRefused::OutOfMemory
    }
}

impl OpenComplex {
    /// The complex with no facet.
    pub fn new(alloc: Global) -> OpenComplex
        ensures { result ≡ [] }
    {
        OpenComplex {
            facets: Vec::new(alloc),
            found: IndexSet::new(alloc),
        }
    }

    // The complex with these facets.
    pub(crate) fn of(alloc: Global, facets: Vec<Simplex>) -> Result<OpenComplex, AllocError>
        ensures { IfOk result (λ c. c ≡ facets.items) }
    {
        let mut found = IndexSet::new(alloc);
        for facet in facets.as_slice() {
            add_facet(alloc, &mut found, facet)?;
        }
        Ok(OpenComplex { facets, found })
    }

    /// The complex with one more facet, or `TooManySimplices` exactly where it has more than `limit`
    /// simplices.
    pub fn with_facet(
        self,
        alloc: Global,
        facet: Simplex,
        limit: usize,
    ) -> Result<OpenComplex, FacetRefused>
        ensures { MatchResult result (λ c. (c ≡ self ++ facet ∷ []) × (length (simplices (self ++ facet ∷ [])) ≤ limit)) (λ e. Refuses limit (self ++ facet ∷ []) e) }
    {
        let OpenComplex {
            mut facets,
            mut found,
        } = self;
        add_facet(alloc, &mut found, &facet)?;
        if found.len() > limit {
            return Err(FacetRefused::TooManySimplices);
        }
        facets.push(facet)?;
        Ok(OpenComplex { facets, found })
    }

    /// The complex, with its simplices in order.
    pub fn into_complex(self, alloc: Global) -> Result<Complex, AllocError>
        ensures { IfOk result (λ c. c ≡ self) }
    {
        let OpenComplex { facets, found } = self;
        let levels = levels_of(alloc, &found)?;
        Ok(Complex { facets, levels })
    }
}
