ghost use Rattle.std.specs.{Prelude.{◌≡◌, IfOk}, List.list_any, Str.bytes_eq};
ghost use Rattle.simplicial_law.specs.ListedSimplices.{simplices};
ghost use Rattle.simplex_set.specs.Levels.{AreLevelsOf};

use crate::open::OpenComplex;
use crate::{FlatLists, Simplex};
use std::alloc::{AllocError, Global};
use std::marker::Model;

/// A complex: its facets, in the order in which they came, and all its simplices by degree. Contracts
/// see it as the list of its facets.
#[derive(Debug, Drop)]
pub struct Complex {
    pub(crate) facets: Vec<Simplex>,
    pub(crate) levels: Vec<FlatLists>,
}

impl Model for Complex {
    ghost use Rattle.std.specs.Prelude.{List, ℕ};
    ghost use Rattle.simplicial_law.specs.ListedSimplices.{simplices};
    ghost use Rattle.simplex_set.specs.Levels.{AreLevelsOf};

    ghost Value = { List (List ℕ) };

    ghost view = { λ c. c.facets.items };

    ghost invariant = { λ c. AreLevelsOf (simplices c.facets.items) c.levels.items };
}

impl Complex {
    /// The complex with these facets.
    pub fn of(alloc: Global, facets: Vec<Simplex>) -> Result<Complex, AllocError>
        ensures { IfOk result (λ c. c ≡ facets.items) }
    {
        OpenComplex::of(alloc, facets)?.into_complex(alloc)
    }

    /// The facets, in the order in which they came.
    pub fn facets(&self) -> &[Simplex]
        ensures { result.now ≡ self.now }
    {
        &self.facets
    }

    /// The simplices by degree, in each degree in order and each once.
    pub fn levels(&self) -> &[FlatLists]
        ensures { AreLevelsOf (simplices self.now) result.now }
    {
        &self.levels
    }

    /// Whether these are the vertices of a simplex of the complex.
    pub fn contains(&self, vertices: &[u32]) -> bool
        ensures { result ≡ list_any (bytes_eq vertices.now) (simplices self.now) }
    {
        let size = vertices.len();
        if size == 0 || size > self.levels.len() {
            return false;
        }
        self.levels[size - 1].place_of(vertices, &[]).is_some()
    }
}
