ghost use Rattle.std.specs.Prelude.{◌≡◌, IfOk};

use comch_io::Listed;
use smallvec::SmallVec;
use std::alloc::{AllocError, Global};
use std::marker::Model;

/// A simplex with its coefficient. Contracts see it as the pair of the two.
#[derive(Debug, Drop)]
pub struct Term {
    coefficient: u32,
    vertices: SmallVec<u32, 4>,
}

impl Model for Term {
    ghost use Rattle.std.specs.Prelude.{List, ℕ};

    ghost Value = { ℕ × List ℕ };

    ghost view = { λ t. (t.coefficient, t.vertices.items) };
}

impl Term {
    /// The term of the simplex with these vertices with this coefficient.
    ///
    /// Up to four vertices lie in the value itself. It fails for want of memory alone.
    pub fn new(alloc: Global, coefficient: u32, vertices: &[u32]) -> Result<Term, AllocError>
        ensures { IfOk result (λ t. t ≡ (coefficient, vertices.now)) }
    {
        Ok(Term {
            coefficient,
            vertices: SmallVec::from_slice(alloc, vertices)?,
        })
    }

    /// The coefficient, as a number from 0.
    pub fn coefficient(&self) -> u32
        ensures { result ≡ self.now.0 }
    {
        self.coefficient
    }

    /// The vertices of the simplex, in order.
    pub fn vertices(&self) -> &[u32]
        ensures { result.now ≡ self.now.1 }
    {
        self.vertices.as_slice()
    }
}

/// A chain or a cochain as the list of its terms.
pub type Chain = Listed<Term>;
