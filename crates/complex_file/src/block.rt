ghost use Rattle.std.specs.Prelude.{◌≡◌, [], IfOk};

use comch_io::Listed;
use simplex_set::Complex;
use std::alloc::{AllocError, Global};
use std::marker::Model;

/// The name of a block. Contracts see it as the list of its bytes.
#[derive(Debug, Drop)]
pub struct Name {
    bytes: Vec<u8>,
}

impl Model for Name {
    ghost use Rattle.std.specs.Prelude.{List, ℕ};

    ghost Value = { List ℕ };

    ghost view = { λ n. n.bytes.items };
}

impl Name {
    // No name.
    pub(crate) fn empty(alloc: Global) -> Name
        ensures { result ≡ [] }
    {
        Name {
            bytes: Vec::new(alloc),
        }
    }

    /// The name with these bytes, whatever they are.
    pub fn new(alloc: Global, bytes: &[u8]) -> Result<Name, AllocError>
        ensures { IfOk result (λ n. n ≡ bytes.now) }
    {
        Ok(Name {
            bytes: Vec::from_slice(alloc, bytes)?,
        })
    }

    /// Its bytes.
    pub fn bytes(&self) -> &[u8]
        ensures { result.now ≡ self.now }
    {
        &self.bytes
    }
}

/// A complex, given by its facets in the order of the file. Its simplices, the non-empty subsets of the facets, are kept
/// with them.
#[derive(Drop)]
pub struct ComplexBlock {
    pub name: Name,
    pub facets: Complex,
}

/// One vertex of a map's source, and the vertex of its target to which it is sent.
#[derive(Clone, Copy, Debug, PartialEq, Eq)]
pub struct Sent {
    pub from: u32,
    pub to: u32,
}

/// A map between two complexes of the job, which are given by their places, counted from 0.
#[derive(Drop)]
pub struct MapBlock {
    pub name: Name,
    pub from: u32,
    pub to: u32,
    pub sends: Listed<Sent>,
}
