ghost use Rattle.std.{specs.Prelude.{◌≡◌, ◌<◌, [], length, get_or, IfOk}, proofs.Common.{ap, rules}, specs.Cmp.{Equal-is, partial_order_from_own_ties}, specs.Cmp.Rules.comparing, specs.Cmp.Lexicographic.slice_cmp, specs.Ordering.{nat_cmp, eq_by_cmp, as_partial_cmp}};
ghost use Rattle.simplicial_law.{specs.Names.faces, proofs.Names.exact};
ghost use Rattle.std.specs.Hash as fed;

use smallvec::SmallVec;
use std::alloc::{AllocError, Global};
use std::cmp::Ordering;
use std::hash::{Hash, Hasher};
use std::marker::Model;

/// How two lists of vertices stand in the order of simplices. Most differ in the first vertex already.
pub fn compare(left: &[u32], right: &[u32]) -> Ordering
    ensures { result ≡ slice_cmp nat_cmp left.now right.now }
{
    match (left, right) {
        ([first, ..], [second, ..]) if first != second => first.cmp(second),
        _ => left.cmp(right),
    }
}

/// A simplex: a list of vertices. The order of simplices is that of their lists.
#[derive(Debug, Drop)]
pub struct Simplex {
    vertices: SmallVec<u32, 8>,
}

impl Model for Simplex {
    ghost use Rattle.std.specs.Prelude.{List, ℕ};

    ghost Value = { List ℕ };

    ghost view = { λ s. s.vertices.items };
}

impl PartialEq for Simplex {
    ghost eq = { eq_by_cmp (slice_cmp nat_cmp) };

    ghost laws = { Prim.search (comparing, rules) };

    fn eq(&self, other: &Simplex) -> bool {
        self.cmp(other).is_eq()
    }
}

impl Eq for Simplex {
    ghost laws = { Prim.search (comparing, rules) };
}

impl PartialOrd for Simplex {
    ghost partial_cmp = { as_partial_cmp (slice_cmp nat_cmp) };

    ghost laws = { partial_order_from_own_ties (Prim.search (comparing, rules)) (Prim.search (comparing, rules)) };

    fn partial_cmp(&self, other: &Simplex) -> Option<Ordering> {
        Some(self.cmp(other))
    }
}

impl Ord for Simplex {
    ghost cmp = { slice_cmp nat_cmp };

    ghost total = { Prim.search (comparing, rules) };

    ghost matches_partial_cmp = { Prim.search (comparing, rules) };

    ghost matches_eq = { Prim.search (comparing, rules) };

    fn cmp(&self, other: &Simplex) -> Ordering {
        compare(self.vertices.as_slice(), other.vertices.as_slice())
    }
}

impl Hash for Simplex {
    ghost hash_input = { fed.slice fed.u32 };

    ghost respects_eq = { λ x y e. ap (fed.slice fed.u32) (exact x y ((Equal-is (slice_cmp nat_cmp x y)).0 e)) };

    fn hash<H: Hasher>(&self, state: &mut H) {
        self.vertices.hash(state);
    }
}

impl Simplex {
    /// The list with these vertices.
    ///
    /// Up to eight vertices lie in the value itself. It fails for want of memory alone.
    pub fn new(alloc: Global, vertices: &[u32]) -> Result<Simplex, AllocError>
        ensures { IfOk result (λ s. s ≡ vertices.now) }
    {
        Ok(Simplex {
            vertices: SmallVec::from_slice(alloc, vertices)?,
        })
    }

    /// The vertices, in order.
    pub fn vertices(&self) -> &[u32]
        ensures { result.now ≡ self.now }
    {
        self.vertices.as_slice()
    }

    /// The face without the vertex at place `at`, counted from 0.
    pub fn face(&self, alloc: Global, at: usize) -> Result<Simplex, AllocError>
        requires { at < length self.now }
        ensures { IfOk result (λ s. s ≡ get_or (faces self.now) at []) }
    {
        let all = self.vertices.as_slice();
        let mut vertices = SmallVec::from_slice(alloc, &all[..at])?;
        vertices.extend_from_slice(&all[at + 1..])?;
        Ok(Simplex { vertices })
    }
}
