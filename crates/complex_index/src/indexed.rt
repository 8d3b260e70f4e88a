ghost use Rattle.std.specs.{Prelude.{◌≡◌, ℕ, ◌+◌, ◌-◌, ◌<◌, ◌≤◌, ◌^◌, [], length, map, get_or, IfOk, IsTrue, MatchOption}, List.AllZip, List.Sorted.IsStrictlySortedBy};
ghost use Rattle.linear_law.specs.Names.{Among, Each, IsAscending};
ghost use Rattle.simplicial_law.specs.{Names.{simplex_cmp, IsCoboundaryRow}, ListedSimplices.simplices};
ghost use Rattle.fp_field.specs.Served.{served};
ghost use Rattle.sparse_rows.specs.Rows.{IsBelow, value_in};
ghost use Rattle.complex_index.specs.Names.{IsBoundaryOf, IsCoboundaryOf, ArePlaces, IsComplexIndex, IsIndexOf, level};

use crate::chains::{boundary_pairs, coboundary_pairs};
use crate::levels::{Level, levels_of};
use fp_field::Fp;
use simplex_set::{Complex, FlatLists};
use sparse_rows::Row;
use std::alloc::{AllocError, Global};
use std::marker::Model;

/// A cochain or a chain of one degree: a row of its values by place.
#[derive(Drop)]
pub struct Cochain<const P: u32> {
    pub degree: u32,
    pub row: Row<P>,
}

/// The simplices of a complex by degree and place: in each degree they stand in order, from place 0.
#[derive(Debug, Drop)]
pub struct Indexed {
    levels: Vec<Level>,
}

impl Model for Indexed {
    ghost use Rattle.std.specs.Prelude.{List, ℕ};
    ghost use Rattle.complex_index.specs.Levels.{IsIndex, lists};

    ghost Value = { List (List (List ℕ)) };

    ghost view = { λ x. lists x.levels.items };

    ghost invariant = { λ x. IsIndex x.levels.items };
}

impl Indexed {
    /// All simplices of the complex, which has facets of at most 16 ascending vertices.
    pub fn of(alloc: Global, complex: &Complex) -> Result<Indexed, AllocError>
        requires ascending { Each IsAscending complex.now }
        requires short { Each (λ f. length f ≤ 16) complex.now }
        requires few { length (simplices complex.now) < 2 ^ 32 }
        ensures { IfOk result (λ x. IsIndexOf complex.now x) }
    {
        let levels = levels_of(alloc, complex.levels())?;
        Ok(Indexed { levels })
    }

    /// The dimension plus 1, or 0 where there is no simplex.
    pub fn degrees(&self) -> u32
        ensures same { result ≡ length self.now }
        ensures complex { IsComplexIndex self.now }
        ensures few { result ≤ 16 }
    {
        self.levels.len() as u32
    }

    /// The number of simplices of degree `n`, 0 past the dimension.
    pub fn count(&self, n: u32) -> u32
        ensures { result ≡ length (level self.now n) }
    {
        if n as usize >= self.levels.len() {
            return 0;
        }
        self.levels[n as usize].simplices.len() as u32
    }

    // The simplices of degree n, none past the dimension.
    pub(crate) fn level(&self, n: u32) -> Option<&FlatLists>
        ensures same { MatchOption result (level self.now n ≡ []) (λ l. l.now ≡ level self.now n) }
        ensures ordered { IsStrictlySortedBy simplex_cmp (level self.now n) }
        ensures ascending { Each IsAscending (level self.now n) }
        ensures small { length (level self.now n) < 2 ^ 32 }
    {
        if n as usize >= self.levels.len() {
            return None;
        }
        Some(&self.levels[n as usize].simplices)
    }

    /// The vertices of the simplex of degree `n` at a place.
    pub fn simplex(&self, n: u32, place: u32) -> &[u32]
        requires { place < length (level self.now n) }
        ensures { result.now ≡ get_or (level self.now n) place [] }
    {
        self.levels[n as usize].simplices.get(place as usize)
    }

    /// The place of the simplex with these vertices among those of its degree; `None` exactly where it
    /// is no simplex of the complex.
    pub fn place_of(&self, vertices: &[u32]) -> Option<u32>
        ensures { MatchOption result ((n : ℕ) → Among vertices.now (level self.now n) → ⊥) (λ k. (k < length (level self.now (length vertices.now - 1))) × (get_or (level self.now (length vertices.now - 1)) k [] ≡ vertices.now)) }
    {
        let size = vertices.len();
        if size == 0 || size > self.levels.len() {
            return None;
        }
        match self.levels[size - 1].simplices.place_of(vertices, &[]) {
            Some(place) => Some(place as u32),
            None => None,
        }
    }

    /// The places of the faces of a simplex of degree `n` among those one degree below: of the face
    /// without the first vertex, the second, and so on.
    pub fn faces(&self, n: u32, place: u32) -> &[u32]
        requires positive { 0 < n }
        requires inside { place < length (level self.now n) }
        ensures { ArePlaces (level self.now (n - 1)) (get_or (level self.now n) place []) result.now }
    {
        self.levels[n as usize].faces.get(place as usize)
    }

    // The row of the coboundary of a row.
    fn coboundary_row<const P: u32>(
        &self,
        alloc: Global,
        degree: u32,
        row: &[(u32, Fp<P>)],
    ) -> Result<Row<P>, AllocError>
        requires prime { IsTrue (served P) }
        requires inside { IsBelow (length (level self.now degree)) row.now }
        ensures { IfOk result (λ r. IsCoboundaryOf P self.now degree row.now r) }
    {
        let above = degree as usize + 1;
        if above >= self.levels.len() {
            return Ok(Row::new(alloc));
        }
        let pairs = coboundary_pairs(alloc, &self.levels[above].cofaces, row)?;
        Row::from_pairs(alloc, &pairs)
    }

    // The row of the boundary of a row.
    fn boundary_row<const P: u32>(
        &self,
        alloc: Global,
        degree: u32,
        row: &[(u32, Fp<P>)],
    ) -> Result<Row<P>, AllocError>
        requires prime { IsTrue (served P) }
        requires positive { 0 < degree }
        requires inside { IsBelow (length (level self.now degree)) row.now }
        ensures { IfOk result (λ r. IsBoundaryOf P self.now degree row.now r) }
    {
        if degree as usize >= self.levels.len() {
            return Ok(Row::new(alloc));
        }
        let pairs = boundary_pairs(alloc, &self.levels[degree as usize].faces, row)?;
        Row::from_pairs(alloc, &pairs)
    }

    /// The coboundary of a cochain: its value at a simplex is the alternating sum of the values at the
    /// faces.
    pub fn coboundary<const P: u32>(
        &self,
        alloc: Global,
        cochain: &Cochain<P>,
    ) -> Result<Cochain<P>, AllocError>
        requires prime { IsTrue (served P) }
        requires low { cochain.now.degree ≤ 255 }
        requires inside { IsBelow (length (level self.now cochain.now.degree)) cochain.now.row }
        ensures degree { IfOk result (λ d. d.degree ≡ cochain.now.degree + 1) }
        ensures values { IfOk result (λ d. IsCoboundaryOf P self.now cochain.now.degree cochain.now.row d.row) }
    {
        let row = self.coboundary_row(alloc, cochain.degree, cochain.row.as_slice())?;
        Ok(Cochain {
            degree: cochain.degree + 1,
            row,
        })
    }

    /// The boundary of a chain of degree 1 or more: the alternating sums of the faces.
    pub fn boundary<const P: u32>(
        &self,
        alloc: Global,
        chain: &Cochain<P>,
    ) -> Result<Cochain<P>, AllocError>
        requires prime { IsTrue (served P) }
        requires positive { 0 < chain.now.degree }
        requires inside { IsBelow (length (level self.now chain.now.degree)) chain.now.row }
        ensures degree { IfOk result (λ d. d.degree ≡ chain.now.degree - 1) }
        ensures values { IfOk result (λ d. IsBoundaryOf P self.now chain.now.degree chain.now.row d.row) }
    {
        let row = self.boundary_row(alloc, chain.degree, chain.row.as_slice())?;
        Ok(Cochain {
            degree: chain.degree - 1,
            row,
        })
    }

    /// The coboundary from degree `n` to `n + 1` as a matrix: for each simplex of degree `n` the row of
    /// the coboundary of the cochain that is 1 there and 0 elsewhere.
    pub fn coboundary_rows<const P: u32>(
        &self,
        alloc: Global,
        n: u32,
    ) -> Result<Vec<Row<P>>, AllocError>
        requires { IsTrue (served P) }
        ensures rows { IfOk result (λ v. AllZip (IsCoboundaryRow P (level self.now (n + 1))) (map value_in v.items) (level self.now n)) }
        ensures inside { IfOk result (λ v. Each (IsBelow (length (level self.now (n + 1)))) v.items) }
    {
        let mut rows = Vec::with_capacity(alloc, self.count(n) as usize)?;
        for place in 0..self.count(n) {
            rows.push(self.coboundary_row(alloc, n, &[(place, Fp::new(1))])?)?;
        }
        Ok(rows)
    }
}
