ghost use Rattle.std.specs.{Prelude.{◌≡◌, ℕ, ◌+◌, ◌-◌, ◌<◌, ◌≤◌, ◌^◌, List, [], length, map, slice_get, Some, IfOk, IsTrue}, List.AllZip};
ghost use Rattle.fp_field.specs.Served.{served};
ghost use Rattle.row_reduce.specs.Names.{AreTriangular};
ghost use Rattle.cohomology.specs.Names.{IsSubIndex, IsCanonicalCycle, IsRelativeCycle, classes_in, AreRelativeCoboundaries, IsCohomologyOf, IsCohomologyOfPair, IsCoboundaryFrom, coboundaries_in, TellCoboundaries};

use crate::classes::{Classes, degree_at};
use crate::walk::{Reached, nothing, start};
use complex_index::{Cochain, Indexed};
use row_reduce::{EchelonRow, echelon_of};
use std::alloc::{AllocError, Global};
use std::marker::Model;

/// A canonical coboundary.
#[derive(Drop)]
pub(crate) struct Coboundary<const P: u32> {
    /// The place of its pivot.
    pub pivot: u32,
    /// The coboundary.
    pub cochain: Cochain<P>,
    /// Its canonical primitive, one degree below.
    pub primitive: Cochain<P>,
}

/// The rows of the reduced echelon list of the coboundary rows of a degree, as coboundaries one degree up.
fn coboundaries_from<const P: u32>(
    alloc: Global,
    degree: u32,
    echelon: Vec<EchelonRow<P>>,
) -> Result<Vec<Coboundary<P>>, AllocError>
    requires { degree + 1 < 2 ^ 32 }
    ensures { IfOk result (λ v. AllZip (IsCoboundaryFrom degree) echelon.entry.items v.items) }
{
    let mut coboundaries = Vec::new(alloc);
    for row in echelon {
        let EchelonRow {
            pivot,
            row,
            combination,
        } = row;
        coboundaries.push(Coboundary {
            pivot,
            cochain: Cochain {
                degree: degree + 1,
                row,
            },
            primitive: Cochain {
                degree,
                row: combination,
            },
        })?;
    }
    Ok(coboundaries)
}

/// The canonical coboundaries one degree up, from what the walk of a degree has reached.
fn coboundaries_above<const P: u32>(
    alloc: Global,
    degree: u32,
    next: &Reached<P>,
) -> Result<Vec<Coboundary<P>>, AllocError>
    requires prime { IsTrue (served P) }
    requires inside { degree + 1 < 2 ^ 32 }
    requires stored { AreTriangular P (length next.now.pivots) next.now.stored.items next.now.pivots }
    ensures { IfOk result (λ v. (full sub : List (List (List ℕ))) → TellCoboundaries P full sub degree next.now.stored.items next.now.pivots → AreRelativeCoboundaries P full sub (degree + 1) v.items) }
{
    let echelon = echelon_of(alloc, next.stored.as_slice(), &next.pivots)?;
    coboundaries_from(alloc, degree, echelon)
}

/// The canonical data of a complex or of a pair: the canonical classes with their cycles, and the canonical coboundaries with
/// their canonical primitives.
#[derive(Drop)]
pub struct Cohomology<const P: u32> {
    // The classes of each degree.
    classes: Classes<P>,
    // The coboundaries of each degree.
    bounds: Vec<Vec<Coboundary<P>>>,
}

impl<const P: u32> Model for Cohomology<P> {
    ghost use Rattle.cohomology.specs.Data.{AreFewCoboundaries, CohomologyData};

    ghost Value = { CohomologyData P };

    ghost view = { λ c. record { light = c.classes; bounds = c.bounds.items } };

    ghost invariant = { λ c. AreFewCoboundaries c.bounds.items };
}

impl<const P: u32> Cohomology<P> {
    /// The canonical data of the complex with this index.
    pub fn of(alloc: Global, index: &Indexed) -> Result<Cohomology<P>, AllocError>
        requires { IsTrue (served P) }
        ensures { IfOk result (λ c. IsCohomologyOf P index.now c) }
    {
        let nothing = nothing(alloc)?;
        Cohomology::of_pair(alloc, index, &nothing)
    }

    /// The canonical data of a complex relative to a subcomplex, with these indexes.
    pub fn of_pair(
        alloc: Global,
        full: &Indexed,
        sub: &Indexed,
    ) -> Result<Cohomology<P>, AllocError>
        requires prime { IsTrue (served P) }
        requires pair { IsSubIndex full.now sub.now }
        ensures { IfOk result (λ c. IsCohomologyOfPair P full.now sub.now c) }
    {
        let mut degrees = Vec::new(alloc);
        let mut bounds = Vec::new(alloc);
        bounds.push(Vec::new(alloc))?;
        let mut reached = start(alloc, full)?;
        for degree in 0..full.degrees() {
            let (found, next) = degree_at(alloc, full, sub, degree, &reached)?;
            degrees.push(found)?;
            bounds.push(coboundaries_above(alloc, degree, &next)?)?;
            reached = next;
        }
        let classes = Classes { degrees };
        Ok(Cohomology { classes, bounds })
    }

    // The canonical classes with their cycles.
    pub(crate) fn light(&self) -> &Classes<P>
        ensures { result.now ≡ self.now.light }
    {
        &self.classes
    }

    // The canonical coboundaries of degree `n` with their primitives, none past the dimension.
    pub(crate) fn coboundaries_in(&self, n: u32) -> &[Coboundary<P>]
        ensures value { result.now ≡ coboundaries_in self.now n }
        ensures few { length result.now < 2 ^ 32 }
    {
        match self.bounds.get(n as usize) {
            Some(found) => found.as_slice(),
            None => &[],
        }
    }

    /// The dimension of the cohomology of degree `n`, 0 past the dimension of the complex.
    pub fn rank(&self, n: u32) -> u32
        ensures { result ≡ length (classes_in self.now.light n) }
    {
        self.light().rank(n)
    }

    /// The dimension of the coboundaries of degree `n`, 0 past the dimension of the complex.
    pub fn bounds(&self, n: u32) -> u32
        ensures { result ≡ length (coboundaries_in self.now n) }
    {
        self.coboundaries_in(n).len() as u32
    }

    /// The `i`-th canonical class of degree `n`, from 1 to the rank.
    pub fn class(&self, n: u32, i: u32) -> &Cochain<P>
        requires from_one { 1 ≤ i }
        requires inside { i ≤ length (classes_in self.now.light n) }
        ensures { slice_get (classes_in self.now.light n) (i - 1) ≡ Some result.now }
    {
        self.light().class(n, i)
    }

    /// The `t`-th canonical coboundary of degree `n`, from 0, in the order of the pivots.
    pub fn bound(&self, n: u32, t: u32) -> &Cochain<P>
        requires { t < length (coboundaries_in self.now n) }
        ensures { slice_get (map (λ b. b.cochain) (coboundaries_in self.now n)) t ≡ Some result.now }
    {
        &self.coboundaries_in(n)[t as usize].cochain
    }

    /// The canonical primitive of the `t`-th canonical coboundary of degree `n`, from 0, one degree below.
    pub fn below(&self, n: u32, t: u32) -> &Cochain<P>
        requires { t < length (coboundaries_in self.now n) }
        ensures { slice_get (map (λ b. b.primitive) (coboundaries_in self.now n)) t ≡ Some result.now }
    {
        &self.coboundaries_in(n)[t as usize].primitive
    }

    /// The canonical cycle of the `i`-th class of degree `n`, from 1 to the rank, as a chain. It pairs to 0 with every
    /// coboundary and with every other class, and to 1 with its own.
    pub fn cycle(&self, alloc: Global, n: u32, i: u32) -> Result<Cochain<P>, AllocError>
        requires prime { IsTrue (served P) }
        requires from_one { 1 ≤ i }
        requires inside { i ≤ length (classes_in self.now.light n) }
        ensures complex { IfOk result (λ y. (levels : List (List (List ℕ))) → IsCohomologyOf P levels self.now → IsCanonicalCycle P levels n (classes_in self.now.light n) (i - 1) y) }
        ensures pair { IfOk result (λ y. (full sub : List (List (List ℕ))) → IsCohomologyOfPair P full sub self.now → IsRelativeCycle P full sub n (classes_in self.now.light n) (i - 1) y) }
    {
        self.light().cycle(alloc, n, i)
    }
}
