ghost use Rattle.std.specs.{Prelude.{◌≡◌, ◌==◌, ℕ, ◌+◌, ◌-◌, ◌≤◌, ◌<◌, List, length, IfOk, IsTrue, MatchOption, MatchResult}, List.list_all};
ghost use Rattle.linear_law.specs.Names.{Congruent};
ghost use Rattle.fp_field.specs.Served.{served};
ghost use Rattle.sparse_rows.specs.Rows.{IsBelow, IsRow, value_in};
ghost use Rattle.complex_index.specs.Names.{level};
ghost use Rattle.cohomology.specs.Names.{cochain_in, AreCoordinates, AreRelativeCoordinates, IsNoCoboundary, IsOpenAt, IsPrimitiveOf, IsRelativeIn, RefusesCoordinates, coboundary_at, primitives_sum, classes_in, IsCohomologyOf, IsCohomologyOfPair, OutOfMemory};

use crate::data::{Coboundary, Cohomology};
use complex_index::{Cochain, Indexed};
use fp_field::Fp;
use sparse_rows::Row;
use std::alloc::{AllocError, Global};

/// The least simplex at which the coboundary of a cochain is not zero, by its place, with the value.
fn open_at<const P: u32>(
    alloc: Global,
    index: &Indexed,
    cochain: &Cochain<P>,
) -> Result<Option<(u32, u32)>, AllocError>
    requires prime { IsTrue (served P) }
    requires low { cochain.now.degree ≤ 255 }
    requires inside { IsBelow (length (level index.now cochain.now.degree)) cochain.now.row }
    ensures { IfOk result (λ o. MatchOption o ((j : ℕ) → j < length (level index.now (cochain.now.degree + 1)) → Congruent P (coboundary_at P index.now cochain.now.degree cochain.now.row j) 0) (λ v. IsOpenAt P index.now cochain.now.degree cochain.now.row v.0 v.1)) }
{
    let coboundary = index.coboundary(alloc, cochain)?;
    match coboundary.row.lead() {
        None => Ok(None),
        Some(place) => Ok(Some((place, coboundary.row.at(place).value()))),
    }
}

/// The sum of the primitives of the coboundaries, each times the value of the given row at its pivot.
fn primitives<const P: u32>(
    alloc: Global,
    coboundaries: &[Coboundary<P>],
    given: &Row<P>,
) -> Result<Row<P>, AllocError>
    requires { IsTrue (served P) }
    ensures sum { IfOk result (λ r. (x : ℕ) → Congruent P (value_in r x) (primitives_sum coboundaries.now given.now x)) }
    ensures row { IfOk result (λ r. IsRow P r) }
{
    let mut sum = Row::new(alloc);
    for coboundary in coboundaries {
        sum.add_scaled(&coboundary.primitive.row, given.at(coboundary.pivot))?;
    }
    Ok(sum)
}

/// The coordinates of a cocycle for the canonical classes, and the canonical primitive of what is left
/// of the cocycle without them.
#[derive(Drop)]
pub struct Coordinates<const P: u32> {
    /// The coefficient of each class.
    pub values: Vec<Fp<P>>,
    /// The primitive, one degree below; in degree 0 it is zero, of degree 0.
    pub primitive: Cochain<P>,
}

/// Why a cochain has no coordinates.
#[derive(Clone, Copy, Debug)]
pub enum CoordinatesRefused {
    OutOfMemory,
    /// Its coboundary is not zero: the place of the least simplex where it is not, and its value there.
    NotClosed { place: u32, value: u32 },
}

impl From<AllocError> for CoordinatesRefused {
    ghost from_gives = { λ _ e. e ≡ OutOfMemory };

    fn from(_: AllocError) -> Self {
        CoordinatesRefused::OutOfMemory
    }
}

/// Whether all values are 0.
fn are_zero<const P: u32>(values: &[Fp<P>]) -> bool
    ensures { result ≡ list_all (λ v. v == 0) values.now }
{
    values.iter().all(
        |value: &Fp<P>| -> bool
            ensures { result ≡ (value.now == 0) }
        { value.is_zero() },
    )
}

impl<const P: u32> Cohomology<P> {
    /// The coordinates of a cochain that is a relative cocycle of the complex or pair that the data were made from,
    /// with the canonical primitive of the rest: what is left without the classes. It is not looked at whether the cochain is one.
    pub fn relative_coordinates(
        &self,
        alloc: Global,
        cocycle: &Cochain<P>,
    ) -> Result<Coordinates<P>, AllocError>
        requires { IsTrue (served P) }
        ensures { IfOk result (λ c. (full sub : List (List (List ℕ))) → IsCohomologyOfPair P full sub self.now → IsRelativeIn P full sub cocycle.now → AreRelativeCoordinates P full sub (classes_in self.now.light cocycle.now.degree) cocycle.now c.values.items c.primitive) }
    {
        Ok(Coordinates {
            values: self.light().values(alloc, cocycle)?,
            primitive: Cochain {
                degree: cocycle.degree.saturating_sub(1),
                row: primitives(alloc, self.coboundaries_in(cocycle.degree), &cocycle.row)?,
            },
        })
    }

    /// The coordinates of a cocycle for the canonical classes of its degree, with the canonical primitive
    /// of the rest: what is left without the classes. `NotClosed` comes exactly where the coboundary is not
    /// zero, with the least simplex where it is not and its value there. The index is the one that the data
    /// were made from. The primitive has its places in range of its degree. Past the dimension there are no
    /// classes, and the primitive is zero.
    pub fn coordinates(
        &self,
        alloc: Global,
        index: &Indexed,
        cochain: &Cochain<P>,
    ) -> Result<Coordinates<P>, CoordinatesRefused>
        requires prime { IsTrue (served P) }
        requires data { IsCohomologyOf P index.now self.now }
        requires low { cochain.now.degree ≤ 255 }
        requires inside { IsBelow (length (level index.now cochain.now.degree)) cochain.now.row }
        ensures { MatchResult result (λ c. AreCoordinates P index.now (classes_in self.now.light cochain.now.degree) cochain.now c.values.items c.primitive) (RefusesCoordinates index.now cochain.now) }
    {
        match open_at(alloc, index, cochain)? {
            Some((place, value)) => Err(CoordinatesRefused::NotClosed { place, value }),
            None => Ok(self.relative_coordinates(alloc, cochain)?),
        }
    }

    /// The canonical primitive of a coboundary: the one cochain below with this coboundary that vanishes at
    /// the pivots of the cocycles below. `None` exactly where the cochain is no coboundary. In degree 0 the
    /// one coboundary is zero, and its primitive is zero, of degree 0. The index is the one that the data
    /// were made from. The primitive has its places in range of its degree.
    pub fn primitive(
        &self,
        alloc: Global,
        index: &Indexed,
        cochain: &Cochain<P>,
    ) -> Result<Option<Cochain<P>>, AllocError>
        requires prime { IsTrue (served P) }
        requires data { IsCohomologyOf P index.now self.now }
        requires low { cochain.now.degree ≤ 255 }
        requires inside { IsBelow (length (level index.now cochain.now.degree)) cochain.now.row }
        ensures { IfOk result (λ o. MatchOption o (IsNoCoboundary P index.now cochain.now.degree (cochain_in index.now cochain.now.degree cochain.now.row)) (λ y. IsPrimitiveOf P index.now cochain.now.degree (cochain_in index.now cochain.now.degree cochain.now.row) y)) }
    {
        let found = match self.coordinates(alloc, index, cochain) {
            Ok(found) => found,
            Err(CoordinatesRefused::NotClosed { .. }) => return Ok(None),
            Err(CoordinatesRefused::OutOfMemory) => return Err(AllocError),
        };
        if are_zero(&found.values) {
            Ok(Some(found.primitive))
        } else {
            Ok(None)
        }
    }
}
