ghost use Rattle.std.specs.Prelude.{◌≡◌, ◌≢◌, ◌+◌, ◌<◌, ◌≤◌, ◌++◌, ◌∷◌, ◌⊎◌, [], length, map, OnOk, IsTrue, MatchResult};
ghost use Rattle.fp_field.specs.Served.{served};
ghost use Rattle.sparse_rows.specs.Rows.{IsBelow, IsRow};
ghost use Rattle.complex_index.specs.Names.{level};
ghost use Rattle.bockstein.specs.{Places.{IsBocksteinAt, RefusesBockstein, alternating, lift_at, IsQuotient, IsRemainder}, declared.cocycles.BocksteinRefused.TheVariants.OutOfMemory};

use complex_index::{Cochain, Indexed};
use fp_field::Fp;
use sparse_rows::Row;
use std::alloc::{AllocError, Global};

/// Why a cochain has no Bockstein.
#[derive(Clone, Copy, Debug)]
pub enum BocksteinRefused {
    OutOfMemory,
    /// Its coboundary is not zero: the place of the least simplex where it is not, and its value there.
    NotClosed { place: u32, value: u32 },
}

impl From<AllocError> for BocksteinRefused {
    ghost from_gives = { λ _ e. e ≡ OutOfMemory };

    fn from(_: AllocError) -> Self {
        BocksteinRefused::OutOfMemory
    }
}

/// The alternating sum, as a whole number, of the lift of a row at these places.
fn lifted_sum<const P: u32>(row: &Row<P>, places: &[u32]) -> i64
    requires { IsTrue (served P) }
    ensures { result ≡ alternating (map (lift_at P row.now) places.now) }
{
    let mut sum = 0;
    for k in 0..places.len() {
        sum = i64::from(row.at(places[places.len() - 1 - k]).value()) - sum;
    }
    sum
}

/// The remainder of a multiple of the prime divided by the prime, or the remainder of any other number.
fn divided<const P: u32>(sum: i64) -> Result<Fp<P>, Fp<P>>
    requires { IsTrue (served P) }
    ensures { MatchResult result (λ v. IsQuotient P sum v) (λ r. IsRemainder P sum r) }
{
    let rest = Fp::from_i64(sum);
    if !rest.is_zero() {
        return Err(rest);
    }
    Ok(Fp::from_i64(sum.div_euclid(i64::from(P))))
}

/// Appends a value at a place behind all others, if it is not 0.
fn add_value<const P: u32>(row: &mut Row<P>, place: u32, value: Fp<P>) -> Result<(), AllocError>
    requires { IsBelow place row.old }
    ensures { OnOk result (((value.entry ≡ 0) × (row.new ≡ row.old)) ⊎ ((value.entry ≢ 0) × (row.new ≡ row.old ++ (place, value.entry) ∷ []))) }
{
    if !value.is_zero() {
        row.push_last(place, value)?;
    }
    Ok(())
}

/// The Bockstein of a cocycle: on each simplex one degree up the signed sum over the boundary of the lift to the numbers from 0
/// to `P` - 1, divided by `P`, as a remainder. `NotClosed` comes exactly where the coboundary is not zero, with the least
/// simplex where it is not and its value there. Time is linear in the number of simplices one degree up, each times the
/// number of its faces.
pub fn bockstein<const P: u32>(
    alloc: Global,
    index: &Indexed,
    cochain: &Cochain<P>,
) -> Result<Cochain<P>, BocksteinRefused>
    requires prime { IsTrue (served P) }
    requires low { cochain.now.degree ≤ 255 }
    requires inside { IsBelow (length (level index.now cochain.now.degree)) cochain.now.row }
    ensures { MatchResult result (λ b. IsBocksteinAt index.now cochain.now b) (RefusesBockstein index.now cochain.now) }
{
    let degree = cochain.degree + 1;
    let mut row = Row::new(alloc);
    if degree >= index.degrees() {
        return Ok(Cochain { degree, row });
    }
    for place in 0..index.count(degree) {
        let sum = lifted_sum(&cochain.row, index.faces(degree, place));
        match divided::<P>(sum) {
            Ok(value) => add_value(&mut row, place, value)?,
            Err(rest) => {
                return Err(BocksteinRefused::NotClosed {
                    place,
                    value: rest.value(),
                });
            }
        }
    }
    Ok(Cochain { degree, row })
}
