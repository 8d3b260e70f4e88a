ghost use Rattle.std.specs.Prelude.{◌≡◌, ℕ, ◌+◌, ◌*◌, ◌%◌, ◌^◌, ◌<◌, ◌≤◌, length, reverse, List, Bool, [], OnOk, IfOk, IsTrue};
ghost use Rattle.linear_law.specs.Names.{Congruent, negated, Each};
ghost use Rattle.fp_field.specs.Served.{served};
ghost use Rattle.sparse_rows.specs.Rows.{IsBelow, IsRow, value_in};
ghost use Rattle.row_reduce.specs.Names.{Owns, AreOlder, AreTriangular, IsSolvedStored, AreEchelon, IsEchelonFrom, IsMadeFrom, cleared, combination_of, row_of};

use crate::expanding::expand;
use crate::{EchelonRow, Pivots, Stored};
use fp_field::Fp;
use sparse_rows::Row;
use std::alloc::{AllocError, Global};

/// Clears a row at the pivot of a reduced row, and does the same with the combinations.
#[tactic(auto, using(crate::proofs::EchelonLemmas::added_is))]
pub(crate) fn clear_one<const P: u32>(
    given: &Row<P>,
    reduced: &EchelonRow<P>,
    row: &mut Row<P>,
    combination: &mut Row<P>,
) -> Result<(), AllocError>
    requires { IsTrue (served P) }
    ensures is_row { OnOk result (IsRow P row.old → IsRow P row.new) }
    ensures row { OnOk result ((y : ℕ) → Congruent P (value_in row.new y) (value_in row.old y + negated P (value_in given.now reduced.now.pivot) * value_in reduced.now.row y)) }
    ensures combination { OnOk result ((x : ℕ) → Congruent P (value_in combination.new x) (value_in combination.old x + negated P (value_in given.now reduced.now.pivot) * value_in reduced.now.combination x)) }
{
    let by = given.at(reduced.pivot).neg();
    if by.value() != 0 {
        row.add_scaled(&reduced.row, by)?;
        combination.add_scaled(&reduced.combination, by)?;
    }
    Ok(())
}

/// Adds to a row, and to its combination, the reduced rows, each times minus the value of `given` at its
/// pivot.
pub fn clear<const P: u32>(
    given: &Row<P>,
    done: &[EchelonRow<P>],
    row: &mut Row<P>,
    combination: &mut Row<P>,
) -> Result<(), AllocError>
    requires { IsTrue (served P) }
    ensures is_row { OnOk result (IsRow P row.old → IsRow P row.new) }
    ensures row { OnOk result ((y : ℕ) → Congruent P (value_in row.new y) (cleared row_of done.now (value_in given.now) (value_in row.old) y)) }
    ensures combination { OnOk result ((x : ℕ) → Congruent P (value_in combination.new x) (cleared combination_of done.now (value_in given.now) (value_in combination.old) x)) }
{
    for reduced in done {
        clear_one(given, reduced, row, combination)?;
    }
    Ok(())
}

/// A multiple of a row.
pub fn multiple<const P: u32>(alloc: Global, row: &Row<P>, by: Fp<P>) -> Result<Row<P>, AllocError>
    requires { IsTrue (served P) }
    ensures sum { IfOk result (λ r. (k : ℕ) → value_in r k ≡ (by.entry * value_in row.now k) % P) }
    ensures row { IfOk result (λ r. IsRow P r) }
{
    let mut product = Row::new(alloc);
    product.add_scaled(row, by)?;
    Ok(product)
}

/// The canonical row of a stored one, where those of all later leads are done.
fn canonical_row<const P: u32>(
    alloc: Global,
    images: &[Stored<P>],
    stored: &Stored<P>,
    done: &[EchelonRow<P>],
) -> Result<EchelonRow<P>, AllocError>
    requires prime { IsTrue (served P) }
    requires older { AreOlder P images.now }
    requires fits { IsBelow (length images.now) stored.now.history }
    ensures { IfOk result (IsMadeFrom P images.now stored.now done.now) }
{
    let given = stored.row.to_row(alloc)?;
    let mut row = given.copy()?;
    let mut combination = expand(alloc, images, stored.source, &stored.history)?;
    clear(&given, done, &mut row, &mut combination)?;
    let by = stored.factor.neg();
    let canonical = multiple(alloc, &row, by)?;
    let source = multiple(alloc, &combination, by)?;
    Ok(EchelonRow {
        pivot: stored.place,
        row: canonical,
        combination: source,
    })
}

/// Makes the canonical row of the lead at a place, if it is one.
fn reduce_at<const P: u32>(
    alloc: Global,
    images: &[Stored<P>],
    pivots: &Pivots,
    at: usize,
    done: &mut Vec<EchelonRow<P>>,
) -> Result<(), AllocError>
    requires prime { IsTrue (served P) }
    requires older { AreOlder P images.now }
    requires owns { Owns (length pivots.now) images.now pivots.now }
    requires inside { at < length pivots.now }
    ensures { OnOk result ((width : ℕ) (rows : List (List (ℕ × ℕ))) (skip : List Bool) (solutions : List (List (ℕ × ℕ))) (solved : IsSolvedStored P width rows skip solutions pivots.now images.now) → AreEchelon P width rows skip solved.solved.kernel pivots.now (at + 1) (reverse done.old.items) → AreEchelon P width rows skip solved.solved.kernel pivots.now at (reverse done.new.items)) }
{
    if let Some(row) = pivots.row_of(at) {
        let stored = &images[row as usize];
        let canonical = canonical_row(alloc, images, stored, done.as_slice())?;
        done.push(canonical)?;
    }
    Ok(())
}

/// Makes the canonical rows, from the last lead to the first.
fn reduce_down<const P: u32>(
    alloc: Global,
    images: &[Stored<P>],
    pivots: &Pivots,
    done: &mut Vec<EchelonRow<P>>,
) -> Result<(), AllocError>
    requires prime { IsTrue (served P) }
    requires older { AreOlder P images.now }
    requires owns { Owns (length pivots.now) images.now pivots.now }
    requires empty { done.old.items ≡ [] }
    ensures { OnOk result ((width : ℕ) (rows : List (List (ℕ × ℕ))) (skip : List Bool) (solutions : List (List (ℕ × ℕ))) (solved : IsSolvedStored P width rows skip solutions pivots.now images.now) → AreEchelon P width rows skip solved.solved.kernel pivots.now 0 (reverse done.new.items)) }
{
    for count in 0..pivots.width() {
        reduce_at(alloc, images, pivots, pivots.width() - 1 - count, done)?;
    }
    Ok(())
}

/// The reduced echelon list of the span of triangular rows, as `kernel_and_stored` leaves them. Time grows
/// with the square of the rank, and with what is written. Each row comes with a combination of the walked rows
/// that gives it; it is 0 at each row that is the first of some combination that is zero.
pub fn echelon_of<const P: u32>(
    alloc: Global,
    stored: &[Stored<P>],
    pivots: &Pivots,
) -> Result<Vec<EchelonRow<P>>, AllocError>
    requires prime { IsTrue (served P) }
    requires triangular { AreTriangular P (length pivots.now) stored.now pivots.now }
    ensures { IfOk result (λ e. IsEchelonFrom P stored.now pivots.now e.items) }
{
    let mut echelon = Vec::new(alloc);
    reduce_down(alloc, stored, pivots, &mut echelon)?;
    echelon.reverse();
    Ok(echelon)
}
