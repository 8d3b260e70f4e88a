//! Elimination on sparse rows, which takes memory for their entries alone.
ghost use Rattle.std.specs.{Prelude.{◌≡◌, ℕ, ◌+◌, ◌^◌, ◌<◌, ◌≤◌, length, slice_index_or, [], OnOk, IfOk, IsTrue}, List.AllZip};
ghost use Rattle.fp_field.specs.Served.{served};
ghost use Rattle.sparse_rows.specs.Rows.{IsFirst};
ghost use Rattle.row_reduce.specs.declared.EchelonRow as declared;
ghost use Rattle.row_reduce.specs.Names.{IsClearedBy, IsEliminated, IsMonic};

use crate::EchelonRow;
use crate::echelon::{clear, clear_one, multiple};
use fp_field::Fp;
use sparse_rows::Row;
use std::alloc::{AllocError, Global};

/// What an elimination of given rows, from the last to the first, has found.
#[derive(Drop)]
pub(crate) struct Eliminated<const P: u32> {
    /// The reduced echelon list of the span.
    pub(crate) echelon: Vec<EchelonRow<P>>,
    /// Combinations that are zero, from the last row that is the first of one to the first.
    pub(crate) relations: Vec<Row<P>>,
}

/// The multiple of a row that is 1 at its least place, and that multiple of its combination.
fn monic<const P: u32>(
    alloc: Global,
    pivot: u32,
    row: &Row<P>,
    combination: &Row<P>,
) -> Result<EchelonRow<P>, AllocError>
    requires prime { IsTrue (served P) }
    requires first { IsFirst row.now pivot }
    ensures { IfOk result (IsMonic P pivot row.now combination.now) }
{
    let by = row.at(pivot).inv();
    Ok(EchelonRow {
        pivot,
        row: multiple(alloc, row, by)?,
        combination: multiple(alloc, combination, by)?,
    })
}

/// An echelon row, cleared at the pivot of another.
fn cleared<const P: u32>(
    old: &EchelonRow<P>,
    newest: &EchelonRow<P>,
) -> Result<EchelonRow<P>, AllocError>
    requires { IsTrue (served P) }
    ensures { IfOk result (IsClearedBy P newest.now old.now) }
{
    let mut row = old.row.copy()?;
    let mut combination = old.combination.copy()?;
    clear_one(&old.row, newest, &mut row, &mut combination)?;
    Ok(EchelonRow {
        pivot: old.pivot,
        row,
        combination,
    })
}

/// Echelon rows, cleared at the pivot of another.
#[tactic(auto, using(crate::proofs::SumLemmas::zip_more))]
fn cleared_all<const P: u32>(
    alloc: Global,
    echelon: &[EchelonRow<P>],
    newest: &EchelonRow<P>,
) -> Result<Vec<EchelonRow<P>>, AllocError>
    requires { IsTrue (served P) }
    ensures { IfOk result (λ v. AllZip (IsClearedBy P newest.now) echelon.now v.items) }
{
    let mut list = Vec::with_capacity(alloc, echelon.len())?;
    for old in echelon {
        list.push(cleared(old, newest)?)?;
    }
    Ok(list)
}

/// The number of the first row with this pivot or a later one.
fn place_for<const P: u32>(echelon: &[EchelonRow<P>], pivot: u32) -> usize
    ensures inside { result ≤ length echelon.now }
    ensures before { (i : ℕ) (d : declared.EchelonRow P) → i < result → (slice_index_or echelon.now i d).pivot < pivot }
    ensures here { (d : declared.EchelonRow P) → result < length echelon.now → pivot ≤ (slice_index_or echelon.now result d).pivot }
{
    for at in 0..echelon.len() {
        if pivot <= echelon[at].pivot {
            return at;
        }
    }
    echelon.len()
}

impl<const P: u32> Eliminated<P> {
    /// Takes one more row: it is a combination of those behind it, or the echelon has one more row.
    fn step(&mut self, alloc: Global, rows: &[Row<P>], low: usize) -> Result<(), AllocError>
        requires prime { IsTrue (served P) }
        requires few { length rows.now < 2 ^ 32 }
        requires inside { low < length rows.now }
        requires eliminated { IsEliminated P rows.now (low + 1) self.old.echelon.items self.old.relations.items }
        ensures { OnOk result (IsEliminated P rows.now low self.new.echelon.items self.new.relations.items) }
    {
        let row = &rows[low];
        let mut rest = row.copy()?;
        let mut combination = Row::from_pairs(alloc, &[(low as u32, Fp::new(1))])?;
        clear(row, self.echelon.as_slice(), &mut rest, &mut combination)?;
        if let Some(pivot) = rest.lead() {
            let newest = monic(alloc, pivot, &rest, &combination)?;
            let mut echelon = cleared_all(alloc, self.echelon.as_slice(), &newest)?;
            let at = place_for(echelon.as_slice(), pivot);
            echelon.insert(at, newest)?;
            self.echelon = echelon;
        } else {
            self.relations.push(combination)?;
        }
        Ok(())
    }

    /// Eliminates the rows.
    pub(crate) fn of(alloc: Global, rows: &[Row<P>]) -> Result<Eliminated<P>, AllocError>
        requires prime { IsTrue (served P) }
        requires few { length rows.now < 2 ^ 32 }
        ensures { IfOk result (λ e. IsEliminated P rows.now 0 e.echelon.items e.relations.items) }
    {
        let mut found = Eliminated {
            echelon: Vec::new(alloc),
            relations: Vec::new(alloc),
        };
        for done in 0..rows.len() {
            found.step(alloc, rows, rows.len() - 1 - done)?;
        }
        Ok(found)
    }
}
