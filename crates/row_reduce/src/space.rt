ghost use Rattle.std.specs.Prelude.{◌≡◌, ℕ, ◌+◌, ◌^◌, ◌<◌, length, slice_index_or, [], ◌++◌, OnOk, OnErr, IfOk, IsTrue};
ghost use Rattle.fp_field.specs.Served.{served};
ghost use Rattle.sparse_rows.specs.Rows.{IsFirst};
ghost use Rattle.row_reduce.specs.declared.EchelonRow as declared;
ghost use Rattle.row_reduce.specs.Names.{AreOwnFrom, IsEchelonOf, IsKernelOf, IsOwnRow, IsRemainder, Spanned};

use crate::EchelonRow;
use crate::echelon::{clear, multiple};
use crate::eliminating::Eliminated;
use fp_field::Fp;
use sparse_rows::Row;
use std::alloc::{AllocError, Global};
use std::marker::Model;

/// Given rows, and the reduced echelon list of what they span.
#[derive(Drop)]
pub struct Space<const P: u32> {
    given: Vec<Row<P>>,
    echelon: Vec<EchelonRow<P>>,
}

impl<const P: u32> Model for Space<P> {
    ghost Value = { Spanned P };

    ghost view = { λ s. record { given = s.given.items; echelon = s.echelon.items } };

    ghost invariant = { λ s. IsEchelonOf P s.given.items s.echelon.items };
}

impl<const P: u32> Space<P> {
    /// No rows.
    pub fn new(alloc: Global) -> Space<P>
        ensures given { result.given ≡ [] }
        ensures echelon { result.echelon ≡ [] }
    {
        Space {
            given: Vec::new(alloc),
            echelon: Vec::new(alloc),
        }
    }

    /// Adds rows to the given ones. The echelon is made anew from all of them. Without memory the space
    /// stays as it was.
    pub fn reduce_all(&mut self, alloc: Global, rows: &[Row<P>]) -> Result<(), AllocError>
        requires prime { IsTrue (served P) }
        requires few { length self.old.given + length rows.now < 2 ^ 32 }
        ensures given { OnOk result (self.new.given ≡ self.old.given ++ rows.now) }
        ensures unchanged { OnErr result (self.new ≡ self.old) }
    {
        let mut given = Vec::new(alloc);
        copy_onto(&mut given, self.given.as_slice())?;
        copy_onto(&mut given, rows)?;
        let echelon = Eliminated::of(alloc, given.as_slice())?.echelon;
        self.given = given;
        self.echelon = echelon;
        Ok(())
    }

    /// The number of echelon rows. They are the one reduced echelon list of the span.
    pub fn rank(&self) -> usize
        ensures rank { result ≡ length self.now.echelon }
        ensures echelon { IsEchelonOf P self.now.given self.now.echelon }
    {
        self.echelon.len()
    }

    /// The pivot of an echelon row.
    pub fn pivot(&self, at: usize) -> u32
        requires { at < length self.now.echelon }
        ensures { (e : declared.EchelonRow P) → result ≡ (slice_index_or self.now.echelon at e).pivot }
    {
        self.echelon[at].pivot
    }

    /// An echelon row.
    pub fn row(&self, at: usize) -> &Row<P>
        requires { at < length self.now.echelon }
        ensures { (e : declared.EchelonRow P) → result.now ≡ (slice_index_or self.now.echelon at e).row }
    {
        &self.echelon[at].row
    }

    /// Coefficients of given rows that give an echelon row.
    pub fn combination(&self, at: usize) -> &Row<P>
        requires { at < length self.now.echelon }
        ensures { (e : declared.EchelonRow P) → result.now ≡ (slice_index_or self.now.echelon at e).combination }
    {
        &self.echelon[at].combination
    }

    /// The rest of a row, which is 0 at each pivot, and a combination of given rows: the row is their sum.
    pub fn remainder(&self, alloc: Global, row: &Row<P>) -> Result<(Row<P>, Row<P>), AllocError>
        requires { IsTrue (served P) }
        ensures { IfOk result (λ r. IsRemainder P self.now.given self.now.echelon row.now r.0 r.1) }
    {
        let mut rest = row.copy()?;
        let mut combination = Row::new(alloc);
        clear(row, self.echelon.as_slice(), &mut rest, &mut combination)?;
        let combination = multiple(alloc, &combination, Fp::new(1).neg())?;
        Ok((rest, combination))
    }
}

/// Appends copies of rows.
fn copy_onto<const P: u32>(list: &mut Vec<Row<P>>, rows: &[Row<P>]) -> Result<(), AllocError>
    ensures { OnOk result (list.new.items ≡ list.old.items ++ rows.now) }
{
    for row in rows {
        let copy = row.copy()?;
        list.push(copy)?;
    }
    Ok(())
}

/// The least position of a row; 0 where it is empty.
fn lead_of<const P: u32>(row: &Row<P>) -> u32
    ensures { (k : ℕ) → IsFirst row.now k → result ≡ k }
{
    match row.lead() {
        Some(lead) => lead,
        None => 0,
    }
}

/// The echelon row that is the given row `at` itself.
fn own_row<const P: u32>(alloc: Global, row: &Row<P>, at: u32) -> Result<EchelonRow<P>, AllocError>
    requires { IsTrue (served P) }
    ensures { IfOk result (IsOwnRow P at row.now) }
{
    let own = row.copy()?;
    let combination = Row::from_pairs(alloc, &[(at, Fp::new(1))])?;
    Ok(EchelonRow {
        pivot: lead_of(row),
        row: own,
        combination,
    })
}

/// The given rows themselves, as echelon rows.
fn own_rows<const P: u32>(alloc: Global, given: &[Row<P>]) -> Result<Vec<EchelonRow<P>>, AllocError>
    requires prime { IsTrue (served P) }
    requires few { length given.now < 2 ^ 32 }
    ensures { IfOk result (λ v. AreOwnFrom P 0 given.now v.items) }
{
    let mut echelon = Vec::new(alloc);
    for row in given {
        let own = own_row(alloc, row, echelon.len() as u32)?;
        echelon.push(own)?;
    }
    Ok(echelon)
}

/// The space of all combinations of the rows that are zero. Its given rows are its echelon rows, in
/// order.
pub fn kernel<const P: u32>(alloc: Global, rows: &[Row<P>]) -> Result<Space<P>, AllocError>
    requires prime { IsTrue (served P) }
    requires few { length rows.now < 2 ^ 32 }
    ensures { IfOk result (λ s. IsKernelOf P rows.now s.given s.echelon) }
{
    let mut given = Eliminated::of(alloc, rows)?.relations;
    given.reverse();
    let echelon = own_rows(alloc, given.as_slice())?;
    Ok(Space { given, echelon })
}
