ghost use Rattle.std.specs.{Prelude.{◌≡◌, ℕ, ◌+◌, ◌-◌, ◌<◌, ◌≤◌, ◌^◌, ◌++◌, ◌∷◌, ◌⊎◌, [], List, length, slice_get, Some, IfOk, OnOk, IsTrue}, List.AllZip};
ghost use Rattle.linear_law.specs.Names.{Each};
ghost use Rattle.fp_field.specs.Served.{served};
ghost use Rattle.sparse_rows.specs.Rows.{IsBelow, IsRow, value_in};
ghost use Rattle.cycle_table.specs.Tables.{column};
ghost use Rattle.cohomology.specs.Names.{IsPairIndex, IsSubIndex, IsReachedIn, AreClassesOf, AreClassesOfPair, AreDualClasses, IsColumnRow, IsLeadOf, IsRelativeCycle, IsSpread, classes_in, table_in, TellCoboundaries, AreRelativeValues};

use crate::walk::{Reached, nothing, start, step_at};
use complex_index::{Cochain, Indexed};
use cycle_table::{combine, cycles};
use fp_field::Fp;
use sparse_rows::Row;
use std::alloc::{AllocError, Global};
use std::marker::Model;

/// The classes of one degree, with cycles that are dual to them.
#[derive(Drop)]
pub(crate) struct DegreeClasses<const P: u32> {
    /// The canonical classes, in the order of their pivots.
    pub classes: Vec<Cochain<P>>,
    /// For each place the values of the cycles there.
    pub table: Vec<Row<P>>,
}

/// The least place of a class.
fn lead_of<const P: u32>(class: &Cochain<P>) -> u32
    ensures { IsLeadOf class.now.row result }
{
    match class.row.lead() {
        Some(lead) => lead,
        None => 0,
    }
}

/// The least place of each class.
#[tactic(auto, using(row_reduce::proofs::SumLemmas::zip_more))]
fn leads_of<const P: u32>(alloc: Global, classes: &[Cochain<P>]) -> Result<Vec<u32>, AllocError>
    ensures { IfOk result (λ v. AllZip (λ c s. IsLeadOf c.row s) classes.now v.items) }
{
    let mut leads = Vec::new(alloc);
    for class in classes {
        leads.push(lead_of(class))?;
    }
    Ok(leads)
}

/// The classes of one degree with their cycles, and what is then told of the next degree.
pub(crate) fn degree_at<const P: u32>(
    alloc: Global,
    full: &Indexed,
    sub: &Indexed,
    degree: u32,
    reached: &Reached<P>,
) -> Result<(DegreeClasses<P>, Reached<P>), AllocError>
    requires prime { IsTrue (served P) }
    requires pair { IsPairIndex full.now sub.now }
    requires inside { degree + 1 < 2 ^ 32 }
    requires reached { IsReachedIn P full.now sub.now degree reached.now.pivots reached.now.stored.items }
    ensures classes { IfOk result (λ s. AreDualClasses P full.now sub.now degree s.0.classes.items s.0.table.items) }
    ensures next { IfOk result (λ s. IsReachedIn P full.now sub.now (degree + 1) s.1.pivots s.1.stored.items) }
    ensures coboundaries { IfOk result (λ s. TellCoboundaries P full.now sub.now degree s.1.stored.items s.1.pivots) }
{
    let (classes, next) = step_at(alloc, full, sub, degree, &reached.pivots)?;
    let places = leads_of(alloc, classes.as_slice())?;
    let table = cycles(
        alloc,
        reached.stored.as_slice(),
        &reached.pivots,
        places.as_slice(),
    )?;
    Ok((DegreeClasses { classes, table }, next))
}

/// The canonical classes of a complex or of a pair, with cycles that are dual to them: they tell the coordinates of
/// cocycles. No coboundary is reduced.
#[derive(Drop)]
pub struct Classes<const P: u32> {
    // The classes of each degree, from 0 to the dimension.
    pub(crate) degrees: Vec<DegreeClasses<P>>,
}

impl<const P: u32> Model for Classes<P> {
    ghost use Rattle.std.specs.Prelude.{List};
    ghost use Rattle.cohomology.specs.declared.classes.DegreeClasses.{DegreeClasses};
    ghost use Rattle.cohomology.specs.Cycles.{AreFewClasses};

    ghost Value = { List (DegreeClasses P) };

    ghost view = { λ c. c.degrees.items };

    ghost invariant = { λ c. AreFewClasses c.degrees.items };
}

/// The values of a row at the first positions.
fn spread<const P: u32>(alloc: Global, row: &Row<P>, count: u32) -> Result<Vec<Fp<P>>, AllocError>
    requires { IsTrue (served P) }
    ensures { IfOk result (λ v. IsSpread row.now count v.items) }
{
    let mut values = Vec::new(alloc);
    for i in 0..count {
        values.push(row.at(i))?;
    }
    Ok(values)
}

/// Appends a value at a place, if it is not 0.
fn put_nonzero<const P: u32>(
    pairs: &mut Vec<(u32, Fp<P>)>,
    place: u32,
    value: Fp<P>,
) -> Result<(), AllocError>
    ensures { OnOk result (((value.entry ≡ 0) × (pairs.new.items ≡ pairs.old.items)) ⊎ (pairs.new.items ≡ pairs.old.items ++ ((place, value.entry) ∷ []))) }
{
    if !value.is_zero() {
        pairs.push((place, value))?;
    }
    Ok(())
}

/// A column of a table: the places at which it is not 0, with the values.
fn column_pairs<const P: u32>(
    alloc: Global,
    table: &[Row<P>],
    i: u32,
) -> Result<Vec<(u32, Fp<P>)>, AllocError>
    requires prime { IsTrue (served P) }
    requires few { length table.now < 2 ^ 32 }
    ensures { IfOk result (λ v. IsColumnRow table.now i (length table.now) v.items) }
{
    let mut pairs = Vec::new(alloc);
    for at in 0..table.len() {
        put_nonzero(&mut pairs, at as u32, table[at].at(i))?;
    }
    Ok(pairs)
}

impl<const P: u32> Classes<P> {
    /// The classes of the complex with this index.
    pub fn of(alloc: Global, index: &Indexed) -> Result<Classes<P>, AllocError>
        requires { IsTrue (served P) }
        ensures { IfOk result (λ c. AreClassesOf P index.now c) }
    {
        let nothing = nothing(alloc)?;
        Classes::of_pair(alloc, index, &nothing)
    }

    /// The relative classes of a complex and a subcomplex, with these indexes.
    pub fn of_pair(alloc: Global, full: &Indexed, sub: &Indexed) -> Result<Classes<P>, AllocError>
        requires prime { IsTrue (served P) }
        requires pair { IsSubIndex full.now sub.now }
        ensures { IfOk result (λ c. AreClassesOfPair P full.now sub.now c) }
    {
        let mut degrees = Vec::new(alloc);
        let mut reached = start(alloc, full)?;
        for degree in 0..full.degrees() {
            let (found, next) = degree_at(alloc, full, sub, degree, &reached)?;
            degrees.push(found)?;
            reached = next;
        }
        Ok(Classes { degrees })
    }

    // The canonical classes of degree `n`, none past the dimension.
    fn classes_in(&self, n: u32) -> &[Cochain<P>]
        ensures value { result.now ≡ classes_in self.now n }
        ensures few { length result.now < 2 ^ 32 }
    {
        match self.degrees.get(n as usize) {
            Some(found) => found.classes.as_slice(),
            None => &[],
        }
    }

    // The table of the cycles of degree `n`, empty past the dimension.
    fn table_in(&self, n: u32) -> &[Row<P>]
        ensures value { result.now ≡ table_in self.now n }
        ensures few { length result.now < 2 ^ 32 }
    {
        match self.degrees.get(n as usize) {
            Some(found) => found.table.as_slice(),
            None => &[],
        }
    }

    /// The dimension of the cohomology of degree `n`, 0 past the dimension of the complex.
    pub fn rank(&self, n: u32) -> u32
        ensures { result ≡ length (classes_in self.now n) }
    {
        self.classes_in(n).len() as u32
    }

    /// The `i`-th canonical class of degree `n`, from 1 to the rank.
    pub fn class(&self, n: u32, i: u32) -> &Cochain<P>
        requires from_one { 1 ≤ i }
        requires inside { i ≤ length (classes_in self.now n) }
        ensures { slice_get (classes_in self.now n) (i - 1) ≡ Some result.now }
    {
        &self.classes_in(n)[i as usize - 1]
    }

    /// The coordinates of a cocycle for the canonical classes of its degree: what it pairs to with their cycles. Of any
    /// other cochain these pairings as well. Time is linear in the entries of the cochain, each times the number of cycles
    /// that are not 0 at its place.
    pub fn values(&self, alloc: Global, cochain: &Cochain<P>) -> Result<Vec<Fp<P>>, AllocError>
        requires { IsTrue (served P) }
        ensures { IfOk result (λ v. (full sub : List (List (List ℕ))) → AreClassesOfPair P full sub self.now → AreRelativeValues P full sub (classes_in self.now cochain.now.degree) cochain.now v.items) }
    {
        let sum = combine(alloc, self.table_in(cochain.degree), cochain.row.as_slice())?;
        spread(alloc, &sum, self.rank(cochain.degree))
    }

    /// The canonical cycle of the `i`-th class of degree `n`, from 1 to the rank, as a chain: the pivot of the class, less
    /// each pivot of the coboundaries times the value of its canonical coboundary at the former. It pairs to 0 with every
    /// coboundary and with every other class, and to 1 with its own.
    pub fn cycle(&self, alloc: Global, n: u32, i: u32) -> Result<Cochain<P>, AllocError>
        requires prime { IsTrue (served P) }
        requires from_one { 1 ≤ i }
        requires inside { i ≤ length (classes_in self.now n) }
        ensures { IfOk result (λ y. (full sub : List (List (List ℕ))) → AreClassesOfPair P full sub self.now → IsRelativeCycle P full sub n (classes_in self.now n) (i - 1) y) }
    {
        let pairs = column_pairs(alloc, self.table_in(n), i - 1)?;
        let row = Row::from_pairs(alloc, &pairs)?;
        Ok(Cochain { degree: n, row })
    }
}
