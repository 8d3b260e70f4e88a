ghost use Rattle.std.specs.Prelude.{◌≡◌, ℕ, ◌+◌, ◌<◌, ◌^◌, List, [], None, map, length, IfOk, IsTrue};
ghost use Rattle.linear_law.specs.Names.{Each, copies};
ghost use Rattle.fp_field.specs.Served.{served};
ghost use Rattle.complex_index.specs.Names.{IsComplexIndex, level};
ghost use Rattle.cohomology.specs.Names.{IsPairIndex, AreCanonicalIn, AreRelativeIn, IsPivotTable, IsReachedIn, AreRowsOf, TellCoboundaries};

use crate::pairs::{blanked, joined, marks};
use complex_index::{Cochain, Indexed};
use row_reduce::{Pivots, Stored, kernel_and_stored};
use simplex_set::Complex;
use sparse_rows::Row;
use std::alloc::{AllocError, Global};

/// What the walks below a degree tell of its coboundaries.
#[derive(Drop)]
pub(crate) struct Reached<const P: u32> {
    /// Their pivots.
    pub pivots: Pivots,
    /// Triangular rows of coboundaries, one for each pivot.
    pub stored: Vec<Stored<P>>,
}

/// The rows as cochains of one degree.
fn of_degree<const P: u32>(
    alloc: Global,
    degree: u32,
    rows: Vec<Row<P>>,
) -> Result<Vec<Cochain<P>>, AllocError>
    ensures rows { IfOk result (λ v. map (λ c. c.row) v.items ≡ rows.entry.items) }
    ensures degrees { IfOk result (λ v. Each (λ c. c.degree ≡ degree) v.items) }
{
    let mut cochains = Vec::new(alloc);
    for row in rows {
        cochains.push(Cochain { degree, row })?;
    }
    Ok(cochains)
}

/// The pivots of the coboundaries of degree 0: no place is one.
pub fn no_pivots(alloc: Global, index: &Indexed) -> Result<Pivots, AllocError>
    ensures none { IfOk result (λ t. t ≡ copies (length (level index.now 0)) None) }
    ensures table { IfOk result (λ t. (p : ℕ) (sub : List (List (List ℕ))) → IsPivotTable p index.now sub 0 t) }
{
    Pivots::none(alloc, index.count(0) as usize)
}

/// What is known below degree 0: no place is a pivot.
pub(crate) fn start<const P: u32>(alloc: Global, full: &Indexed) -> Result<Reached<P>, AllocError>
    ensures { IfOk result (λ r. (sub : List (List (List ℕ))) → IsReachedIn P full.now sub 0 r.pivots r.stored.items) }
{
    Ok(Reached {
        pivots: no_pivots(alloc, full)?,
        stored: Vec::new(alloc),
    })
}

/// The index of no simplices.
pub(crate) fn nothing(alloc: Global) -> Result<Indexed, AllocError>
    ensures { IfOk result (λ i. i ≡ []) }
{
    let none = Complex::of(alloc, Vec::new(alloc))?;
    Indexed::of(alloc, &none)
}

/// The coboundary rows of a degree, empty at the simplices of the subcomplex, and whether a place
/// may be skipped: those of the pivots of the coboundaries, and those of the subcomplex.
fn rows_at<const P: u32>(
    alloc: Global,
    full: &Indexed,
    sub: &Indexed,
    degree: u32,
    pivots: &Pivots,
) -> Result<(Vec<Row<P>>, Vec<bool>), AllocError>
    requires prime { IsTrue (served P) }
    requires pair { IsPairIndex full.now sub.now }
    requires inside { degree + 1 < 2 ^ 32 }
    requires pivots { IsPivotTable P full.now sub.now degree pivots.now }
    ensures { IfOk result (λ r. AreRowsOf P full.now sub.now degree pivots.now r.0.items r.1.items) }
{
    let table = marks(alloc, full, sub, degree)?;
    let given = full.coboundary_rows::<P>(alloc, degree)?;
    let rows = blanked(alloc, given, table.as_slice())?;
    let skip = joined(alloc, pivots, table.as_slice())?;
    Ok((rows, skip))
}

/// The canonical classes of one degree, from the pivots of its coboundaries, and what is then told of the next degree.
pub(crate) fn step_at<const P: u32>(
    alloc: Global,
    full: &Indexed,
    sub: &Indexed,
    degree: u32,
    pivots: &Pivots,
) -> Result<(Vec<Cochain<P>>, Reached<P>), AllocError>
    requires prime { IsTrue (served P) }
    requires pair { IsPairIndex full.now sub.now }
    requires inside { degree + 1 < 2 ^ 32 }
    requires pivots { IsPivotTable P full.now sub.now degree pivots.now }
    ensures classes { IfOk result (λ s. AreRelativeIn P full.now sub.now degree s.0.items) }
    ensures next { IfOk result (λ s. IsReachedIn P full.now sub.now (degree + 1) s.1.pivots s.1.stored.items) }
    ensures coboundaries { IfOk result (λ s. TellCoboundaries P full.now sub.now degree s.1.stored.items s.1.pivots) }
{
    let (rows, skip) = rows_at(alloc, full, sub, degree, pivots)?;
    let width = full.count(degree + 1) as usize;
    let (kernel, pivots, stored) = kernel_and_stored(alloc, rows.as_slice(), width, skip)?;
    let classes = of_degree(alloc, degree, kernel)?;
    Ok((classes, Reached { pivots, stored }))
}

/// The canonical classes of one degree of a complex, from the pivots of the coboundaries of this degree, and the pivots of
/// those of the next. No cycles are made.
pub fn classes_at<const P: u32>(
    alloc: Global,
    index: &Indexed,
    degree: u32,
    pivots: &Pivots,
) -> Result<(Vec<Cochain<P>>, Pivots), AllocError>
    requires prime { IsTrue (served P) }
    requires complex { IsComplexIndex index.now }
    requires inside { degree + 1 < 2 ^ 32 }
    requires pivots { IsPivotTable P index.now [] degree pivots.now }
    ensures classes { IfOk result (λ s. AreCanonicalIn P index.now degree s.0.items) }
    ensures next { IfOk result (λ s. IsPivotTable P index.now [] (degree + 1) s.1) }
{
    let nothing = nothing(alloc)?;
    let (classes, next) = step_at(alloc, index, &nothing, degree, pivots)?;
    Ok((classes, next.pivots))
}
