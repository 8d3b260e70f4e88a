ghost use Rattle.std.specs.Prelude.{◌≡◌, ◌↔◌, ◌+◌, ◌<◌, ◌^◌, length, get_or, IfOk, IsTrue};
ghost use Rattle.linear_law.specs.Names.{Among};
ghost use Rattle.complex_index.specs.Names.{IsComplexIndex, level};
ghost use Rattle.cohomology.specs.Names.{AreBlanked, AreJoined, IsMarkTable};

use complex_index::Indexed;
use row_reduce::Pivots;
use sparse_rows::Row;
use std::alloc::{AllocError, Global};

/// Whether these are the vertices of a simplex of degree `n`.
fn has(sub: &Indexed, n: u32, vertices: &[u32]) -> bool
    requires { length vertices.now ≡ n + 1 }
    ensures { IsTrue result ↔ Among vertices.now (level sub.now n) }
{
    sub.place_of(vertices).is_some()
}

/// For each simplex of degree `n`, whether it is one of the subcomplex.
pub(crate) fn marks(
    alloc: Global,
    full: &Indexed,
    sub: &Indexed,
    n: u32,
) -> Result<Vec<bool>, AllocError>
    requires { IsComplexIndex full.now }
    ensures { IfOk result (λ v. IsMarkTable full.now sub.now n v.items) }
{
    let mut table = Vec::new(alloc);
    for place in 0..full.count(n) {
        table.push(has(sub, n, full.simplex(n, place)))?;
    }
    Ok(table)
}

/// The rows, made empty at the marked places.
pub(crate) fn blanked<const P: u32>(
    alloc: Global,
    rows: Vec<Row<P>>,
    marks: &[bool],
) -> Result<Vec<Row<P>>, AllocError>
    ensures { IfOk result (λ v. AreBlanked marks.now rows.entry.items v.items) }
{
    let mut kept = Vec::with_capacity(alloc, rows.len())?;
    for row in rows {
        let marked = match marks.get(kept.len()) {
            Some(mark) => *mark,
            None => false,
        };
        if marked {
            kept.push(Row::new(alloc))?;
        } else {
            kept.push(row)?;
        }
    }
    Ok(kept)
}

/// Whether a place is a pivot or marked, for each place.
pub(crate) fn joined(
    alloc: Global,
    pivots: &Pivots,
    marks: &[bool],
) -> Result<Vec<bool>, AllocError>
    requires { length marks.now ≡ length pivots.now }
    ensures { IfOk result (λ v. AreJoined pivots.now marks.now v.items) }
{
    let mut table = Vec::new(alloc);
    for at in 0..pivots.width() {
        table.push(marks[at] || pivots.contains(at))?;
    }
    Ok(table)
}
