//! The matrices that a map of complexes induces on cohomology.
#![tactic(auto)]

ghost use Rattle.std.specs.Prelude.{◌≡◌, get_or, IfOk, IsTrue};
ghost use Rattle.fp_field.specs.Served.{served};
ghost use Rattle.cohomology.specs.Names.{IsPlaced};
ghost use Rattle.may_steenrod.specs.Cochains.{IsClosed};
ghost use Rattle.induced_map.specs.Induced.{IsInducedMatrix, IsMapIn, IsPulledColumn};

use cohomology::{Basis, Column};
use complex_index::{Cochain, Indexed, MapOn, pull};
use std::alloc::{AllocError, Global};

/// The column of the pull-back of a cocycle of the target.
fn pulled_column<const P: u32, B: Basis<P>>(
    alloc: Global,
    map: &MapOn,
    from: &Indexed,
    to: &Indexed,
    source: &B,
    class: &Cochain<P>,
) -> Result<Column<P>, AllocError>
    requires prime { IsTrue (served P) }
    requires of { B.is_of from.now source.now }
    requires map { IsMapIn (λ v. get_or map.now v 0) from.now to.now }
    requires placed { IsPlaced P to.now class.now.degree class.now }
    requires closed { IsClosed P to.now class.now.degree class.now.row }
    ensures { IfOk result (λ c. IsPulledColumn B.keeps (λ v. get_or map.now v 0) from.now to.now (B.classes source.now) class.now.degree class.now c) }
{
    let pulled = pull(alloc, map, from, to, class)?;
    source.column(alloc, &pulled)
}

/// The matrix in degree `q` of a map between two complexes: column j is that of the pull-back of class j of the second, for
/// the classes of the first.
pub fn induced<const P: u32, B: Basis<P>>(
    alloc: Global,
    map: &MapOn,
    from: &Indexed,
    to: &Indexed,
    source: &B,
    target: &B,
    q: u32,
) -> Result<Vec<Column<P>>, AllocError>
    requires prime { IsTrue (served P) }
    requires source_of { B.is_of from.now source.now }
    requires target_of { B.is_of to.now target.now }
    requires map { IsMapIn (λ v. get_or map.now v 0) from.now to.now }
    ensures { IfOk result (λ m. IsInducedMatrix B.keeps (λ v. get_or map.now v 0) from.now to.now (B.classes source.now) (B.classes target.now) q m.items) }
{
    let mut columns = Vec::new(alloc);
    for i in 0..target.rank(q) {
        let class = target.class(q, i + 1);
        columns.push(pulled_column(alloc, map, from, to, source, class)?)?;
    }
    Ok(columns)
}
