ghost use Rattle.std.specs.Prelude.{◌≡◌, ◌≤◌, ◌+◌, [], true, IfOk, IsTrue};
ghost use Rattle.fp_field.specs.Served.{served};
ghost use Rattle.report_law.specs.Names.{cartan_op as cartan_op_at, cartan_pairs as cartan_pairs_of, is_defined};
ghost use Rattle.line_difference.specs.{Differences.{IsLess, IsLinePair, IsPart, IsPlacedIn}, Elements.{HasElement, HasElements}};

use crate::operations::operation;
use complex_index::{Cochain, Indexed};
use fp_field::Fp;
use may_elements::MayTable;
use may_steenrod::cup;
use report::Line;
use std::alloc::{AllocError, Global};
use term_total::{cartan_op, cartan_pairs};

/// The operation of a line on the product of two cochains.
fn whole<const P: u32>(
    alloc: Global,
    table: &MayTable<P>,
    index: &Indexed,
    line: Line,
    x: &Cochain<P>,
    y: &Cochain<P>,
) -> Result<Cochain<P>, AllocError>
    requires prime { IsTrue (served P) }
    requires low { line.a + line.b ≤ 15 }
    requires defined { is_defined P (line.a + line.b) (cartan_op_at P line.n) ≡ true }
    requires stored { HasElement P table.now (line.a + line.b) (cartan_op_at P line.n) }
    requires first { IsPlacedIn P index.now line.a x.now }
    requires second { IsPlacedIn P index.now line.b y.now }
    ensures { IfOk result (λ r. IsLess index.now line x.now y.now [] r) }
{
    let product = cup(alloc, index, x, y)?;
    operation(alloc, table, index, cartan_op(P, line.n), &product)
}

/// The product of the operations of a pair on two cochains.
fn part<const P: u32>(
    alloc: Global,
    table: &MayTable<P>,
    index: &Indexed,
    line: Line,
    pair: (u32, u32),
    x: &Cochain<P>,
    y: &Cochain<P>,
) -> Result<Cochain<P>, AllocError>
    requires prime { IsTrue (served P) }
    requires low { line.a + line.b ≤ 15 }
    requires pair { IsLinePair P table.now line pair }
    requires first { IsPlacedIn P index.now line.a x.now }
    requires second { IsPlacedIn P index.now line.b y.now }
    ensures { IfOk result (λ r. IsPart index.now line x.now y.now pair r) }
{
    let left = operation(alloc, table, index, cartan_op(P, pair.0), x)?;
    let right = operation(alloc, table, index, cartan_op(P, pair.1), y)?;
    cup(alloc, index, &left, &right)
}

/// The operation of a line on the product of two cochains of its degrees, which add up to 15 at most, less the products of the
/// operations on them. The operation is defined on the sum of the degrees, and at an odd prime the May elements of all these operations are stored.
/// On cocycles it is a cocycle.
pub fn difference<const P: u32>(
    alloc: Global,
    table: &MayTable<P>,
    index: &Indexed,
    line: Line,
    x: &Cochain<P>,
    y: &Cochain<P>,
) -> Result<Cochain<P>, AllocError>
    requires prime { IsTrue (served P) }
    requires low { line.a + line.b ≤ 15 }
    requires defined { is_defined P (line.a + line.b) (cartan_op_at P line.n) ≡ true }
    requires stored { HasElements P table.now line }
    requires first { IsPlacedIn P index.now line.a x.now }
    requires second { IsPlacedIn P index.now line.b y.now }
    ensures { IfOk result (λ r. IsLess index.now line x.now y.now (cartan_pairs_of P line.a line.b line.n) r) }
{
    let pairs = cartan_pairs(alloc, P, line.a, line.b, line.n)?;
    let mut difference = whole(alloc, table, index, line, x, y)?;
    for pair in pairs.as_slice() {
        let part = part(alloc, table, index, line, *pair, x, y)?;
        difference.row.add_scaled(&part.row, Fp::new(1).neg())?;
    }
    Ok(difference)
}
