ghost use Rattle.std.specs.Prelude.{◌≡◌, ◌≤◌, ℕ, List, length, true, IfOk, IsTrue};
ghost use Rattle.fp_field.specs.Served.{served};
ghost use Rattle.sparse_rows.specs.Rows.{IsBelow};
ghost use Rattle.complex_index.specs.Names.{IsIndexOf, level};
ghost use Rattle.may_steenrod.specs.Cochains.{IsClosed, cochain_in};
ghost use Rattle.report_law.specs.Names.{IsOperation, is_defined, target_degree};
ghost use Rattle.line_difference.specs.Elements.{HasElement};

use complex_index::{Cochain, Indexed};
use may_elements::MayTable;
use may_steenrod::{bp_op, p_op, sq};
use report::Op;
use std::alloc::{AllocError, Global};

/// An operation on a cochain of a degree, at most 15, on which it is defined; at an odd prime its May element is stored. On a
/// cocycle it is a cocycle.
pub fn operation<const P: u32>(
    alloc: Global,
    table: &MayTable<P>,
    index: &Indexed,
    op: Op,
    cochain: &Cochain<P>,
) -> Result<Cochain<P>, AllocError>
    requires prime { IsTrue (served P) }
    requires defined { is_defined P cochain.now.degree op ≡ true }
    requires stored { HasElement P table.now cochain.now.degree op }
    requires low { cochain.now.degree ≤ 15 }
    requires inside { IsBelow (length (level index.now cochain.now.degree)) cochain.now.row }
    ensures degree { IfOk result (λ r. r.degree ≡ target_degree P cochain.now.degree op) }
    ensures inside { IfOk result (λ r. IsBelow (length (level index.now (target_degree P cochain.now.degree op))) r.row) }
    ensures operation { IfOk result (λ r. (facets : List (List ℕ)) → IsIndexOf facets index.now → IsOperation facets P op cochain.now.degree (cochain_in index.now cochain.now.degree cochain.now.row) (cochain_in index.now (target_degree P cochain.now.degree op) r.row)) }
    ensures closed { IfOk result (λ r. IsClosed P index.now cochain.now.degree cochain.now.row → IsClosed P index.now (target_degree P cochain.now.degree op) r.row) }
{
    match op {
        Op::Square { k } => sq(alloc, index, cochain, k),
        Op::Power { s } => p_op(alloc, table, index, cochain, s),
        Op::BocksteinPower { s } => bp_op(alloc, table, index, cochain, s),
    }
}
