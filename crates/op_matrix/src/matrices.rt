ghost use Rattle.std.specs.Prelude.{◌≡◌, ◌≤◌, ◌-◌, length, slice_get, Some, true, IfOk, IsTrue};
ghost use Rattle.fp_field.specs.Served.{served};
ghost use Rattle.complex_index.specs.declared.indexed.Cochain.{Cochain};
ghost use Rattle.report_law.specs.Names.{is_defined, target_degree};
ghost use Rattle.line_difference.specs.Elements.{HasElement};
ghost use Rattle.op_matrix.specs.Tables.{IsOperationMatrix, IsResultColumn};

use cohomology::{Basis, Column};
use complex_index::Indexed;
use line_difference::operation;
use may_elements::MayTable;
use report::Block;
use std::alloc::{AllocError, Global};

/// The column of an operation on the `i`-th class.
fn result_column<const P: u32, B: Basis<P>>(
    alloc: Global,
    basis: &B,
    index: &Indexed,
    table: &MayTable<P>,
    block: Block,
    i: u32,
) -> Result<Column<P>, AllocError>
    requires prime { IsTrue (served P) }
    requires of { B.is_of index.now basis.now }
    requires low { block.from ≤ 15 }
    requires defined { is_defined P block.from block.op ≡ true }
    requires target { block.to ≡ target_degree P block.from block.op }
    requires stored { HasElement P table.now block.from block.op }
    requires from_one { 1 ≤ i }
    requires inside { i ≤ length (B.classes basis.now block.from) }
    ensures { IfOk result (λ c. (z : Cochain P) → slice_get (B.classes basis.now block.from) (i - 1) ≡ Some z → IsResultColumn B.keeps index.now (B.classes basis.now) block z c) }
{
    let result = operation(alloc, table, index, block.op, basis.class(block.from, i))?;
    basis.column(alloc, &result)
}

/// The matrix of an operation from its degree, at most 15, to its target degree: column j is that of the operation on class j.
/// At an odd prime the May element of the operation is stored.
pub fn matrix<const P: u32, B: Basis<P>>(
    alloc: Global,
    basis: &B,
    index: &Indexed,
    table: &MayTable<P>,
    block: Block,
) -> Result<Vec<Column<P>>, AllocError>
    requires prime { IsTrue (served P) }
    requires of { B.is_of index.now basis.now }
    requires low { block.from ≤ 15 }
    requires defined { is_defined P block.from block.op ≡ true }
    requires target { block.to ≡ target_degree P block.from block.op }
    requires stored { HasElement P table.now block.from block.op }
    ensures { IfOk result (λ m. IsOperationMatrix B.keeps index.now (B.classes basis.now) block m.items) }
{
    let mut columns = Vec::new(alloc);
    for i in 0..basis.rank(block.from) {
        columns.push(result_column(alloc, basis, index, table, block, i + 1)?)?;
    }
    Ok(columns)
}
