ghost use Rattle.std.specs.Prelude.{◌≡◌, ◌≤◌, length, map, IfOk, IsTrue};
ghost use Rattle.fp_field.specs.Served.{served};
ghost use Rattle.linear_law.specs.Names.{Each};
ghost use Rattle.report_law.specs.Names.{blocks as blocks_at, products as products_at};
ghost use Rattle.line_difference.specs.Elements.{AreStored};
ghost use Rattle.class_matrices.specs.Names.{IsOperationOf, IsProductOf};

use crate::matrices::{OperationMatrix, ProductMatrix};
use cohomology::Basis;
use complex_index::Indexed;
use may_elements::MayTable;
use op_matrix::{matrix, ring};
use std::alloc::{AllocError, Global};
use term_total::{blocks, products};

/// The matrices of the live products.
pub(crate) fn product_matrices<const P: u32, B: Basis<P>>(
    alloc: Global,
    basis: &B,
    index: &Indexed,
    ranks: &[u32],
) -> Result<Vec<ProductMatrix<P>>, AllocError>
    requires prime { IsTrue (served P) }
    requires of { B.is_of index.now basis.now }
    requires few { length ranks.now ≤ 16 }
    ensures headings { IfOk result (λ ms. map (λ m. m.product) ms.items ≡ products_at ranks.now) }
    ensures matrices { IfOk result (λ ms. Each (IsProductOf B.keeps index.now (B.classes basis.now)) ms.items) }
{
    let live = products(alloc, ranks)?;
    let mut matrices = Vec::new(alloc);
    for product in live.as_slice() {
        let columns = ring(alloc, basis, index, *product)?;
        matrices.push(ProductMatrix {
            product: *product,
            columns,
        })?;
    }
    Ok(matrices)
}

/// The matrices of the live operations.
pub(crate) fn operation_matrices<const P: u32, B: Basis<P>>(
    alloc: Global,
    basis: &B,
    index: &Indexed,
    table: &MayTable<P>,
    ranks: &[u32],
) -> Result<Vec<OperationMatrix<P>>, AllocError>
    requires prime { IsTrue (served P) }
    requires of { B.is_of index.now basis.now }
    requires few { length ranks.now ≤ 16 }
    requires stored { AreStored P table.now ranks.now }
    ensures headings { IfOk result (λ ms. map (λ m. m.block) ms.items ≡ blocks_at P ranks.now) }
    ensures matrices { IfOk result (λ ms. Each (IsOperationOf B.keeps index.now (B.classes basis.now)) ms.items) }
{
    let live = blocks(alloc, P, ranks)?;
    let mut matrices = Vec::new(alloc);
    for block in live.as_slice() {
        let columns = matrix(alloc, basis, index, table, *block)?;
        matrices.push(OperationMatrix {
            block: *block,
            columns,
        })?;
    }
    Ok(matrices)
}
