ghost use Rattle.std.specs.Prelude.{◌≤◌, length, IfOk, IsTrue};
ghost use Rattle.fp_field.specs.Served.{served};
ghost use Rattle.line_difference.specs.Elements.{AreStored};
ghost use Rattle.class_matrices.specs.Names.{AreMatrices, IsFound};

use crate::made::{operation_matrices, product_matrices};
use cohomology::{Basis, Column};
use complex_index::Indexed;
use may_elements::MayTable;
use report::{Block, Product};
use std::alloc::{AllocError, Global};

/// The matrix of the products of two degrees: a column for class i of the first and class j of the second, by i and then j.
#[derive(Drop)]
pub struct ProductMatrix<const P: u32> {
    pub product: Product,
    pub columns: Vec<Column<P>>,
}

/// The matrix of an operation: a column for each class of its first degree.
#[derive(Drop)]
pub struct OperationMatrix<const P: u32> {
    pub block: Block,
    pub columns: Vec<Column<P>>,
}

/// The matrices of the live products and of the live operations of a complex, in order.
#[derive(Drop)]
pub struct Matrices<const P: u32> {
    pub products: Vec<ProductMatrix<P>>,
    pub operations: Vec<OperationMatrix<P>>,
}

impl<const P: u32> Matrices<P> {
    /// The matrices of a complex with these ranks, at most 16. At an odd prime the May elements of its live operations are
    /// stored.
    pub fn of<B: Basis<P>>(
        alloc: Global,
        basis: &B,
        index: &Indexed,
        table: &MayTable<P>,
        ranks: &[u32],
    ) -> Result<Matrices<P>, AllocError>
        requires prime { IsTrue (served P) }
        requires of { B.is_of index.now basis.now }
        requires few { length ranks.now ≤ 16 }
        requires stored { AreStored P table.now ranks.now }
        ensures { IfOk result (λ m. AreMatrices B.keeps index.now (B.classes basis.now) ranks.now m) }
    {
        Ok(Matrices {
            products: product_matrices(alloc, basis, index, ranks)?,
            operations: operation_matrices(alloc, basis, index, table, ranks)?,
        })
    }

    /// The columns of a product, none where it is not live.
    pub fn product(&self, product: Product) -> &[Column<P>]
        ensures { IsFound (λ m. m.product) (λ m. m.columns.items) self.now.products.items product result.now }
    {
        for matrix in self.products.as_slice() {
            if matrix.product == product {
                return matrix.columns.as_slice();
            }
        }
        &[]
    }

    /// The columns of an operation, none where it is not live.
    pub fn operation(&self, block: Block) -> &[Column<P>]
        ensures { IsFound (λ m. m.block) (λ m. m.columns.items) self.now.operations.items block result.now }
    {
        for matrix in self.operations.as_slice() {
            if matrix.block == block {
                return matrix.columns.as_slice();
            }
        }
        &[]
    }
}
