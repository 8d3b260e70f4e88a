ghost use Rattle.std.specs.{Prelude.{◌≡◌, ◌≤◌, ◌+◌, ◌-◌, ◌++◌, List, length, map, slice_get, Some, IfOk, IsTrue, OnOk}, List.AllZip};
ghost use Rattle.fp_field.specs.Served.{served};
ghost use Rattle.complex_index.specs.declared.indexed.Cochain.{Cochain};
ghost use Rattle.op_matrix.specs.Tables.{IsPairColumn, IsProductMatrix};

use cohomology::{Basis, Column};
use complex_index::Indexed;
use may_steenrod::cup;
use report::Product;
use std::alloc::{AllocError, Global};

/// The column of the product of the `i`-th class of one degree and the `j`-th of the other.
fn product_column<const P: u32, B: Basis<P>>(
    alloc: Global,
    basis: &B,
    index: &Indexed,
    product: Product,
    i: u32,
    j: u32,
) -> Result<Column<P>, AllocError>
    requires prime { IsTrue (served P) }
    requires of { B.is_of index.now basis.now }
    requires a_low { product.a ≤ 15 }
    requires b_low { product.b ≤ 15 }
    requires i_from_one { 1 ≤ i }
    requires i_inside { i ≤ length (B.classes basis.now product.a) }
    requires j_from_one { 1 ≤ j }
    requires j_inside { j ≤ length (B.classes basis.now product.b) }
    ensures { IfOk result (λ c. (z w : Cochain P) → slice_get (B.classes basis.now product.a) (i - 1) ≡ Some z → slice_get (B.classes basis.now product.b) (j - 1) ≡ Some w → IsPairColumn B.keeps index.now (B.classes basis.now) product (z, w) c) }
{
    let class = basis.class(product.a, i);
    let result = cup(alloc, index, class, basis.class(product.b, j))?;
    basis.column(alloc, &result)
}

/// Appends the columns of the products of the `i`-th class of one degree with the classes of the other.
fn add_products<const P: u32, B: Basis<P>>(
    alloc: Global,
    basis: &B,
    index: &Indexed,
    product: Product,
    i: u32,
    columns: &mut Vec<Column<P>>,
) -> Result<(), AllocError>
    requires prime { IsTrue (served P) }
    requires of { B.is_of index.now basis.now }
    requires a_low { product.a ≤ 15 }
    requires b_low { product.b ≤ 15 }
    requires i_from_one { 1 ≤ i }
    requires i_inside { i ≤ length (B.classes basis.now product.a) }
    ensures { OnOk result ((pairs : List (Cochain P × Cochain P)) (z : Cochain P) → slice_get (B.classes basis.now product.a) (i - 1) ≡ Some z →
        AllZip (IsPairColumn B.keeps index.now (B.classes basis.now) product) pairs columns.old.items →
        AllZip (IsPairColumn B.keeps index.now (B.classes basis.now) product) (pairs ++ map (λ w. (z, w)) (B.classes basis.now product.b)) columns.new.items) }
{
    for j in 0..basis.rank(product.b) {
        columns.push(product_column(alloc, basis, index, product, i, j + 1)?)?;
    }
    Ok(())
}

/// The matrix of the products of two degrees, each at most 15: a column for class i of the first and class j of the second, by
/// i and then j.
pub fn ring<const P: u32, B: Basis<P>>(
    alloc: Global,
    basis: &B,
    index: &Indexed,
    product: Product,
) -> Result<Vec<Column<P>>, AllocError>
    requires prime { IsTrue (served P) }
    requires of { B.is_of index.now basis.now }
    requires a_low { product.a ≤ 15 }
    requires b_low { product.b ≤ 15 }
    ensures { IfOk result (λ m. IsProductMatrix B.keeps index.now (B.classes basis.now) product m.items) }
{
    let mut columns = Vec::new(alloc);
    for i in 0..basis.rank(product.a) {
        add_products(alloc, basis, index, product, i + 1, &mut columns)?;
    }
    Ok(columns)
}
