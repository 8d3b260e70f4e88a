ghost use Rattle.std.specs.{Prelude.{◌≡◌, ◌≤◌, ◌+◌, ◌-◌, IfOk, IsTrue, length, true}, List.AllZip};
ghost use Rattle.fp_field.specs.Served.{served};
ghost use Rattle.complex_index.specs.Names.{IsComplexIndex};
ghost use Rattle.report_law.specs.Names.{blocks as blocks_at, cartan_op as cartan_op_at, is_defined, lines as lines_at, products as products_at, op_named};
ghost use Rattle.class_matrices.specs.Names.{class_counts, AreMatrices, IsOperationOf, IsProductOf};
ghost use Rattle.line_difference.specs.Elements.{AreStored, HasElements};
ghost use Rattle.cartan_check.specs.Verdicts.{listed_answer};
ghost use Rattle.job_report.specs.Parts.{IsInsideVerdict, IsListedLine, IsListedOperation, IsListedProduct, IsSameAnswer};

use crate::columns::{listed_columns, number_pairs, pair_columns};
use crate::depth::Depth;
use cartan_check::Verdict;
use class_matrices::{Matrices, OperationMatrix, ProductMatrix};
use comch_io::Listed;
use complex_index::Indexed;
use may_elements::MayTable;
use report::{
    Block, CartanAnswer, CartanPart, Line, Op, OpWord, OperationPart, Product, ProductPart,
};
use std::alloc::{AllocError, Global};
use term_total::{cartan_op, lines, target};

/// The products of two degrees, as they are listed.
fn product_part<const P: u32, B: Depth<P>>(
    alloc: Global,
    index: &Indexed,
    basis: &B,
    matrix: &ProductMatrix<P>,
) -> Result<ProductPart, AllocError>
    requires complex { IsComplexIndex index.now }
    requires of { B.is_of index.now basis.now }
    requires low { matrix.now.product.a + matrix.now.product.b ≤ 30 }
    requires matrix { IsProductOf B.keeps index.now (B.classes basis.now) matrix.now }
    ensures { IfOk result (λ x. IsListedProduct B.keeps index.now (B.classes basis.now) matrix.now.product x) }
{
    let Product { a, b } = matrix.product;
    let pairs = number_pairs(alloc, basis.rank(a), basis.rank(b))?;
    let columns = pair_columns::<P, B>(alloc, index, a + b, &pairs, &matrix.columns)?;
    Ok(ProductPart { a, b, columns })
}

/// The live products, in order.
pub fn product_parts<const P: u32, B: Depth<P>>(
    alloc: Global,
    index: &Indexed,
    basis: &B,
    matrices: &Matrices<P>,
) -> Result<Listed<ProductPart>, AllocError>
    requires complex { IsComplexIndex index.now }
    requires of { B.is_of index.now basis.now }
    requires few { length index.now ≤ 16 }
    requires matrices { AreMatrices B.keeps index.now (B.classes basis.now) (class_counts index.now (B.classes basis.now)) matrices.now }
    ensures { IfOk result (λ xs. AllZip (IsListedProduct B.keeps index.now (B.classes basis.now)) (products_at (class_counts index.now (B.classes basis.now))) xs) }
{
    let mut parts = Vec::new(alloc);
    for matrix in matrices.products.as_slice() {
        parts.push(product_part(alloc, index, basis, matrix)?)?;
    }
    Ok(Listed::from(parts))
}

/// The word and the number of an operation.
fn named(op: Op) -> (OpWord, u32)
    ensures { op_named result.0 result.1 ≡ op }
{
    match op {
        Op::Square { k } => (OpWord::Sq, k),
        Op::Power { s } => (OpWord::Power, s),
        Op::BocksteinPower { s } => (OpWord::BocksteinPower, s),
    }
}

/// The matrix of an operation, as it is listed.
fn operation_part<const P: u32, B: Depth<P>>(
    alloc: Global,
    index: &Indexed,
    basis: &B,
    matrix: &OperationMatrix<P>,
) -> Result<OperationPart, AllocError>
    requires complex { IsComplexIndex index.now }
    requires of { B.is_of index.now basis.now }
    requires matrix { IsOperationOf B.keeps index.now (B.classes basis.now) matrix.now }
    ensures { IfOk result (λ o. IsListedOperation B.keeps index.now (B.classes basis.now) matrix.now.block o) }
{
    let Block { op, from, to } = matrix.block;
    let columns = listed_columns::<P, B>(alloc, index, to, &matrix.columns)?;
    let (word, number) = named(op);
    Ok(OperationPart {
        word,
        number,
        from,
        to,
        columns,
    })
}

/// The live blocks of operations, in order.
pub fn operation_parts<const P: u32, B: Depth<P>>(
    alloc: Global,
    index: &Indexed,
    basis: &B,
    matrices: &Matrices<P>,
) -> Result<Listed<OperationPart>, AllocError>
    requires complex { IsComplexIndex index.now }
    requires of { B.is_of index.now basis.now }
    requires matrices { AreMatrices B.keeps index.now (B.classes basis.now) (class_counts index.now (B.classes basis.now)) matrices.now }
    ensures { IfOk result (λ xs. AllZip (IsListedOperation B.keeps index.now (B.classes basis.now)) (blocks_at P (class_counts index.now (B.classes basis.now))) xs) }
{
    let mut parts = Vec::new(alloc);
    for matrix in matrices.operations.as_slice() {
        parts.push(operation_part(alloc, index, basis, matrix)?)?;
    }
    Ok(Listed::from(parts))
}

/// A verdict in degree `n` as it is listed.
fn answer_of<const P: u32, B: Depth<P>>(
    alloc: Global,
    index: &Indexed,
    n: u32,
    verdict: &Verdict<P>,
) -> Result<CartanAnswer, AllocError>
    requires { IsTrue B.keeps → IsInsideVerdict index.now n verdict.now }
    ensures { IfOk result (λ a. IsSameAnswer B.keeps (listed_answer index.now n verdict.now) a) }
{
    match verdict {
        Verdict::Yes { primitive } => Ok(CartanAnswer::Yes {
            primitive: B::kept_chain(alloc, index, n.saturating_sub(1), primitive)?,
        }),
        Verdict::No { value, cycle } => Ok(CartanAnswer::No {
            value: value.value(),
            cycle: B::kept_chain(alloc, index, n, cycle)?,
        }),
    }
}

/// The verdict on a line, as it is listed.
fn cartan_part<const P: u32, B: Depth<P>>(
    alloc: Global,
    index: &Indexed,
    basis: &B,
    table: &MayTable<P>,
    matrices: &Matrices<P>,
    line: Line,
) -> Result<CartanPart, AllocError>
    requires prime { IsTrue (served P) }
    requires complex { IsComplexIndex index.now }
    requires of { B.is_of index.now basis.now }
    requires matrices { AreMatrices B.keeps index.now (B.classes basis.now) (class_counts index.now (B.classes basis.now)) matrices.now }
    requires low { line.a + line.b ≤ 15 }
    requires defined { is_defined P (line.a + line.b) (cartan_op_at P line.n) ≡ true }
    requires stored { HasElements P table.now line }
    requires first { (1 ≤ line.i) × (line.i ≤ length (B.classes basis.now line.a)) }
    requires second { (1 ≤ line.j) × (line.j ≤ length (B.classes basis.now line.b)) }
    ensures { IfOk result (λ l. IsListedLine B.keeps index.now (B.classes basis.now) line l) }
{
    let verdict = basis.verdict(alloc, index, table, matrices, line)?;
    let Line { a, i, b, j, n } = line;
    let Some(degree) = target(P, cartan_op(P, n), a + b) else {
        unreachable!()
    };
    let answer = answer_of::<P, B>(alloc, index, degree, &verdict)?;
    Ok(CartanPart {
        a,
        i,
        b,
        j,
        n,
        answer,
    })
}

/// The live Cartan lines, in order.
pub fn cartan_parts<const P: u32, B: Depth<P>>(
    alloc: Global,
    index: &Indexed,
    basis: &B,
    table: &MayTable<P>,
    matrices: &Matrices<P>,
    ranks: &[u32],
) -> Result<Listed<CartanPart>, AllocError>
    requires prime { IsTrue (served P) }
    requires complex { IsComplexIndex index.now }
    requires of { B.is_of index.now basis.now }
    requires matrices { AreMatrices B.keeps index.now (B.classes basis.now) (class_counts index.now (B.classes basis.now)) matrices.now }
    requires few { length ranks.now ≤ 16 }
    requires ranks { ranks.now ≡ class_counts index.now (B.classes basis.now) }
    requires stored { AreStored P table.now ranks.now }
    ensures { IfOk result (λ xs. AllZip (IsListedLine B.keeps index.now (B.classes basis.now)) (lines_at P ranks.now) xs) }
{
    let live = lines(alloc, P, ranks)?;
    let mut parts = Vec::new(alloc);
    for line in live.as_slice() {
        parts.push(cartan_part(alloc, index, basis, table, matrices, *line)?)?;
    }
    Ok(Listed::from(parts))
}
