//! What is charged for complexes: rows of what operations count.
ghost use Rattle.std.specs.Prelude.{◌≡◌, ◌≤◌, ◌+◌, ◌++◌, IfOk, IsTrue, OnOk};
ghost use Rattle.fp_field.specs.Served.{served};
ghost use Rattle.linear_law.specs.Names.{Each};
ghost use Rattle.report_law.specs.Names.{is_defined as is_defined_at};
ghost use Rattle.term_total.specs.Names.{IsBlock, IsLine, IsPart, applied_to, block_addend as block_addend_of, block_row as block_row_of, line_operations as line_operations_of, pair_row as pair_row_of, part_rows, plan as plan_of};

use crate::degrees::{element_degree, target_degree};
use crate::live::{blocks, class_pairs, rank_at};
use crate::pairs::{cartan_op, cartan_pairs, pair_lines};
use comch_io::Listed;
use report::{Block, Line, Op, Product, Sizes};
use std::alloc::{AllocError, Global};

/// An operation on cochains of one degree: the degree of its May element, and how many simplices its target degree has.
#[derive(Clone, Copy)]
pub(crate) struct Applied {
    pub(crate) element: u32,
    pub(crate) degree: u32,
    pub(crate) simplices: u32,
}

/// So many times what operations count together.
#[derive(Drop)]
pub(crate) struct Addend {
    pub(crate) factor: u32,
    pub(crate) operations: Listed<Applied>,
}

/// Addends that are charged one after the other, so many times over.
#[derive(Drop)]
pub(crate) struct Row {
    pub(crate) times: u64,
    pub(crate) addends: Listed<Addend>,
}

/// An operation on degree q of a complex with so many simplices.
fn operation_on(p: u32, simplices: &[u32], op: Op, q: u32) -> Applied
    requires prime { IsTrue (served p) }
    requires low { q ≤ 15 }
    requires defined { IsTrue (is_defined_at p q op) }
    ensures { result ≡ applied_to p simplices.now op q }
{
    Applied {
        element: element_degree(p, op, q),
        degree: q,
        simplices: rank_at(simplices, target_degree(p, op, q)),
    }
}

/// What a block counts.
fn block_addend(alloc: Global, p: u32, part: &Sizes, block: &Block) -> Result<Addend, AllocError>
    requires prime { IsTrue (served p) }
    requires block { IsBlock p block.now }
    ensures { IfOk result (λ y. y ≡ block_addend_of p part.now block.now) }
{
    let mut operations = Vec::new(alloc);
    operations.push(operation_on(p, part.simplices.as_slice(), block.op, block.from))?;
    Ok(Addend {
        factor: rank_at(part.ranks.as_slice(), block.from),
        operations: Listed::from(operations),
    })
}

/// The row of the live blocks.
fn block_row(alloc: Global, p: u32, part: &Sizes) -> Result<Row, AllocError>
    requires prime { IsTrue (served p) }
    requires part { IsPart part.now }
    ensures { IfOk result (λ r. r ≡ block_row_of p part.now) }
{
    let mut addends = Vec::new(alloc);
    let blocks = blocks(alloc, p, part.ranks.as_slice())?;
    for block in blocks.as_slice() {
        addends.push(block_addend(alloc, p, part, block)?)?;
    }
    Ok(Row {
        times: 1,
        addends: Listed::from(addends),
    })
}

/// The operations of a line: the one of the product, and those of the products that it is compared with.
fn line_operations(
    alloc: Global,
    p: u32,
    simplices: &[u32],
    line: &Line,
) -> Result<Vec<Applied>, AllocError>
    requires prime { IsTrue (served p) }
    requires line { IsLine p line.now }
    ensures { IfOk result (λ v. v.items ≡ line_operations_of p simplices.now line.now) }
{
    let mut found = Vec::new(alloc);
    found.push(operation_on(p, simplices, cartan_op(p, line.n), line.a + line.b))?;
    let pairs = cartan_pairs(alloc, p, line.a, line.b, line.n)?;
    for pair in pairs.as_slice() {
        found.push(operation_on(p, simplices, cartan_op(p, pair.0), line.a))?;
        found.push(operation_on(p, simplices, cartan_op(p, pair.1), line.b))?;
    }
    Ok(found)
}

/// The row of the lines of two degrees. They count the same for each two classes.
fn pair_row(alloc: Global, p: u32, part: &Sizes, pair: &Product) -> Result<Row, AllocError>
    requires prime { IsTrue (served p) }
    requires part { IsPart part.now }
    requires low { pair.now.a + pair.now.b ≤ 30 }
    ensures { IfOk result (λ r. r ≡ pair_row_of p part.now pair.now) }
{
    let ranks = part.ranks.as_slice();
    let mut addends = Vec::new(alloc);
    let lines = pair_lines(alloc, p, ranks, pair)?;
    for line in lines.as_slice() {
        let operations = line_operations(alloc, p, part.simplices.as_slice(), line)?;
        addends.push(Addend {
            factor: 1,
            operations: Listed::from(operations),
        })?;
    }
    Ok(Row {
        times: u64::from(rank_at(ranks, pair.a)) * u64::from(rank_at(ranks, pair.b)),
        addends: Listed::from(addends),
    })
}

/// Adds the rows of a complex: that of its blocks, and those of its lines.
fn add_rows(alloc: Global, rows: &mut Vec<Row>, p: u32, part: &Sizes) -> Result<(), AllocError>
    requires prime { IsTrue (served p) }
    requires part { IsPart part.now }
    ensures { OnOk result (rows.new.items ≡ rows.old.items ++ part_rows p part.now) }
{
    rows.push(block_row(alloc, p, part)?)?;
    let pairs = class_pairs(alloc, part.ranks.as_slice())?;
    for pair in pairs.as_slice() {
        rows.push(pair_row(alloc, p, part, pair)?)?;
    }
    Ok(())
}

/// The rows of all complexes.
pub(crate) fn plan(alloc: Global, p: u32, parts: &[Sizes]) -> Result<Vec<Row>, AllocError>
    requires prime { IsTrue (served p) }
    requires parts { Each IsPart parts.now }
    ensures { IfOk result (λ v. v.items ≡ plan_of p parts.now) }
{
    let mut rows = Vec::new(alloc);
    for part in parts {
        add_rows(alloc, &mut rows, p, part)?;
    }
    Ok(rows)
}
