//! The live blocks and lines of a complex, from the ranks of its cohomology.
ghost use Rattle.std.specs.{Prelude.{◌≡◌, ◌≤◌, ◌<◌, ◌+◌, ◌++◌, ◌∷◌, [], length, map, flat_map, slice_index, IfOk, IsTrue, OnOk}, List.filter};
ghost use Rattle.signed_sum.specs.Names.{numbers_from};
ghost use Rattle.fp_field.specs.Served.{served};
ghost use Rattle.report_law.specs.Names.{blocks as blocks_of, degrees, has_class as has_class_at, lines as lines_of, lines_of_pair, products as products_of};
ghost use Rattle.term_total.specs.Names.{class_pairs as class_pairs_of, is_class_pair, is_live_block, is_live_line, is_live_product, lines_of_class, lines_of_degree, lines_of_degrees, live_blocks, operations_with, product_of};

use crate::degrees::{is_defined, target_degree};
use crate::pairs::cartan_op;
use report::{Block, Line, Op, Product};
use std::alloc::{AllocError, Global};

/// Whether the cohomology in degree n is not zero.
fn has_class(ranks: &[u32], n: u32) -> bool
    ensures { result ≡ has_class_at ranks.now n }
{
    match ranks.get(n as usize) {
        Some(rank) => *rank > 0,
        None => false,
    }
}

/// Whether the product of two degrees is live.
fn is_live_pair(ranks: &[u32], a: u32, b: u32) -> bool
    requires { a + b ≤ 30 }
    ensures { result ≡ is_live_product ranks.now (product_of a b) }
{
    has_class(ranks, a) && has_class(ranks, b) && has_class(ranks, a + b)
}

/// Whether the block is live.
fn is_live_pair_of(ranks: &[u32], block: &Block) -> bool
    ensures { result ≡ is_live_block ranks.now block.now }
{
    has_class(ranks, block.from) && has_class(ranks, block.to)
}

/// Adds the live products of degree a with others.
fn add_products(found: &mut Vec<Product>, ranks: &[u32], a: u32) -> Result<(), AllocError>
    requires few { length ranks.now ≤ 16 }
    requires inside { a < length ranks.now }
    ensures { OnOk result (found.new.items ≡ found.old.items ++ filter (is_live_product ranks.now) (map (product_of a) (degrees ranks.now))) }
{
    for b in 0..ranks.len() as u32 {
        if is_live_pair(ranks, a, b) {
            found.push(Product { a, b })?;
        }
    }
    Ok(())
}

/// The products that are live, in order.
pub fn products(alloc: Global, ranks: &[u32]) -> Result<Vec<Product>, AllocError>
    requires { length ranks.now ≤ 16 }
    ensures { IfOk result (λ v. v.items ≡ products_of ranks.now) }
{
    let mut found = Vec::new(alloc);
    for a in 0..ranks.len() as u32 {
        add_products(&mut found, ranks, a)?;
    }
    Ok(found)
}

/// Whether two degrees have classes.
fn are_inhabited(ranks: &[u32], a: u32, b: u32) -> bool
    ensures { result ≡ is_class_pair ranks.now (product_of a b) }
{
    has_class(ranks, a) && has_class(ranks, b)
}

/// Adds the pairs of degree a with others that have classes.
fn add_class_pairs(found: &mut Vec<Product>, ranks: &[u32], a: u32) -> Result<(), AllocError>
    requires few { length ranks.now ≤ 16 }
    ensures { OnOk result (found.new.items ≡ found.old.items ++ filter (is_class_pair ranks.now) (map (product_of a) (degrees ranks.now))) }
{
    for b in 0..ranks.len() as u32 {
        if are_inhabited(ranks, a, b) {
            found.push(Product { a, b })?;
        }
    }
    Ok(())
}

/// The pairs of degrees that have classes, in order.
pub(crate) fn class_pairs(alloc: Global, ranks: &[u32]) -> Result<Vec<Product>, AllocError>
    requires { length ranks.now ≤ 16 }
    ensures { IfOk result (λ v. v.items ≡ class_pairs_of ranks.now) }
{
    let mut found = Vec::new(alloc);
    for a in 0..ranks.len() as u32 {
        add_class_pairs(&mut found, ranks, a)?;
    }
    Ok(found)
}

/// Adds the block of an operation on degree q, if it is defined and live.
fn add_block(
    found: &mut Vec<Block>,
    p: u32,
    ranks: &[u32],
    q: u32,
    op: Op,
) -> Result<(), AllocError>
    requires prime { IsTrue (served p) }
    requires low { q ≤ 30 }
    ensures { OnOk result (found.new.items ≡ found.old.items ++ live_blocks p ranks.now q (op ∷ [])) }
{
    if !is_defined(p, op, q) {
        return Ok(());
    }
    let block = Block {
        op,
        from: q,
        to: target_degree(p, op, q),
    };
    if is_live_pair_of(ranks, &block) {
        found.push(block)?;
    }
    Ok(())
}

/// Adds the live blocks of the operations on degree q.
fn add_blocks(found: &mut Vec<Block>, p: u32, ranks: &[u32], q: u32) -> Result<(), AllocError>
    requires prime { IsTrue (served p) }
    requires low { q ≤ 30 }
    ensures { OnOk result (found.new.items ≡ found.old.items ++ live_blocks p ranks.now q (flat_map operations_with (numbers_from 0 (q + 1)))) }
{
    for k in 0..q + 1 {
        add_block(found, p, ranks, q, Op::Square { k })?;
        add_block(found, p, ranks, q, Op::Power { s: k })?;
        add_block(found, p, ranks, q, Op::BocksteinPower { s: k })?;
    }
    Ok(())
}

/// The operation blocks that are live, in order.
pub fn blocks(alloc: Global, p: u32, ranks: &[u32]) -> Result<Vec<Block>, AllocError>
    requires prime { IsTrue (served p) }
    requires few { length ranks.now ≤ 16 }
    ensures { IfOk result (λ v. v.items ≡ blocks_of p ranks.now) }
{
    let mut found = Vec::new(alloc);
    for q in 0..ranks.len() as u32 {
        add_blocks(&mut found, p, ranks, q)?;
    }
    Ok(found)
}

/// Whether the line is live.
fn is_live(p: u32, ranks: &[u32], line: &Line) -> bool
    requires prime { IsTrue (served p) }
    requires low { line.now.a + line.now.b ≤ 30 }
    ensures { result ≡ is_live_line p ranks.now line.now }
{
    let degree = line.a + line.b;
    let op = cartan_op(p, line.n);
    is_defined(p, op, degree) && has_class(ranks, target_degree(p, op, degree))
}

/// Adds the live lines of class i of degree a and class j of degree b.
pub(crate) fn add_lines_of_pair(
    found: &mut Vec<Line>,
    p: u32,
    ranks: &[u32],
    a: u32,
    b: u32,
    i: u32,
    j: u32,
) -> Result<(), AllocError>
    requires prime { IsTrue (served p) }
    requires low { a + b ≤ 30 }
    ensures { OnOk result (found.new.items ≡ found.old.items ++ filter (is_live_line p ranks.now) (lines_of_pair a b i j)) }
{
    for n in 0..a + b + 1 {
        let line = Line { a, i, b, j, n };
        if is_live(p, ranks, &line) {
            found.push(line)?;
        }
    }
    Ok(())
}

/// The rank in degree n, 0 past the dimension.
pub(crate) fn rank_at(ranks: &[u32], n: u32) -> u32
    ensures { result ≡ slice_index ranks.now n }
{
    match ranks.get(n as usize) {
        Some(rank) => *rank,
        None => 0,
    }
}

/// Adds the live lines of class i of degree a and the classes of degree b.
fn add_lines_of_class(
    found: &mut Vec<Line>,
    p: u32,
    ranks: &[u32],
    a: u32,
    b: u32,
    i: u32,
) -> Result<(), AllocError>
    requires prime { IsTrue (served p) }
    requires low { a + b ≤ 30 }
    ensures { OnOk result (found.new.items ≡ found.old.items ++ filter (is_live_line p ranks.now) (lines_of_class ranks.now a b i)) }
{
    for j in 0..rank_at(ranks, b) {
        add_lines_of_pair(found, p, ranks, a, b, i, j + 1)?;
    }
    Ok(())
}

/// Adds the live lines of the classes of two degrees.
fn add_lines_of_degrees(
    found: &mut Vec<Line>,
    p: u32,
    ranks: &[u32],
    a: u32,
    b: u32,
) -> Result<(), AllocError>
    requires prime { IsTrue (served p) }
    requires low { a + b ≤ 30 }
    ensures { OnOk result (found.new.items ≡ found.old.items ++ filter (is_live_line p ranks.now) (lines_of_degrees ranks.now a b)) }
{
    for i in 0..rank_at(ranks, a) {
        add_lines_of_class(found, p, ranks, a, b, i + 1)?;
    }
    Ok(())
}

/// Adds the live lines of the classes of degree a with others.
fn add_lines_of_degree(
    found: &mut Vec<Line>,
    p: u32,
    ranks: &[u32],
    a: u32,
) -> Result<(), AllocError>
    requires prime { IsTrue (served p) }
    requires few { length ranks.now ≤ 16 }
    requires inside { a < length ranks.now }
    ensures { OnOk result (found.new.items ≡ found.old.items ++ filter (is_live_line p ranks.now) (lines_of_degree ranks.now a)) }
{
    for b in 0..ranks.len() as u32 {
        add_lines_of_degrees(found, p, ranks, a, b)?;
    }
    Ok(())
}

/// The Cartan lines that are live, in order.
pub fn lines(alloc: Global, p: u32, ranks: &[u32]) -> Result<Vec<Line>, AllocError>
    requires prime { IsTrue (served p) }
    requires few { length ranks.now ≤ 16 }
    ensures { IfOk result (λ v. v.items ≡ lines_of p ranks.now) }
{
    let mut found = Vec::new(alloc);
    for a in 0..ranks.len() as u32 {
        add_lines_of_degree(&mut found, p, ranks, a)?;
    }
    Ok(found)
}
