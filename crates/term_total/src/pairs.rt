//! The operations of Cartan lines.
ghost use Rattle.std.specs.Prelude.{◌≡◌, ◌≤◌, ◌+◌, ◌&&◌, IfOk, IsTrue};
ghost use Rattle.fp_field.specs.Served.{served};
ghost use Rattle.report_law.specs.Names.{cartan_op as cartan_op_at, cartan_pairs as cartan_pairs_of, is_defined as is_defined_at};
ghost use Rattle.term_total.specs.Names.{pair_lines as pair_lines_of};

use crate::degrees::is_defined;
use crate::live::add_lines_of_pair;
use report::{Line, Op, Product};
use std::alloc::{AllocError, Global};

/// The operation of a Cartan line: `Sq^n` at 2, `P^n` at an odd prime.
pub fn cartan_op(p: u32, n: u32) -> Op
    ensures { result ≡ cartan_op_at p n }
{
    if p == 2 {
        Op::Square { k: n }
    } else {
        Op::Power { s: n }
    }
}

/// Whether the operation i on degree a and the operation j on degree b are defined.
fn are_defined(p: u32, a: u32, b: u32, i: u32, j: u32) -> bool
    ensures { result ≡ (is_defined_at p a (cartan_op_at p i) && is_defined_at p b (cartan_op_at p j)) }
{
    is_defined(p, cartan_op(p, i), a) && is_defined(p, cartan_op(p, j), b)
}

/// The pairs of i and j with sum n for which the operation i on degree a and the operation j on degree b are
/// defined, by i.
pub fn cartan_pairs(
    alloc: Global,
    p: u32,
    a: u32,
    b: u32,
    n: u32,
) -> Result<Vec<(u32, u32)>, AllocError>
    requires { n ≤ 30 }
    ensures { IfOk result (λ v. v.items ≡ cartan_pairs_of p a b n) }
{
    let mut found = Vec::new(alloc);
    for i in 0..n + 1 {
        if are_defined(p, a, b, i, n - i) {
            found.push((i, n - i))?;
        }
    }
    Ok(found)
}

/// The live lines of the first classes of two degrees.
pub(crate) fn pair_lines(
    alloc: Global,
    p: u32,
    ranks: &[u32],
    pair: &Product,
) -> Result<Vec<Line>, AllocError>
    requires prime { IsTrue (served p) }
    requires low { pair.now.a + pair.now.b ≤ 30 }
    ensures { IfOk result (λ v. v.items ≡ pair_lines_of p ranks.now pair.now) }
{
    let mut found = Vec::new(alloc);
    add_lines_of_pair(&mut found, p, ranks, pair.a, pair.b, 1, 1)?;
    Ok(found)
}
