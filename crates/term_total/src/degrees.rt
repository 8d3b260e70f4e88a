//! Where operations are defined, and their degrees.
ghost use Rattle.std.specs.Prelude.{◌≡◌, ◌≤◌, IsTrue};
ghost use Rattle.fp_field.specs.Served.{served};
ghost use Rattle.report_law.specs.Names.{element_degree as element_degree_at, is_defined as is_defined_at, may_degree as may_degree_at, target as target_at, target_degree as target_degree_at};

use report::Op;

/// Whether the operation is defined at p on degree q.
pub(crate) fn is_defined(p: u32, op: Op, q: u32) -> bool
    ensures { result ≡ is_defined_at p q op }
{
    match op {
        Op::Square { k } => p == 2 && k <= q,
        Op::Power { s } => p != 2 && s <= q / 2,
        Op::BocksteinPower { s } => p != 2 && q > 0 && s <= (q - 1) / 2,
    }
}

/// The degree of its result.
pub(crate) fn target_degree(p: u32, op: Op, q: u32) -> u32
    requires prime { IsTrue (served p) }
    requires low { q ≤ 30 }
    requires defined { IsTrue (is_defined_at p q op) }
    ensures { result ≡ target_degree_at p q op }
{
    match op {
        Op::Square { k } => q + k,
        Op::Power { s } => q + 2 * s * (p - 1),
        Op::BocksteinPower { s } => q + 2 * s * (p - 1) + 1,
    }
}

/// The degree of its May element.
pub(crate) fn element_degree(p: u32, op: Op, q: u32) -> u32
    requires prime { IsTrue (served p) }
    requires low { q ≤ 30 }
    requires defined { IsTrue (is_defined_at p q op) }
    ensures { result ≡ element_degree_at p q op }
{
    match op {
        Op::Square { k } => q - k,
        Op::Power { s } => (q - 2 * s) * (p - 1),
        Op::BocksteinPower { s } => (q - 2 * s) * (p - 1) - 1,
    }
}

/// The degree of the May element of the operation, where it is defined.
pub fn may_degree(p: u32, op: Op, q: u32) -> Option<u32>
    requires prime { IsTrue (served p) }
    requires low { q ≤ 30 }
    ensures { result ≡ may_degree_at p op q }
{
    if is_defined(p, op, q) {
        Some(element_degree(p, op, q))
    } else {
        None
    }
}

/// The degree of the result of the operation, where it is defined.
pub fn target(p: u32, op: Op, q: u32) -> Option<u32>
    requires prime { IsTrue (served p) }
    requires low { q ≤ 30 }
    ensures { result ≡ target_at p op q }
{
    if is_defined(p, op, q) {
        Some(target_degree(p, op, q))
    } else {
        None
    }
}
