ghost use Rattle.std.specs.Prelude.{◌≡◌, ◌↔◌, ◌≤◌, ◌+◌, ℕ, List, length, false, true, IfOk, IsTrue};
ghost use Rattle.fp_field.specs.Served.{served};
ghost use Rattle.simplicial_law.specs.Names.{Cochain as SimplexCochain, HasCoordinates};
ghost use Rattle.complex_index.specs.{declared.indexed.Cochain.Cochain, Names.level};
ghost use Rattle.cohomology.specs.Names.{chains_at, cochains_at};
ghost use Rattle.report_law.specs.Names.{IsAnswer, cartan_op as cartan_op_at, cartan_pairs as cartan_pairs_of, is_defined, target_degree, line_degree};
ghost use Rattle.class_matrices.specs.Names.{HasThese, IsSetting, class_counts, AreMatrices};
ghost use Rattle.cartan_check.specs.{ByMatrices.{HasPart, IsLessParts}, Verdicts.{HasChain, IsVerdictOf, listed_answer}};

use crate::{Verdict, first_place};
use class_matrices::{Coordinates, Matrices, difference, of_class, operated, product_of};
use cohomology::Basis;
use fp_field::Fp;
use report::Line;
use std::alloc::{AllocError, Global};
use term_total::{cartan_op, cartan_pairs};

/// The coordinates of the product of the operations of a pair on two cocycles.
fn part<const P: u32, B: Basis<P>>(
    alloc: Global,
    basis: &B,
    matrices: &Matrices<P>,
    pair: (u32, u32),
    x: &Coordinates<P>,
    y: &Coordinates<P>,
) -> Result<Coordinates<P>, AllocError>
    requires prime { IsTrue (served P) }
    requires low { x.now.degree + y.now.degree ≤ 15 }
    requires first { is_defined P x.now.degree (cartan_op_at P pair.0) ≡ true }
    requires second { is_defined P y.now.degree (cartan_op_at P pair.1) ≡ true }
    ensures degree { IfOk result (λ r. r.degree ≡ target_degree P x.now.degree (cartan_op_at P pair.0) + target_degree P y.now.degree (cartan_op_at P pair.1)) }
    ensures part { IfOk result (λ r. (facets : List (List ℕ)) (levels : List (List (List ℕ))) (z w : SimplexCochain) → IsSetting B.keeps facets levels (B.classes basis.now) matrices.now →
        HasThese facets levels (B.classes basis.now) z x.now → HasThese facets levels (B.classes basis.now) w y.now → HasPart facets levels (B.classes basis.now) x.now.degree y.now.degree z w pair r) }
{
    let left = operated(alloc, basis, matrices, cartan_op(P, pair.0), x)?;
    let right = operated(alloc, basis, matrices, cartan_op(P, pair.1), y)?;
    product_of(alloc, basis, matrices, &left, &right)
}

/// These coordinates less those of the products of the operations of a line on two cocycles.
fn less_parts<const P: u32, B: Basis<P>>(
    alloc: Global,
    basis: &B,
    matrices: &Matrices<P>,
    line: Line,
    x: &Coordinates<P>,
    y: &Coordinates<P>,
    mut rest: Coordinates<P>,
) -> Result<Coordinates<P>, AllocError>
    requires prime { IsTrue (served P) }
    requires low { line.a + line.b ≤ 15 }
    requires defined { is_defined P (line.a + line.b) (cartan_op_at P line.n) ≡ true }
    requires first { x.now.degree ≡ line.a }
    requires second { y.now.degree ≡ line.b }
    requires degree { rest.degree ≡ line_degree P line }
    ensures degree { IfOk result (λ r. r.degree ≡ line_degree P line) }
    ensures less { IfOk result (λ r. (facets : List (List ℕ)) (levels : List (List (List ℕ))) (z w whole : SimplexCochain) → IsSetting B.keeps facets levels (B.classes basis.now) matrices.now →
        HasThese facets levels (B.classes basis.now) z x.now → HasThese facets levels (B.classes basis.now) w y.now → HasThese facets levels (B.classes basis.now) whole rest.entry →
        IsLessParts facets levels (B.classes basis.now) line z w whole (cartan_pairs_of P line.a line.b line.n) r) }
{
    let pairs = cartan_pairs(alloc, P, line.a, line.b, line.n)?;
    for pair in pairs.as_slice() {
        let part = part(alloc, basis, matrices, *pair, x, y)?;
        rest = difference(alloc, &rest, &part)?;
    }
    Ok(rest)
}

/// The verdict on a cocycle with these coordinates for `rank` classes, without chains.
fn verdict_of_values<const P: u32>(values: &[Fp<P>], rank: u32) -> Verdict<P>
    requires { IsTrue (served P) }
    ensures answer { (facets : List (List ℕ)) (levels : List (List (List ℕ))) (n : ℕ) (classes : List (Cochain P)) (z : SimplexCochain) → rank ≡ length classes → HasCoordinates facets n P (cochains_at levels n classes) z values.now →
        IsAnswer false facets n P (chains_at (level levels n) classes) z (listed_answer levels n result) }
    ensures kept { HasChain false result }
{
    match first_place(values, rank) {
        Some(place) => Verdict::No {
            value: values[place as usize],
            cycle: None,
        },
        None => Verdict::Yes { primitive: None },
    }
}

/// Whether the operation of a line is Sq^0, which is the identity.
fn is_identity(p: u32, line: Line) -> bool
    ensures { IsTrue result ↔ ((p ≡ 2) × (line.n ≡ 0)) }
{
    p == 2 && line.n == 0
}

/// The verdict on a line, without chains, from the matrices of a complex. The operation is defined on the degree of the product
/// of its two classes, which is at most 15. The answer for Sq^0, which is the identity, is yes at once.
pub fn cartan_by_matrices<const P: u32, B: Basis<P>>(
    alloc: Global,
    basis: &B,
    matrices: &Matrices<P>,
    line: Line,
) -> Result<Verdict<P>, AllocError>
    requires prime { IsTrue (served P) }
    requires low { line.a + line.b ≤ 15 }
    requires defined { is_defined P (line.a + line.b) (cartan_op_at P line.n) ≡ true }
    requires first { (1 ≤ line.i) × (line.i ≤ length (B.classes basis.now line.a)) }
    requires second { (1 ≤ line.j) × (line.j ≤ length (B.classes basis.now line.b)) }
    ensures { IfOk result (λ v. (levels : List (List (List ℕ))) → B.is_of levels basis.now → AreMatrices B.keeps levels (B.classes basis.now) (class_counts levels (B.classes basis.now)) matrices.now → IsVerdictOf false levels (B.classes basis.now) line v) }
{
    if is_identity(P, line) {
        return Ok(Verdict::Yes { primitive: None });
    }
    let x = of_class(alloc, basis, line.a, line.i)?;
    let y = of_class(alloc, basis, line.b, line.j)?;
    let product = product_of(alloc, basis, matrices, &x, &y)?;
    let whole = operated(alloc, basis, matrices, cartan_op(P, line.n), &product)?;
    let rest = less_parts(alloc, basis, matrices, line, &x, &y, whole)?;
    Ok(verdict_of_values(&rest.values, basis.rank(rest.degree)))
}
