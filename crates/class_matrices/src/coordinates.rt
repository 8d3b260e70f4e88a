ghost use Rattle.std.specs.Prelude.{◌≡◌, ◌≤◌, ◌+◌, ◌-◌, ◌<◌, ◌^◌, Bool, List, ℕ, length, true, IfOk, IsTrue};
ghost use Rattle.fp_field.specs.Served.{served};
ghost use Rattle.linear_law.specs.Names.{negated};
ghost use Rattle.simplicial_law.specs.Names.{Cochain as SimplexCochain};
ghost use Rattle.complex_index.specs.declared.indexed.Cochain.{Cochain};
ghost use Rattle.report_law.specs.Names.{IsOperation, is_defined, target_degree};
ghost use Rattle.steenrod_law.specs.Names.{cup_product};
ghost use Rattle.class_matrices.specs.Names.{HasThese, IsSetting, unit_coordinates};

use crate::matrices::Matrices;
use crate::sums::{plus_scaled, unit, with_columns, with_products, zeros};
use cohomology::Basis;
use fp_field::Fp;
use report::{Block, Op, Product};
use std::alloc::{AllocError, Global};
use term_total::target;

/// The coordinates of a cocycle of a degree, for the canonical classes.
#[derive(Drop)]
pub struct Coordinates<const P: u32> {
    pub degree: u32,
    pub values: Vec<Fp<P>>,
}

/// The coordinates of the `i`-th class of degree `n`, from 1.
pub fn of_class<const P: u32, B: Basis<P>>(
    alloc: Global,
    basis: &B,
    n: u32,
    i: u32,
) -> Result<Coordinates<P>, AllocError>
    requires prime { IsTrue (served P) }
    requires from_one { 1 ≤ i }
    ensures degree { IfOk result (λ c. c.degree ≡ n) }
    ensures values { IfOk result (λ c. c.values.items ≡ unit_coordinates (length (B.classes basis.now n)) (i - 1)) }
{
    Ok(Coordinates {
        degree: n,
        values: unit(alloc, basis.rank(n), i - 1)?,
    })
}

/// The coordinates of an operation on a cocycle with these, of a degree of at most 30 on which it is defined.
pub fn operated<const P: u32, B: Basis<P>>(
    alloc: Global,
    basis: &B,
    matrices: &Matrices<P>,
    op: Op,
    of: &Coordinates<P>,
) -> Result<Coordinates<P>, AllocError>
    requires prime { IsTrue (served P) }
    requires low { of.now.degree ≤ 30 }
    requires defined { is_defined P of.now.degree op ≡ true }
    ensures degree { IfOk result (λ r. r.degree ≡ target_degree P of.now.degree op) }
    ensures result { IfOk result (λ r. (facets : List (List ℕ)) (levels : List (List (List ℕ))) (z b : SimplexCochain) → IsSetting B.keeps facets levels (B.classes basis.now) matrices.now →
        HasThese facets levels (B.classes basis.now) z of.now → IsOperation facets P op of.now.degree z b → HasThese facets levels (B.classes basis.now) b r) }
{
    let Some(to) = target(P, op, of.degree) else {
        unreachable!()
    };
    let from = of.degree;
    let columns = matrices.operation(Block { op, from, to });
    let zeros = zeros(alloc, basis.rank(to))?;
    Ok(Coordinates {
        degree: to,
        values: with_columns(alloc, Fp::new(1), columns, &of.values, zeros)?,
    })
}

/// The coordinates of the product of two cocycles with these.
pub fn product_of<const P: u32, B: Basis<P>>(
    alloc: Global,
    basis: &B,
    matrices: &Matrices<P>,
    first: &Coordinates<P>,
    second: &Coordinates<P>,
) -> Result<Coordinates<P>, AllocError>
    requires prime { IsTrue (served P) }
    requires low { first.now.degree + second.now.degree < 2 ^ 32 }
    ensures degree { IfOk result (λ r. r.degree ≡ first.now.degree + second.now.degree) }
    ensures product { IfOk result (λ r. (facets : List (List ℕ)) (levels : List (List (List ℕ))) (z w : SimplexCochain) → IsSetting B.keeps facets levels (B.classes basis.now) matrices.now →
        HasThese facets levels (B.classes basis.now) z first.now → HasThese facets levels (B.classes basis.now) w second.now →
        HasThese facets levels (B.classes basis.now) (cup_product P first.now.degree second.now.degree z w) r) }
{
    let (a, b) = (first.degree, second.degree);
    let columns = matrices.product(Product { a, b });
    let zeros = zeros(alloc, basis.rank(a + b))?;
    Ok(Coordinates {
        degree: a + b,
        values: with_products(alloc, columns, &first.values, &second.values, zeros)?,
    })
}

/// The coordinates of the difference of two cocycles of one degree.
pub fn difference<const P: u32>(
    alloc: Global,
    first: &Coordinates<P>,
    second: &Coordinates<P>,
) -> Result<Coordinates<P>, AllocError>
    requires prime { IsTrue (served P) }
    requires same { second.now.degree ≡ first.now.degree }
    ensures degree { IfOk result (λ r. r.degree ≡ first.now.degree) }
    ensures difference { IfOk result (λ r. (facets : List (List ℕ)) (levels : List (List (List ℕ))) (classes : ℕ → List (Cochain P)) (z w : SimplexCochain) →
        HasThese facets levels classes z first.now → HasThese facets levels classes w second.now → HasThese facets levels classes (λ s. z s + negated P (w s)) r) }
{
    let by = Fp::new(1).neg();
    Ok(Coordinates {
        degree: first.degree,
        values: plus_scaled(alloc, by, &second.values, &first.values)?,
    })
}
