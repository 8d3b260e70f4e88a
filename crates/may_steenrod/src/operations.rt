//! May operations, squares, powers and Bockstein powers on cochains.
ghost use Rattle.std.specs.Prelude.{◌≡◌, ◌≤◌, ◌<◌, ◌+◌, ◌-◌, ◌*◌, ◌%◌, ℕ, List, length, IfOk, IsSome, IsTrue};
ghost use Rattle.linear_law.specs.Names.{negated};
ghost use Rattle.fp_field.specs.Served.{served};
ghost use Rattle.sparse_rows.specs.Rows.{IsBelow};
ghost use Rattle.complex_index.specs.Names.{IsIndexOf, level};
ghost use Rattle.may_elements.specs.Stored.{stored_at};
ghost use Rattle.steenrod_law.specs.Names.{IsBocksteinPower, IsPower, may_operation, power_degree, scaled_operation};
ghost use Rattle.may_steenrod.specs.Cochains.{HasValues, IsClosed, cochain_in};

use crate::face_sum::FaceSum;
use crate::on::On;
use crate::places::row_of;
use complex_index::{Cochain, Indexed};
use fp_field::Fp;
use may_elements::MayTable;
use std::alloc::{AllocError, Global};

/// A multiple of the operation of degree d, for which what it sees of the May element is stored.
fn operation<const P: u32>(
    alloc: Global,
    table: &MayTable<P>,
    index: &Indexed,
    alpha: &Cochain<P>,
    d: u32,
    by: Fp<P>,
) -> Result<Cochain<P>, AllocError>
    requires prime { IsTrue (served P) }
    requires stored { IsSome (stored_at d alpha.now.degree table.now) }
    requires low { alpha.now.degree ≤ 15 }
    requires most { d ≤ P * alpha.now.degree }
    requires inside { IsBelow (length (level index.now alpha.now.degree)) alpha.now.row }
    ensures degree { IfOk result (λ r. r.degree ≡ P * alpha.now.degree - d) }
    ensures values { IfOk result (λ r. HasValues P index.now (P * alpha.now.degree - d) (scaled_operation P d by.entry alpha.now.degree (cochain_in index.now alpha.now.degree alpha.now.row)) r.row) }
{
    let Some(part) = table.part(d, alpha.degree) else {
        unreachable!()
    };
    let degree = P * alpha.degree - d;
    let sum = FaceSum::of_part(alloc, part, alpha.degree, d)?;
    let on = On::new(index, alpha);
    let values = sum.values(alloc, &on, degree, by)?;
    Ok(Cochain {
        degree,
        row: row_of(alloc, &values)?,
    })
}

/// The operation of degree d. On a cocycle it is a cocycle.
pub fn d_op<const P: u32>(
    alloc: Global,
    table: &MayTable<P>,
    index: &Indexed,
    alpha: &Cochain<P>,
    d: u32,
) -> Result<Cochain<P>, AllocError>
    requires prime { IsTrue (served P) }
    requires stored { IsSome (stored_at d alpha.now.degree table.now) }
    requires low { alpha.now.degree ≤ 15 }
    requires most { d ≤ P * alpha.now.degree }
    requires inside { IsBelow (length (level index.now alpha.now.degree)) alpha.now.row }
    ensures degree { IfOk result (λ r. r.degree ≡ P * alpha.now.degree - d) }
    ensures values { IfOk result (λ r. HasValues P index.now (P * alpha.now.degree - d) (may_operation P d alpha.now.degree (cochain_in index.now alpha.now.degree alpha.now.row)) r.row) }
    ensures closed { IfOk result (λ r. IsClosed P index.now alpha.now.degree alpha.now.row → IsClosed P index.now (P * alpha.now.degree - d) r.row) }
{
    operation(alloc, table, index, alpha, d, Fp::new(1))
}

/// The power `P^s`, for an odd prime. On a cocycle it is a cocycle.
pub fn p_op<const P: u32>(
    alloc: Global,
    table: &MayTable<P>,
    index: &Indexed,
    alpha: &Cochain<P>,
    s: u32,
) -> Result<Cochain<P>, AllocError>
    requires prime { IsTrue (served P) }
    requires odd { P % 2 ≡ 1 }
    requires low { alpha.now.degree ≤ 15 }
    requires defined { 2 * s ≤ alpha.now.degree }
    requires stored { IsSome (stored_at (power_degree P s alpha.now.degree) alpha.now.degree table.now) }
    requires inside { IsBelow (length (level index.now alpha.now.degree)) alpha.now.row }
    ensures degree { IfOk result (λ r. r.degree ≡ alpha.now.degree + 2 * s * (P - 1)) }
    ensures inside { IfOk result (λ r. IsBelow (length (level index.now (alpha.now.degree + 2 * s * (P - 1)))) r.row) }
    ensures power { IfOk result (λ r. (facets : List (List ℕ)) → IsIndexOf facets index.now → IsPower facets P s alpha.now.degree (cochain_in index.now alpha.now.degree alpha.now.row) (cochain_in index.now (alpha.now.degree + 2 * s * (P - 1)) r.row)) }
    ensures closed { IfOk result (λ r. IsClosed P index.now alpha.now.degree alpha.now.row → IsClosed P index.now (alpha.now.degree + 2 * s * (P - 1)) r.row) }
{
    let d = (alpha.degree - 2 * s) * (P - 1);
    operation(alloc, table, index, alpha, d, Fp::scale(alpha.degree, s))
}

/// The Bockstein power `bP^s`, for an odd prime. On a cocycle it is a cocycle.
pub fn bp_op<const P: u32>(
    alloc: Global,
    table: &MayTable<P>,
    index: &Indexed,
    alpha: &Cochain<P>,
    s: u32,
) -> Result<Cochain<P>, AllocError>
    requires prime { IsTrue (served P) }
    requires odd { P % 2 ≡ 1 }
    requires low { alpha.now.degree ≤ 15 }
    requires defined { 2 * s < alpha.now.degree }
    requires stored { IsSome (stored_at (power_degree P s alpha.now.degree - 1) alpha.now.degree table.now) }
    requires inside { IsBelow (length (level index.now alpha.now.degree)) alpha.now.row }
    ensures degree { IfOk result (λ r. r.degree ≡ alpha.now.degree + 2 * s * (P - 1) + 1) }
    ensures inside { IfOk result (λ r. IsBelow (length (level index.now (alpha.now.degree + 2 * s * (P - 1) + 1))) r.row) }
    ensures power { IfOk result (λ r. (facets : List (List ℕ)) → IsIndexOf facets index.now → IsBocksteinPower facets P s alpha.now.degree (cochain_in index.now alpha.now.degree alpha.now.row) (cochain_in index.now (alpha.now.degree + 2 * s * (P - 1) + 1) r.row)) }
    ensures closed { IfOk result (λ r. IsClosed P index.now alpha.now.degree alpha.now.row → IsClosed P index.now (alpha.now.degree + 2 * s * (P - 1) + 1) r.row) }
{
    let d = (alpha.degree - 2 * s) * (P - 1) - 1;
    operation(
        alloc,
        table,
        index,
        alpha,
        d,
        Fp::scale(alpha.degree, s).neg(),
    )
}
