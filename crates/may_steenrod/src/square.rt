//! Squares, by the closed formula.
ghost use Rattle.std.specs.Prelude.{◌≡◌, ◌≤◌, ◌<◌, ◌+◌, ◌-◌, ◌^◌, ◌∷◌, ℕ, List, [], length, pos, slice_index_or, IfOk};
ghost use Rattle.simplicial_law.specs.Names.{CongruentInt};
ghost use Rattle.interval_cut_law.specs.Names.{operation_value};
ghost use Rattle.table_reduction_law.specs.Names.{in_turn};
ghost use Rattle.sparse_rows.specs.Rows.{IsBelow};
ghost use Rattle.complex_index.specs.Names.{IsIndexOf, level};
ghost use Rattle.steenrod_law.specs.Names.{IsSquare, may_operation};
ghost use Rattle.may_steenrod.specs.Cochains.{HasValues, IsClosed, cochain_in};

use crate::on::On;
use crate::places::row_of;
use crate::product::cup;
use complex_index::{Cochain, Indexed};
use cup_i::cup_i_at;
use fp_field::Fp;
use interval_cut::Values;
use sparse_rows::Row;
use std::alloc::{AllocError, Global};

/// The cup-i products of a cochain with itself at the simplices of a degree.
fn square_values<const P: u32, V: Values<P>>(
    alloc: Global,
    index: &Indexed,
    alpha: &V,
    i: u32,
    degree: u32,
) -> Result<Vec<Fp<P>>, AllocError>
    requires two { P ≡ 2 }
    ensures long { IfOk result (λ v. length v.items ≡ length (level index.now degree)) }
    ensures few { IfOk result (λ v. length v.items < 2 ^ 32) }
    ensures values { IfOk result (λ v. (x : ℕ) → x < length (level index.now degree) →
        CongruentInt P (pos (slice_index_or v.items x 0)) (operation_value 2 (in_turn 1 2 (i + 2)) ((λ f. pos (V.value_of alpha.now f)) ∷ (λ f. pos (V.value_of alpha.now f)) ∷ []) (slice_index_or (level index.now degree) x []))) }
{
    let _degrees = index.degrees();
    let mut values = Vec::new(alloc);
    for place in 0..index.count(degree) {
        values.push(cup_i_at(i, alpha, alpha, index.simplex(degree, place)))?;
    }
    Ok(values)
}

/// The row of the square: that of the cochain for k = 0, that of its cup square for k its degree, else by the closed formula at
/// each simplex of its degree. The first two take time that is linear in what is not 0.
fn square_row<const P: u32>(
    alloc: Global,
    index: &Indexed,
    alpha: &Cochain<P>,
    k: u32,
) -> Result<Row<P>, AllocError>
    requires two { P ≡ 2 }
    requires low { alpha.now.degree ≤ 255 }
    requires defined { k ≤ alpha.now.degree }
    requires inside { IsBelow (length (level index.now alpha.now.degree)) alpha.now.row }
    ensures { IfOk result (λ r. HasValues P index.now (alpha.now.degree + k) (may_operation P (alpha.now.degree - k) alpha.now.degree (cochain_in index.now alpha.now.degree alpha.now.row)) r) }
{
    if k == 0 {
        return alpha.row.copy();
    }
    if k == alpha.degree {
        return Ok(cup(alloc, index, alpha, alpha)?.row);
    }
    let on = On::new(index, alpha);
    let values = square_values(alloc, index, &on, alpha.degree - k, alpha.degree + k)?;
    row_of(alloc, &values)
}

/// The square `Sq^k`, at 2, for k up to the degree of `alpha`. It raises the degree by k, and on a cocycle it
/// is a cocycle.
pub fn sq<const P: u32>(
    alloc: Global,
    index: &Indexed,
    alpha: &Cochain<P>,
    k: u32,
) -> Result<Cochain<P>, AllocError>
    requires two { P ≡ 2 }
    requires low { alpha.now.degree ≤ 255 }
    requires defined { k ≤ alpha.now.degree }
    requires inside { IsBelow (length (level index.now alpha.now.degree)) alpha.now.row }
    ensures degree { IfOk result (λ r. r.degree ≡ alpha.now.degree + k) }
    ensures inside { IfOk result (λ r. IsBelow (length (level index.now (alpha.now.degree + k))) r.row) }
    ensures square { IfOk result (λ r. (facets : List (List ℕ)) → IsIndexOf facets index.now → IsSquare facets k alpha.now.degree (cochain_in index.now alpha.now.degree alpha.now.row) (cochain_in index.now (alpha.now.degree + k) r.row)) }
    ensures closed { IfOk result (λ r. IsClosed P index.now alpha.now.degree alpha.now.row → IsClosed P index.now (alpha.now.degree + k) r.row) }
{
    Ok(Cochain {
        degree: alpha.degree + k,
        row: square_row(alloc, index, alpha, k)?,
    })
}
