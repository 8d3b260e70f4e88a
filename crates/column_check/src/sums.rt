//! Sums of rows: the values of a column times the classes, plus a coboundary.
ghost use Rattle.std.specs.Prelude.{◌≡◌, ◌↔◌, ◌+◌, ◌<◌, ℕ, true, length, map, IfOk, IsTrue, OnOk};
ghost use Rattle.linear_law.specs.Names.{Congruent, Each, combination};
ghost use Rattle.fp_field.specs.Served.{served};
ghost use Rattle.sparse_rows.specs.Rows.{IsBelow, value_in};
ghost use Rattle.complex_index.specs.Names.{level};
ghost use Rattle.may_steenrod.specs.Cochains.{cochain_in};
ghost use Rattle.report_text_law.specs.Names.{is_chain};
ghost use Rattle.certificate_law.specs.Names.{rank_in};
ghost use Rattle.column_check.specs.Listings.{IsBoundOf, IsColumnSum, IsListing, IsSumRowIn};

use crate::listing::Listing;
use complex_index::Cochain;
use fp_field::Fp;
use listed_rows::coboundary_of;
use report::Term;
use sparse_rows::Row;
use std::alloc::{AllocError, Global};

/// Adds the values times the cochains to a row.
fn add_classes<const P: u32>(
    sum: &mut Row<P>,
    values: &[u32],
    classes: &[Cochain<P>],
) -> Result<(), AllocError>
    requires prime { IsTrue (served P) }
    requires size { length values.now ≡ length classes.now }
    ensures inside { OnOk result ((bound : ℕ) → IsBelow bound sum.old → Each (λ z. IsBelow bound z.row) classes.now → IsBelow bound sum.new) }
    ensures sum { OnOk result ((k : ℕ) → Congruent P (value_in sum.new k) (combination values.now (map (λ z. value_in z.row) classes.now) k + value_in sum.old k)) }
{
    for (i, class) in classes.iter().enumerate() {
        sum.add_scaled(&class.row, Fp::new(values[i] as u64))?;
    }
    Ok(())
}

/// The values times the classes of degree `n`, plus the coboundary of a listed cochain of one degree less; `None` exactly
/// where one of its terms stands on no simplex of that degree.
fn sum_of<const P: u32>(
    alloc: Global,
    listing: &Listing<P>,
    n: u32,
    values: &[u32],
    primitive: &[Term],
) -> Result<Option<Row<P>>, AllocError>
    requires prime { IsTrue (served P) }
    requires of { IsListing listing.now }
    requires live { 0 < rank_in listing.now.part.now n }
    requires size { length values.now ≡ rank_in listing.now.part.now n }
    requires formed { is_chain P primitive.now ≡ true }
    ensures { IfOk result (λ found. IsSumRowIn listing.now.part.now listing.now.index.now n P values.now primitive.now found) }
{
    let Some(mut sum) = coboundary_of(alloc, listing.index, n, primitive)? else {
        return Ok(None);
    };
    add_classes(&mut sum, values, listing.classes(n))?;
    Ok(Some(sum))
}

/// Whether two rows are equal.
fn is_same<const P: u32>(row: &Row<P>, mut other: Row<P>) -> Result<bool, AllocError>
    requires { IsTrue (served P) }
    ensures { IfOk result (λ b. (bound : ℕ) → IsBelow bound row.now → IsBelow bound other.entry → (IsTrue b ↔ ((k : ℕ) → k < bound → Congruent P (value_in row.now k) (value_in other.entry k)))) }
{
    other.add_scaled(row, Fp::new(1).neg())?;
    Ok(other.is_zero())
}

/// Whether a row of degree `n` is the sum of the values times the classes and the coboundary of a listed cochain.
pub(crate) fn is_column<const P: u32>(
    alloc: Global,
    listing: &Listing<P>,
    n: u32,
    row: &Row<P>,
    values: &[u32],
    primitive: &[Term],
) -> Result<bool, AllocError>
    requires prime { IsTrue (served P) }
    requires of { IsListing listing.now }
    requires live { 0 < rank_in listing.now.part.now n }
    requires inside { IsBelow (length (level listing.now.index.now n)) row.now }
    requires size { length values.now ≡ rank_in listing.now.part.now n }
    requires formed { is_chain P primitive.now ≡ true }
    ensures { IfOk result (λ b. IsTrue b ↔ IsColumnSum listing.now.part.now n P (cochain_in listing.now.index.now n row.now) values.now primitive.now) }
{
    match sum_of(alloc, listing, n, values, primitive)? {
        Some(sum) => is_same(row, sum),
        None => Ok(false),
    }
}

/// Whether a row of degree `n` is the coboundary of a listed cochain.
pub(crate) fn is_bounded<const P: u32>(
    alloc: Global,
    listing: &Listing<P>,
    n: u32,
    row: &Row<P>,
    primitive: &[Term],
) -> Result<bool, AllocError>
    requires prime { IsTrue (served P) }
    requires of { IsListing listing.now }
    requires inside { IsBelow (length (level listing.now.index.now n)) row.now }
    requires formed { is_chain P primitive.now ≡ true }
    ensures { IfOk result (λ b. IsTrue b ↔ IsBoundOf listing.now.part.now.facets n P (cochain_in listing.now.index.now n row.now) primitive.now) }
{
    match coboundary_of(alloc, listing.index, n, primitive)? {
        Some(bound) => is_same(row, bound),
        None => Ok(false),
    }
}
