//! Columns of products.
ghost use Rattle.std.specs.Prelude.{◌+◌, ◌↔◌, ◌<◌, ◌≤◌, ◌^◌, ℕ, [], ◌∷◌, length, IfOk, IsTrue};
ghost use Rattle.linear_law.specs.Names.{Each};
ghost use Rattle.fp_field.specs.Served.{served};
ghost use Rattle.certificate_law.specs.Names.{Asks, IsRightProduct, rank_in, numbered, product_column, product_stated, with_stands};
ghost use Rattle.certificate_walk.specs.Names.{product_lines, IsWalk};
ghost use Rattle.column_check.specs.{Listings.IsListing, Ready.{IsPairReady, IsProductReady}};

use crate::columns::ask_column;
use crate::listing::Listing;
use crate::sums::is_column;
use certificate_walk::Stop;
use may_steenrod::cup;
use report::{PairColumn, ProductPart};
use std::alloc::{AllocError, Global};

/// Whether a column is that of the product of its classes.
fn is_product<const P: u32>(
    alloc: Global,
    listing: &Listing<P>,
    part: &ProductPart,
    column: &PairColumn,
) -> Result<bool, AllocError>
    requires prime { IsTrue (served P) }
    requires of { IsListing listing.now }
    requires low { part.now.a + part.now.b ≤ 15 }
    requires live { 0 < rank_in listing.now.part.now (part.now.a + part.now.b) }
    requires ready { IsPairReady P listing.now.part.now part.now column.now }
    ensures { IfOk result (λ b. IsTrue b ↔ IsRightProduct listing.now.part.now P part.now column.now) }
{
    let left = listing.class(part.a, column.i);
    let product = cup(alloc, listing.index, left, listing.class(part.b, column.j))?;
    let values = column.values.as_slice();
    let primitive = column.primitive.as_slice();
    is_column(
        alloc,
        listing,
        part.a + part.b,
        &product.row,
        values,
        primitive,
    )
}

/// The walk of a column.
fn column_fault<const P: u32>(
    alloc: Global,
    listing: &Listing<P>,
    part: &ProductPart,
    column: &PairColumn,
    before: u64,
) -> Result<u64, Stop>
    requires prime { IsTrue (served P) }
    requires of { IsListing listing.now }
    requires low { part.now.a + part.now.b ≤ 15 }
    requires live { 0 < rank_in listing.now.part.now (part.now.a + part.now.b) }
    requires ready { IsPairReady P listing.now.part.now part.now column.now }
    requires room { before + 2 < 2 ^ 64 }
    ensures { (k : ℕ) → IsWalk (Asks P 6) before (product_column listing.now.part.now part.now k column.now ∷ with_stands column.now.primitive ∷ []) result }
{
    ask_column(is_product(alloc, listing, part, column)?, before)
}

/// The walk of a block of products.
fn product_fault<const P: u32>(
    alloc: Global,
    listing: &Listing<P>,
    part: &ProductPart,
    before: u64,
) -> Result<u64, Stop>
    requires prime { IsTrue (served P) }
    requires of { IsListing listing.now }
    requires ready { IsProductReady P listing.now.part.now part.now }
    requires room { before + product_lines part.now < 2 ^ 64 }
    ensures { (k : ℕ) → IsWalk (Asks P 6) before (product_stated listing.now.part.now k part.now) result }
{
    let mut at = before + 1;
    for column in part.columns.as_slice() {
        at = column_fault(alloc, listing, part, column, at)?;
    }
    Ok(at)
}

/// The walk of all blocks of products.
pub(crate) fn products_fault<const P: u32>(
    alloc: Global,
    listing: &Listing<P>,
    before: u64,
) -> Result<u64, Stop>
    requires prime { IsTrue (served P) }
    requires of { IsListing listing.now }
    requires ready { Each (IsProductReady P listing.now.part.now) listing.now.part.now.products }
    requires room { before + length (numbered (product_stated listing.now.part.now) 0 listing.now.part.now.products) < 2 ^ 64 }
    ensures { IsWalk (Asks P 6) before (numbered (product_stated listing.now.part.now) 0 listing.now.part.now.products) result }
{
    let mut at = before;
    for part in listing.part.products.as_slice() {
        at = product_fault(alloc, listing, part, at)?;
    }
    Ok(at)
}
