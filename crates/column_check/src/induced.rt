//! Columns of pull-backs.
ghost use Rattle.std.specs.Prelude.{◌≡◌, ◌↔◌, ◌+◌, ◌<◌, ◌^◌, ℕ, [], ◌∷◌, get_or, length, IfOk, IsTrue};
ghost use Rattle.linear_law.specs.Names.{Each};
ghost use Rattle.fp_field.specs.Served.{served};
ghost use Rattle.certificate_law.specs.Names.{Asks, IsRightPullBack, rank_in, induced_column, induced_stated, numbered, with_stands};
ghost use Rattle.certificate_walk.specs.Names.{induced_lines, IsWalk};
ghost use Rattle.complex_file.specs.Names.{image};
ghost use Rattle.column_check.specs.{Listings.{IsListing, HasImagesOf}, Ready.{IsColumnReady, IsInducedReady}};

use crate::columns::ask_column;
use crate::listing::Listing;
use crate::sums::is_column;
use certificate_walk::Stop;
use complex_file::Sent;
use complex_index::{MapOn, pull};
use report::{Column, InducedPart, MapPart};
use std::alloc::{AllocError, Global};

/// The map of vertices with these sends, of which the first of a vertex counts.
pub(crate) fn map_of(alloc: Global, sends: &[Sent]) -> Result<MapOn, AllocError>
    ensures { IfOk result (λ m. (v : ℕ) → get_or m v 0 ≡ image sends.now v) }
{
    let mut pairs = Vec::new(alloc);
    for sent in sends {
        pairs.insert(0, (sent.from, sent.to))?;
    }
    MapOn::of(alloc, &pairs)
}

/// Whether a column is that of the pull-back of class `k` of the target, from 0.
fn is_pull_back<const P: u32>(
    alloc: Global,
    from: &Listing<P>,
    to: &Listing<P>,
    map: &MapOn,
    part: &InducedPart,
    k: u32,
    column: &Column,
) -> Result<bool, AllocError>
    requires prime { IsTrue (served P) }
    requires from { IsListing from.now }
    requires to { IsListing to.now }
    requires live { 0 < rank_in from.now.part.now part.now.q }
    requires inside { k < rank_in to.now.part.now part.now.q }
    requires small { k + 1 < 2 ^ 32 }
    requires column { IsColumnReady P (rank_in from.now.part.now part.now.q) column.now }
    ensures { IfOk result (λ b. (m : MapPart) → HasImagesOf map.now m → (IsTrue b ↔ IsRightPullBack from.now.part.now to.now.part.now P m part.now k column.now)) }
{
    let image = pull(alloc, map, from.index, to.index, to.class(part.q, k + 1))?;
    let values = column.values.as_slice();
    let primitive = column.primitive.as_slice();
    is_column(alloc, from, part.q, &image.row, values, primitive)
}

/// The walk of the column of class `k` of the target, from 0.
fn column_fault<const P: u32>(
    alloc: Global,
    from: &Listing<P>,
    to: &Listing<P>,
    map: &MapOn,
    part: &InducedPart,
    k: u32,
    column: &Column,
    before: u64,
) -> Result<u64, Stop>
    requires prime { IsTrue (served P) }
    requires from { IsListing from.now }
    requires to { IsListing to.now }
    requires live { 0 < rank_in from.now.part.now part.now.q }
    requires inside { k < rank_in to.now.part.now part.now.q }
    requires small { k + 1 < 2 ^ 32 }
    requires column { IsColumnReady P (rank_in from.now.part.now part.now.q) column.now }
    requires room { before + 2 < 2 ^ 64 }
    ensures lines { IfOk result (λ last. last ≡ before + 2) }
    ensures walk { (m : MapPart) → HasImagesOf map.now m → IsWalk (Asks P 7) before (induced_column from.now.part.now to.now.part.now m part.now k column.now ∷ with_stands column.now.primitive ∷ []) result }
{
    let is_right = is_pull_back(alloc, from, to, map, part, k, column)?;
    ask_column(is_right, before)
}

/// The walk of an induced block.
fn block_fault<const P: u32>(
    alloc: Global,
    from: &Listing<P>,
    to: &Listing<P>,
    map: &MapOn,
    part: &InducedPart,
    before: u64,
) -> Result<u64, Stop>
    requires prime { IsTrue (served P) }
    requires from { IsListing from.now }
    requires to { IsListing to.now }
    requires ready { IsInducedReady P from.now.part.now to.now.part.now part.now }
    requires room { before + induced_lines part.now < 2 ^ 64 }
    ensures { (m : MapPart) (k : ℕ) → HasImagesOf map.now m → IsWalk (Asks P 7) before (induced_stated from.now.part.now to.now.part.now m k part.now) result }
{
    let mut at = before + 1;
    for (k, column) in part.columns.as_slice().iter().enumerate() {
        at = column_fault(alloc, from, to, map, part, k as u32, column, at)?;
    }
    Ok(at)
}

/// The walk of all induced blocks of a map.
pub(crate) fn blocks_fault<const P: u32>(
    alloc: Global,
    from: &Listing<P>,
    to: &Listing<P>,
    part: &MapPart,
    before: u64,
) -> Result<u64, Stop>
    requires prime { IsTrue (served P) }
    requires from { IsListing from.now }
    requires to { IsListing to.now }
    requires ready { Each (IsInducedReady P from.now.part.now to.now.part.now) part.now.induced }
    requires room { before + length (numbered (induced_stated from.now.part.now to.now.part.now part.now) 0 part.now.induced) < 2 ^ 64 }
    ensures { IsWalk (Asks P 7) before (numbered (induced_stated from.now.part.now to.now.part.now part.now) 0 part.now.induced) result }
{
    let map = map_of(alloc, part.sends.as_slice())?;
    let mut at = before;
    for block in part.induced.as_slice() {
        at = block_fault(alloc, from, to, &map, block, at)?;
    }
    Ok(at)
}
