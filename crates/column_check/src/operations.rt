//! Columns of operations.
ghost use Rattle.std.specs.Prelude.{◌≡◌, ◌↔◌, ◌+◌, ◌<◌, ◌^◌, ℕ, [], ◌∷◌, length, IfOk, IsTrue};
ghost use Rattle.linear_law.specs.Names.{Each};
ghost use Rattle.fp_field.specs.Served.{served};
ghost use Rattle.certificate_law.specs.Names.{Asks, IsRightOperation, rank_in, numbered, operation_column, operation_stated, with_stands};
ghost use Rattle.certificate_walk.specs.Names.{operation_lines, IsWalk};
ghost use Rattle.report_law.specs.Names.{op_of as op_of_part};
ghost use Rattle.column_check.specs.{Listings.IsListing, Ready.{IsColumnReady, IsOperationReady}};

use crate::columns::ask_column;
use crate::listing::Listing;
use crate::sums::is_column;
use certificate_walk::Stop;
use line_difference::operation;
use may_elements::MayTable;
use report::{Column, Op, OpWord, OperationPart};
use std::alloc::{AllocError, Global};

/// The operation of a block.
fn op_of(part: &OperationPart) -> Op
    ensures { result ≡ op_of_part part.now }
{
    match part.word {
        OpWord::Sq => Op::Square { k: part.number },
        OpWord::Power => Op::Power { s: part.number },
        OpWord::BocksteinPower => Op::BocksteinPower { s: part.number },
    }
}

/// Whether a column is that of the operation on class `k`, from 0.
fn is_operation<const P: u32>(
    alloc: Global,
    table: &MayTable<P>,
    listing: &Listing<P>,
    part: &OperationPart,
    k: u32,
    column: &Column,
) -> Result<bool, AllocError>
    requires prime { IsTrue (served P) }
    requires of { IsListing listing.now }
    requires ready { IsOperationReady P table.now listing.now.part.now part.now }
    requires inside { k < rank_in listing.now.part.now part.now.from }
    requires small { k + 1 < 2 ^ 32 }
    requires column { IsColumnReady P (rank_in listing.now.part.now part.now.to) column.now }
    ensures { IfOk result (λ b. IsTrue b ↔ IsRightOperation listing.now.part.now P part.now k column.now) }
{
    let class = listing.class(part.from, k + 1);
    let image = operation(alloc, table, listing.index, op_of(part), class)?;
    let values = column.values.as_slice();
    let primitive = column.primitive.as_slice();
    is_column(alloc, listing, part.to, &image.row, values, primitive)
}

/// The walk of the column of class `k`, from 0.
fn column_fault<const P: u32>(
    alloc: Global,
    table: &MayTable<P>,
    listing: &Listing<P>,
    part: &OperationPart,
    k: u32,
    column: &Column,
    before: u64,
) -> Result<u64, Stop>
    requires prime { IsTrue (served P) }
    requires of { IsListing listing.now }
    requires ready { IsOperationReady P table.now listing.now.part.now part.now }
    requires inside { k < rank_in listing.now.part.now part.now.from }
    requires small { k + 1 < 2 ^ 32 }
    requires column { IsColumnReady P (rank_in listing.now.part.now part.now.to) column.now }
    requires room { before + 2 < 2 ^ 64 }
    ensures { IsWalk (Asks P 6) before (operation_column listing.now.part.now part.now k column.now ∷ with_stands column.now.primitive ∷ []) result }
{
    ask_column(
        is_operation(alloc, table, listing, part, k, column)?,
        before,
    )
}

/// The walk of an operation block.
fn operation_fault<const P: u32>(
    alloc: Global,
    table: &MayTable<P>,
    listing: &Listing<P>,
    part: &OperationPart,
    before: u64,
) -> Result<u64, Stop>
    requires prime { IsTrue (served P) }
    requires of { IsListing listing.now }
    requires ready { IsOperationReady P table.now listing.now.part.now part.now }
    requires room { before + operation_lines part.now < 2 ^ 64 }
    ensures { (k : ℕ) → IsWalk (Asks P 6) before (operation_stated listing.now.part.now k part.now) result }
{
    let mut at = before + 1;
    for (k, column) in part.columns.as_slice().iter().enumerate() {
        at = column_fault(alloc, table, listing, part, k as u32, column, at)?;
    }
    Ok(at)
}

/// The walk of all operation blocks.
pub(crate) fn operations_fault<const P: u32>(
    alloc: Global,
    table: &MayTable<P>,
    listing: &Listing<P>,
    before: u64,
) -> Result<u64, Stop>
    requires prime { IsTrue (served P) }
    requires of { IsListing listing.now }
    requires ready { Each (IsOperationReady P table.now listing.now.part.now) listing.now.part.now.operations }
    requires room { before + length (numbered (operation_stated listing.now.part.now) 0 listing.now.part.now.operations) < 2 ^ 64 }
    ensures { IsWalk (Asks P 6) before (numbered (operation_stated listing.now.part.now) 0 listing.now.part.now.operations) result }
{
    let mut at = before;
    for part in listing.part.operations.as_slice() {
        at = operation_fault(alloc, table, listing, part, at)?;
    }
    Ok(at)
}
