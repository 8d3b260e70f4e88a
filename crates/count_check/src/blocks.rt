//! The operation blocks.
ghost use Rattle.std.specs.Prelude.{◌≡◌, ◌↔◌, ◌<◌, ◌≤◌, ◌+◌, ◌^◌, ℕ, length, get_or, slice_get, sum_by, Some, IfOk, IsTrue};
ghost use Rattle.linear_law.specs.Names.{Each};
ghost use Rattle.report.specs.declared.complex.ComplexPart.{ComplexPart};
ghost use Rattle.report_law.specs.Names.{blocks as blocks_of, block_of, is_same_op, op_named, ranks_of};
ghost use Rattle.certificate_law.specs.Names.{Asks, numbered, operation_stated};
ghost use Rattle.certificate_walk.specs.Names.{operation_lines, IsWalk};

use crate::columns::columns;
use crate::rank::rank_at;
use certificate_walk::{Stop, ask};
use report::{Block, Op, OpWord, OperationPart};

/// Whether the operation has this word and number.
fn is_named(op: Op, word: OpWord, number: u32) -> bool
    ensures { result ≡ is_same_op op (op_named word number) }
{
    match (op, word) {
        (Op::Square { k }, OpWord::Sq) => k == number,
        (Op::Power { s }, OpWord::Power) => s == number,
        (Op::BocksteinPower { s }, OpWord::BocksteinPower) => s == number,
        _ => false,
    }
}

/// Whether an operation block is the live one at its place.
fn is_block(live: &[Block], place: usize, block: &OperationPart) -> bool
    ensures { IsTrue result ↔ (slice_get live.now place ≡ Some (block_of block.now)) }
{
    match live.get(place) {
        Some(expected) => {
            is_named(expected.op, block.word, block.number)
                && expected.from == block.from
                && expected.to == block.to
        }
        None => false,
    }
}

/// The walk of an operation block.
fn operation(
    ranks: &[u32],
    live: &[Block],
    place: usize,
    block: &OperationPart,
    before: u64,
) -> Result<u64, Stop>
    requires room { before + operation_lines block.now < 2 ^ 64 }
    ensures lines { IfOk result (λ last. last ≡ before + operation_lines block.now) }
    ensures walk { (c : ComplexPart) (p : ℕ) → ranks_of c ≡ ranks.now → blocks_of p (ranks_of c) ≡ live.now → IsWalk (Asks p 5) before (operation_stated c place block.now) result }
{
    let line = ask(is_block(live, place, block), before)?;
    let from = rank_at(ranks, u64::from(block.from));
    let to = rank_at(ranks, u64::from(block.to));
    columns(block.columns.as_slice(), from, to, line)
}

/// The walk of the operation blocks.
pub(crate) fn operations(
    ranks: &[u32],
    live: &[Block],
    listed: &[OperationPart],
    before: u64,
) -> Result<u64, Stop>
    requires room { before + sum_by operation_lines listed.now < 2 ^ 64 }
    ensures { (c : ComplexPart) (p : ℕ) → ranks_of c ≡ ranks.now → blocks_of p (ranks_of c) ≡ live.now → IsWalk (Asks p 5) before (numbered (operation_stated c) 0 listed.now) result }
{
    let mut at = before;
    for (place, block) in listed.iter().enumerate() {
        at = operation(ranks, live, place, block, at)?;
    }
    Ok(at)
}

/// Whether no column of the operation blocks is missing.
pub(crate) fn have_columns(ranks: &[u32], listed: &[OperationPart]) -> bool
    ensures { IsTrue result ↔ Each (λ x. get_or ranks.now x.from 0 ≤ length x.columns) listed.now }
{
    for block in listed {
        if (rank_at(ranks, u64::from(block.from)) as usize) > block.columns.len() {
            return false;
        }
    }
    true
}
