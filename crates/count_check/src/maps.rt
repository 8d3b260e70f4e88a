//! A map.
ghost use Rattle.std.specs.Prelude.{◌≡◌, ◌↔◌, ◌<◌, ◌≤◌, ◌+◌, ◌^◌, ℕ, List, length, get_or, slice_get, sum_by, Some, IfOk, IsTrue};
ghost use Rattle.linear_law.specs.Names.{Each};
ghost use Rattle.report.specs.declared.{complex.ComplexPart.{ComplexPart as Listed}, map.MapPart.{MapPart as ListedMap}};
ghost use Rattle.report_law.specs.Names.{induced_degrees as induced_degrees_of, ranks_of};
ghost use Rattle.certificate_law.specs.Names.{Asks, induced_stated, map_between, numbered};
ghost use Rattle.certificate_walk.specs.Names.{induced_lines, map_lines, IsWalk};
ghost use Rattle.count_check.specs.Columns.{AreFew, is_induced};

use crate::columns::columns;
use crate::rank::{rank_at, ranks};
use certificate_walk::{Stop, ask};
use report::{ComplexPart, InducedPart, MapPart};
use std::alloc::{AllocError, Global};

/// Whether the cohomology of both complexes is not zero in degree q.
fn is_shared(from: &[u32], to: &[u32], q: u32) -> bool
    ensures { result ≡ is_induced from.now to.now q }
{
    rank_at(from, u64::from(q)) > 0 && rank_at(to, u64::from(q)) > 0
}

/// The degrees in which a map between complexes of these ranks has a matrix.
fn induced_degrees(alloc: Global, from: &[u32], to: &[u32]) -> Result<Vec<u32>, AllocError>
    requires { length from.now ≤ 16 }
    ensures { IfOk result (λ v. v.items ≡ induced_degrees_of from.now to.now) }
{
    let mut found = Vec::new(alloc);
    for q in 0..from.len() as u32 {
        if is_shared(from, to, q) {
            found.push(q)?;
        }
    }
    Ok(found)
}

/// Whether an induced block is the one at its place.
fn is_block(live: &[u32], place: usize, block: &InducedPart) -> bool
    ensures { IsTrue result ↔ (slice_get live.now place ≡ Some block.now.q) }
{
    match live.get(place) {
        Some(q) => *q == block.q,
        None => false,
    }
}

/// The walk of an induced block.
fn block(
    from: &[u32],
    to: &[u32],
    live: &[u32],
    place: usize,
    block: &InducedPart,
    before: u64,
) -> Result<u64, Stop>
    requires room { before + induced_lines block.now < 2 ^ 64 }
    ensures lines { IfOk result (λ last. last ≡ before + induced_lines block.now) }
    ensures walk { (c d : Listed) (m : ListedMap) (p : ℕ) → ranks_of c ≡ from.now → ranks_of d ≡ to.now → induced_degrees_of (ranks_of c) (ranks_of d) ≡ live.now → IsWalk (Asks p 5) before (induced_stated c d m place block.now) result }
{
    let line = ask(is_block(live, place, block), before)?;
    let q = u64::from(block.q);
    columns(
        block.columns.as_slice(),
        rank_at(to, q),
        rank_at(from, q),
        line,
    )
}

/// The walk of the induced blocks.
fn blocks(
    from: &[u32],
    to: &[u32],
    live: &[u32],
    listed: &[InducedPart],
    before: u64,
) -> Result<u64, Stop>
    requires room { before + sum_by induced_lines listed.now < 2 ^ 64 }
    ensures { (c d : Listed) (m : ListedMap) (p : ℕ) → ranks_of c ≡ from.now → ranks_of d ≡ to.now → induced_degrees_of (ranks_of c) (ranks_of d) ≡ live.now → IsWalk (Asks p 5) before (numbered (induced_stated c d m) 0 listed.now) result }
{
    let mut at = before;
    for (place, part) in listed.iter().enumerate() {
        at = block(from, to, live, place, part, at)?;
    }
    Ok(at)
}

/// Whether no column of the induced blocks is missing.
fn have_columns(to: &[u32], listed: &[InducedPart]) -> bool
    ensures { IsTrue result ↔ Each (λ x. get_or to.now x.q 0 ≤ length x.columns) listed.now }
{
    for block in listed {
        if (rank_at(to, u64::from(block.q)) as usize) > block.columns.len() {
            return false;
        }
    }
    true
}

/// Whether no induced block and no column is missing.
fn has_all(live: &[u32], to: &[u32], listed: &[InducedPart]) -> bool
    ensures { IsTrue result ↔ ((length live.now ≤ length listed.now) × Each (λ x. get_or to.now x.q 0 ≤ length x.columns) listed.now) }
{
    live.len() <= listed.len() && have_columns(to, listed)
}

/// The first line of a map between two complexes that fails the fifth condition, where `before` lines stand before it: an induced
/// block or a column that is not the one at its place, or the end where one is missing.
pub fn map_count_fault(
    alloc: Global,
    from: &ComplexPart,
    to: &ComplexPart,
    map: &MapPart,
    before: u64,
) -> Result<u64, Stop>
    requires from { AreFew from.now.degrees }
    requires to { AreFew to.now.degrees }
    requires low { length from.now.degrees ≤ 16 }
    requires room { before + map_lines map.now < 2 ^ 64 }
    ensures { (cs : List Listed) (earlier : List ListedMap) (p : ℕ) → IsWalk (Asks p 5) before (map_between from.now to.now cs earlier map.now) result }
{
    let from = ranks(alloc, from.degrees.as_slice())?;
    let to = ranks(alloc, to.degrees.as_slice())?;
    let live = induced_degrees(alloc, &from, &to)?;
    let at = before + 1 + map.sends.len() as u64;
    let at = blocks(&from, &to, &live, map.induced.as_slice(), at)?;
    ask(has_all(&live, &to, map.induced.as_slice()), at)
}
