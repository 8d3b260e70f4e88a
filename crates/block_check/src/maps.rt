//! The maps.
ghost use Rattle.std.specs.Prelude.{◌≡◌, ◌<◌, ◌+◌, ◌^◌, [], ℕ, map, sum_by, IfOk};
ghost use Rattle.report.specs.declared.complex.ComplexPart.{ComplexPart as ListedComplex};
ghost use Rattle.certificate_law.specs.Names.{Asks, itself, behind, map_stated};
ghost use Rattle.certificate_walk.specs.Names.{map_lines as map_lines_of, IsWalk};
ghost use Rattle.block_check.specs.Blocks.{fault_line, under_map};

use crate::names::{block_named, is_new_map};
use certificate_walk::{Stop, map_lines};
use comch_io::Listed;
use complex_file::{BlockFault, ComplexBlock, MapBlock, Name, map_fault};
use report::{ComplexPart, MapPart};
use std::alloc::{AllocError, Global};

/// The map with these sends, between complexes whose places are not looked at.
fn block_of(alloc: Global, map: &MapPart) -> Result<MapBlock, AllocError>
    ensures { IfOk result (λ b. b.sends ≡ map.now.sends) }
{
    Ok(MapBlock {
        name: Name::new(alloc, map.name.bytes())?,
        from: 0,
        to: 0,
        sends: Listed::from(Vec::from_slice(alloc, map.sends.as_slice())?),
    })
}

/// The line of a fault of a map behind `before` lines: that of the send at its place, or else the end.
fn line_of(map: &MapPart, fault: &BlockFault, before: u64) -> u64
    requires { before + map_lines_of map.now < 2 ^ 64 }
    ensures { result ≡ fault_line map.now fault.now.at before }
{
    if fault.at < map.sends.len() as u64 {
        before + fault.at + 2
    } else {
        before + map_lines(map)
    }
}

/// The walk of a map from its second line on, where `before` lines stand before its first.
fn sends(
    alloc: Global,
    from: &ComplexBlock,
    to: &ComplexBlock,
    map: &MapPart,
    before: u64,
) -> Result<u64, Stop>
    requires { before + map_lines_of map.now < 2 ^ 64 }
    ensures lines { IfOk result (λ last. last ≡ before + map_lines_of map.now) }
    ensures walk { (p : ℕ) (c d : ListedComplex) → c.facets ≡ from.now.facets → d.facets ≡ to.now.facets → IsWalk (Asks p 1) (before + 1) (under_map c d map.now) result }
{
    let block = block_of(alloc, map)?;
    match map_fault(alloc, &block, from, to)? {
        None => Ok(before + map_lines(map)),
        Some(fault) => Err(Stop::Fails {
            line: line_of(map, &fault, before),
        }),
    }
}

/// The walk of a map, behind these complexes and maps.
fn map(
    alloc: Global,
    complexes: &[ComplexPart],
    blocks: &[ComplexBlock],
    earlier: &[MapPart],
    part: &MapPart,
    before: u64,
) -> Result<u64, Stop>
    requires blocks { map itself complexes.now ≡ blocks.now }
    requires room { before + map_lines_of part.now < 2 ^ 64 }
    ensures lines { IfOk result (λ last. last ≡ before + map_lines_of part.now) }
    ensures walk { (p : ℕ) → IsWalk (Asks p 1) before (map_stated complexes.now earlier.now part.now) result }
{
    let line = before + 1;
    let Some(from) = block_named(blocks, part.from.bytes()) else {
        return Err(Stop::Fails { line });
    };
    let Some(to) = block_named(blocks, part.to.bytes()) else {
        return Err(Stop::Fails { line });
    };
    if !is_new_map(complexes, earlier, part) {
        return Err(Stop::Fails { line });
    }
    sends(alloc, from, to, part, before)
}

/// The walk of maps, behind these complexes.
pub(crate) fn maps(
    alloc: Global,
    complexes: &[ComplexPart],
    blocks: &[ComplexBlock],
    parts: &[MapPart],
    before: u64,
) -> Result<u64, Stop>
    requires blocks { map itself complexes.now ≡ blocks.now }
    requires room { before + sum_by map_lines_of parts.now < 2 ^ 64 }
    ensures { (p : ℕ) → IsWalk (Asks p 1) before (behind (map_stated complexes.now) [] parts.now) result }
{
    let mut at = before;
    for (place, part) in parts.iter().enumerate() {
        at = map(alloc, complexes, blocks, &parts[..place], part, at)?;
    }
    Ok(at)
}
