//! The complexes, and all blocks.
ghost use Rattle.std.specs.Prelude.{◌≡◌, ◌<◌, ◌+◌, ◌^◌, [], ℕ, length, map, sum_by, IfOk};
ghost use Rattle.certificate_law.specs.Names.{Asks, itself, behind, complex_stated, stated};
ghost use Rattle.certificate_walk.specs.Names.{complex_lines as complex_lines_of, IsWalk};
ghost use Rattle.block_check.specs.Blocks.{walked};

use crate::facets::facets;
use crate::maps::maps;
use crate::names::is_new_complex;
use certificate_walk::{Stop, ask, complex_lines, complexes_lines};
use complex_file::{ComplexBlock, Name};
use report::{ComplexPart, Report};
use std::alloc::Global;

/// The walk of a complex behind these, which is kept.
fn complex(
    alloc: Global,
    earlier: &[ComplexPart],
    part: &ComplexPart,
    before: u64,
) -> Result<ComplexBlock, Stop>
    requires { before + complex_lines_of part.now < 2 ^ 64 }
    ensures walk { (p : ℕ) → IsWalk (Asks p 1) before (complex_stated earlier.now part.now) (walked (before + complex_lines_of part.now) result) }
    ensures kept { IfOk result (λ b. b ≡ itself part.now) }
{
    let line = ask(is_new_complex(earlier, part), before)?;
    let complex = facets(alloc, part.facets.as_slice(), line)?;
    Ok(ComplexBlock {
        name: Name::new(alloc, part.name.bytes())?,
        facets: complex.into_complex(alloc)?,
    })
}

/// The walk of complexes, which are kept.
fn complexes(alloc: Global, parts: &[ComplexPart], before: u64) -> Result<Vec<ComplexBlock>, Stop>
    requires { before + sum_by complex_lines_of parts.now < 2 ^ 64 }
    ensures walk { (p : ℕ) → IsWalk (Asks p 1) before (behind complex_stated [] parts.now) (walked (before + sum_by complex_lines_of parts.now) result) }
    ensures kept { IfOk result (λ v. v.items ≡ map itself parts.now) }
{
    let mut blocks = Vec::new(alloc);
    let mut at = before;
    for (place, part) in parts.iter().enumerate() {
        blocks.push(complex(alloc, &parts[..place], part, at)?)?;
        at += complex_lines(part);
    }
    Ok(blocks)
}

/// The complexes of a certificate whose blocks are those of a job, or its first line that is none of a job: a complex or a map
/// with a name that an earlier block has, a map of no such complexes, a ninth block of its kind, a facet or a send at fault, or the end of
/// a map at fault.
pub fn block_fault(alloc: Global, report: &Report) -> Result<Vec<ComplexBlock>, Stop>
    requires { length (stated report.now) < 2 ^ 64 }
    ensures walk { (p : ℕ) → IsWalk (Asks p 1) 0 (stated report.now) (walked (length (stated report.now)) result) }
    ensures kept { IfOk result (λ v. v.items ≡ map itself report.now.complexes) }
{
    let parts = report.complexes.as_slice();
    let blocks = complexes(alloc, parts, 2)?;
    let at = 2 + complexes_lines(parts);
    maps(alloc, parts, &blocks, report.maps.as_slice(), at)?;
    Ok(blocks)
}
