//! The conditions on complexes.
ghost use Rattle.std.specs.{Prelude.{◌≡◌, ◌<◌, ◌≤◌, ◌+◌, ◌^◌, [], ℕ, List, length, map, sum_by, IfOk, IsTrue}, List.AllZip};
ghost use Rattle.linear_law.specs.Names.{Each, IsAscending};
ghost use Rattle.simplicial_law.specs.ListedSimplices.{simplices};
ghost use Rattle.fp_field.specs.Served.{served};
ghost use Rattle.complex_index.specs.Names.{IsIndexOf};
ghost use Rattle.report.specs.declared.complex.ComplexPart.{ComplexPart as Listed};
ghost use Rattle.report_law.specs.Names.{ranks_of};
ghost use Rattle.certificate_law.specs.Names.{Asks, behind, complex_stated};
ghost use Rattle.certificate_walk.specs.Names.{complex_lines as complex_lines_of, IsWalk};
ghost use Rattle.line_difference.specs.Elements.{AreStored};
ghost use Rattle.cert_check.specs.Ready.{AreAllStored, CanIndex, IsReady};

use certificate_walk::{Stop, complex_lines};
use class_check::{class_fault, coboundary_fault, cocycle_fault};
use column_check::{cartan_fault, column_fault};
use complex_file::ComplexBlock;
use complex_index::Indexed;
use count_check::count_fault;
use may_elements::MayTable;
use report::ComplexPart;
use std::alloc::{AllocError, Global};

/// The indexes of complexes.
pub(crate) fn indexes(alloc: Global, blocks: &[ComplexBlock]) -> Result<Vec<Indexed>, AllocError>
    requires { Each (λ b. CanIndex b.facets) blocks.now }
    ensures { IfOk result (λ v. AllZip (λ x b. IsIndexOf b.facets x) v.items blocks.now) }
{
    let mut indexes = Vec::new(alloc);
    for block in blocks {
        indexes.push(Indexed::of(alloc, &block.facets)?)?;
    }
    Ok(indexes)
}

/// The walk of a complex for one of the conditions from 2 to 8.
fn complex_fault<const P: u32>(
    alloc: Global,
    condition: u8,
    part: &ComplexPart,
    index: &Indexed,
    table: &MayTable<P>,
    before: u64,
) -> Result<u64, Stop>
    requires prime { IsTrue (served P) }
    requires low { 2 ≤ condition }
    requires high { condition ≤ 8 }
    requires ready { IsReady P condition index.now part.now }
    requires stored { 5 < condition → AreStored P table.now (ranks_of part.now) }
    requires room { before + complex_lines_of part.now < 2 ^ 64 }
    ensures { (earlier : List Listed) → IsWalk (Asks P condition) before (complex_stated earlier part.now) result }
{
    match condition {
        2 => coboundary_fault::<P>(alloc, part, index, before),
        3 => cocycle_fault::<P>(alloc, part, index, before),
        4 => class_fault::<P>(alloc, part, index, before),
        5 => count_fault(alloc, P, part, index, before),
        6 => column_fault(alloc, table, part, index, before),
        8 => cartan_fault(alloc, table, part, index, before),
        _ => Ok(before + complex_lines(part)),
    }
}

/// The walk of complexes for one of the conditions from 2 to 8.
pub(crate) fn complexes_fault<const P: u32>(
    alloc: Global,
    condition: u8,
    parts: &[ComplexPart],
    indexes: &[Indexed],
    table: &MayTable<P>,
    before: u64,
) -> Result<u64, Stop>
    requires prime { IsTrue (served P) }
    requires low { 2 ≤ condition }
    requires high { condition ≤ 8 }
    requires ready { AllZip (IsReady P condition) indexes.now parts.now }
    requires stored { AreAllStored P condition table.now parts.now }
    requires room { before + sum_by complex_lines_of parts.now < 2 ^ 64 }
    ensures { IsWalk (Asks P condition) before (behind complex_stated [] parts.now) result }
{
    let mut at = before;
    for (place, part) in parts.iter().enumerate() {
        at = complex_fault(alloc, condition, part, &indexes[place], table, at)?;
    }
    Ok(at)
}
