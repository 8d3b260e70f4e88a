//! The conditions from 2 to 8.
ghost use Rattle.std.specs.{Prelude.{◌≡◌, ◌<◌, ◌≤◌, ◌+◌, ◌^◌, [], ℕ, true, length, IfOk, IsTrue, OnOk}, List.AllZip};
ghost use Rattle.fp_field.specs.Served.{served};
ghost use Rattle.report_text_law.specs.WellFormed.{is_well_formed};
ghost use Rattle.certificate_law.specs.Names.{Holds, Asks, stated};
ghost use Rattle.certificate_walk.specs.Names.{IsWalk};
ghost use Rattle.cert_check.specs.{Checked.IsChecked, Ready.{AreAllStored, IsKept}};

use crate::Checked;
use crate::complexes::complexes_fault;
use crate::maps::maps_fault;
use certificate_walk::Stop;
use complex_index::Indexed;
use count_check::total_fault;
use may_elements::MayTable;
use report::Report;
use std::alloc::{AllocError, Global};

/// The walk of a certificate that meets the lower conditions, for one of the conditions from 2 to 8. The fifth stores the May elements
/// that the operations use.
fn condition_fault<const P: u32>(
    alloc: Global,
    condition: u8,
    report: &Report,
    indexes: &[Indexed],
    table: &mut MayTable<P>,
) -> Result<u64, Stop>
    requires prime { IsTrue (served P) }
    requires prime_is { report.now.prime ≡ P }
    requires well_formed { is_well_formed report.now ≡ true }
    requires few { length (stated report.now) < 2 ^ 64 }
    requires low { 2 ≤ condition }
    requires high { condition ≤ 8 }
    requires kept { AllZip (IsKept P) indexes.now report.now.complexes }
    requires passed { (lower : ℕ) → lower < condition → Holds lower report.now }
    requires stored { AreAllStored P condition table.old report.now.complexes }
    ensures walk { IsWalk (Asks P condition) 0 (stated report.now) result }
    ensures stored { OnOk result (AreAllStored P (condition + 1) table.new report.now.complexes) }
{
    let parts = report.complexes.as_slice();
    let at = complexes_fault(alloc, condition, parts, indexes, table, 2)?;
    let at = maps_fault::<P>(alloc, condition, parts, indexes, report.maps.as_slice(), at)?;
    if condition == 5 {
        return total_fault(alloc, parts, indexes, table, at);
    }
    Ok(at + 1)
}

/// The answer for a certificate that meets the first condition.
pub(crate) fn conditions<const P: u32>(
    alloc: Global,
    report: &Report,
    indexes: &[Indexed],
) -> Result<Checked, AllocError>
    requires prime { IsTrue (served P) }
    requires prime_is { report.now.prime ≡ P }
    requires well_formed { is_well_formed report.now ≡ true }
    requires few { length (stated report.now) < 2 ^ 64 }
    requires kept { AllZip (IsKept P) indexes.now report.now.complexes }
    requires blocks { Holds 1 report.now }
    ensures { IfOk result (λ c. IsChecked report.now c) }
{
    let mut table = MayTable::<P>::new(alloc);
    for condition in 2..9u8 {
        match condition_fault(alloc, condition, report, indexes, &mut table) {
            Ok(_) => {}
            Err(Stop::Fails { line }) => return Ok(Checked::No { condition, line }),
            Err(Stop::OutOfMemory) => return Err(AllocError),
        }
    }
    Ok(Checked::Yes)
}
