//! Whether a report certifies.
ghost use Rattle.std.specs.Prelude.{◌≡◌, ◌<◌, ◌^◌, true, length, IfOk, IsTrue};
ghost use Rattle.fp_field.specs.Served.{served};
ghost use Rattle.report_text_law.specs.WellFormed.{is_well_formed};
ghost use Rattle.certificate_law.specs.Names.{stated};
ghost use Rattle.cert_check.specs.Checked.{IsChecked};

use crate::complexes::indexes;
use crate::conditions::conditions;
use block_check::block_fault;
use certificate_walk::Stop;
use report::Report;
use std::alloc::{AllocError, Global};

/// Whether a report certifies: it does, or this is the least condition that fails and the first line at which it fails.
#[derive(Clone, Copy, Debug, PartialEq, Eq)]
pub enum Checked {
    Yes,
    No { condition: u8, line: u64 },
}

/// The answer at a prime.
fn check_over<const P: u32>(alloc: Global, report: &Report) -> Result<Checked, AllocError>
    requires prime { IsTrue (served P) }
    requires prime_is { report.now.prime ≡ P }
    requires well_formed { is_well_formed report.now ≡ true }
    requires few { length (stated report.now) < 2 ^ 64 }
    ensures { IfOk result (λ c. IsChecked report.now c) }
{
    match block_fault(alloc, report) {
        Ok(blocks) => {
            let indexes = indexes(alloc, &blocks)?;
            conditions::<P>(alloc, report, &indexes)
        }
        Err(Stop::Fails { line }) => Ok(Checked::No { condition: 1, line }),
        Err(Stop::OutOfMemory) => Err(AllocError),
    }
}

/// Whether a report certifies, and else the least condition that fails and the first line of the certificate at which it
/// fails, counted from 1. Nothing is eliminated: the time is that of the listed cochains.
pub fn check(alloc: Global, report: &Report) -> Result<Checked, AllocError>
    requires well_formed { is_well_formed report.now ≡ true }
    requires few { length (stated report.now) < 2 ^ 64 }
    ensures { IfOk result (λ c. IsChecked report.now c) }
{
    match report.prime {
        2 => check_over::<2>(alloc, report),
        3 => check_over::<3>(alloc, report),
        5 => check_over::<5>(alloc, report),
        _ => unreachable!(),
    }
}
