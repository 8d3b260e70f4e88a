ghost use Rattle.std.specs.{Prelude.{◌≡◌, ◌≤◌, ◌^◌, ℕ, Err, IfOk, IsTrue, None, OnOk, Some}, List.AllZip};
ghost use Rattle.fp_field.specs.Served.{served};
ghost use Rattle.linear_law.specs.Names.{Each};
ghost use Rattle.cohomology.specs.Names.{AreClassesOf};
ghost use Rattle.complex_file.specs.Names.{content};
ghost use Rattle.report.specs.Names.{has_details};
ghost use Rattle.report_law.specs.Names.{IsReportOf, IsWithinLimit, PassesLimit, passing_sum};
ghost use Rattle.term_total.specs.Names.{IsPart};
ghost use Rattle.job_report.specs.Jobs.{HasStored, IsKnown};
ghost use Rattle.line_difference.specs.Elements.{AreStored};

use crate::MakeRefused;
use crate::complexes::complex_parts;
use crate::depth::Depth;
use crate::known::{Known, all_sizes, deepened, known_of};
use crate::maps::map_parts;
use cohomology::{Classes, Cohomology};
use comch_io::Listed;
use complex_file::Job;
use may_elements::terms::Terms;
use may_elements::{MayRefused, MayTable};
use report::{Form, Report, Sizes};
use std::alloc::{AllocError, Global};
use term_total::total;

/// The May elements that the complexes of a job use, where its counted terms do not pass the limit.
fn charged<const P: u32>(
    alloc: Global,
    parts: &[Sizes],
    limit: u64,
) -> Result<MayTable<P>, MakeRefused>
    requires prime { IsTrue (served P) }
    requires low { limit ≤ 10 ^ 12 }
    requires parts { Each IsPart parts.now }
    ensures stored { IfOk result (λ t. Each (λ z. AreStored P t z.ranks) parts.now) }
    ensures within { OnOk result (passing_sum P limit parts.now ≡ None) }
    ensures refused { (count most : ℕ) → result ≡ Err (MakeRefused.TooManyTerms count most) → (most ≡ limit) × (passing_sum P limit parts.now ≡ Some count) }
{
    let mut table = MayTable::new(alloc);
    let mut terms = Terms::new(limit);
    match total(alloc, parts, &mut table, &mut terms) {
        Ok(()) => Ok(table),
        Err(MayRefused::TooManyTerms(over)) => Err(MakeRefused::TooManyTerms {
            count: over.count,
            limit: over.limit,
        }),
        Err(MayRefused::OutOfMemory) => Err(MakeRefused::OutOfMemory),
    }
}

/// The report of a job of whose complexes this is known, to the depth that the form asks for.
fn report_of<const P: u32, B: Depth<P>>(
    alloc: Global,
    job: &Job,
    known: &[Known<B>],
    table: &MayTable<P>,
) -> Result<Report, AllocError>
    requires prime { job.now.prime ≡ P }
    requires known { AllZip (IsKnown B.is_of) job.now.complexes known.now }
    requires stored { Each (HasStored P table.now) job.now.complexes }
    ensures { IfOk result (λ r. (form : Form) → has_details form ≡ B.keeps → IsReportOf form (content job.now) r) }
{
    let blocks = job.complexes.as_slice();
    Ok(Report {
        prime: P,
        complexes: complex_parts(alloc, blocks, known, table)?,
        maps: map_parts(alloc, blocks, job.maps.as_slice(), known)?,
    })
}

/// What is known of the complexes of a job, and the May elements that they use, where the counted terms do not pass the limit.
fn started<const P: u32, B: Depth<P>>(
    alloc: Global,
    job: &Job,
    limit: u64,
) -> Result<(Vec<Known<B>>, MayTable<P>), MakeRefused>
    requires prime { job.now.prime ≡ P }
    requires low { limit ≤ 10 ^ 12 }
    ensures known { IfOk result (λ s. AllZip (IsKnown B.is_of) job.now.complexes s.0.items) }
    ensures stored { IfOk result (λ s. Each (HasStored P s.1) job.now.complexes) }
    ensures within { OnOk result (IsWithinLimit (content job.now) limit) }
    ensures refused { (count most : ℕ) → result ≡ Err (MakeRefused.TooManyTerms count most) → (most ≡ limit) × PassesLimit (content job.now) limit count }
{
    let known = known_of::<P, B>(alloc, job.complexes.as_slice())?;
    let sizes = all_sizes(alloc, &known)?;
    match charged(alloc, &sizes, limit) {
        Ok(table) => Ok((known, table)),
        Err(refused) => Err(refused),
    }
}

/// The report of a job of whose complexes this is known, in a form: a certificate is made over their whole cohomology.
fn finished<const P: u32>(
    alloc: Global,
    job: &Job,
    form: Form,
    known: Vec<Known<Classes<P>>>,
    table: &MayTable<P>,
) -> Result<Report, AllocError>
    requires prime { job.now.prime ≡ P }
    requires known { AllZip (IsKnown (AreClassesOf P)) job.now.complexes known.items }
    requires stored { Each (HasStored P table.now) job.now.complexes }
    ensures { IfOk result (λ r. IsReportOf form (content job.now) r) }
{
    match form {
        Form::Certificate => {
            let known = deepened::<P, Classes<P>, Cohomology<P>>(alloc, known)?;
            report_of(alloc, job, &known, table)
        }
        Form::Basis | Form::Short => report_of(alloc, job, &known, table),
    }
}

/// The report of a job at the prime `P`.
fn report_over<const P: u32>(
    alloc: Global,
    job: &Job,
    form: Form,
    limit: u64,
) -> Result<Report, MakeRefused>
    requires prime { job.now.prime ≡ P }
    requires low { limit ≤ 10 ^ 12 }
    ensures report { IfOk result (λ r. IsReportOf form (content job.now) r) }
    ensures within { IfOk result (λ r. IsWithinLimit (content job.now) limit) }
    ensures refused { (count most : ℕ) → result ≡ Err (MakeRefused.TooManyTerms count most) → (most ≡ limit) × PassesLimit (content job.now) limit count }
{
    match started::<P, Classes<P>>(alloc, job, limit) {
        Ok((known, table)) => Ok(finished(alloc, job, form, known, &table)?),
        Err(refused) => Err(refused),
    }
}

/// The report of a job in a form, where its counted terms, which are charged before any matrix is made, do not pass
/// the limit. `TooManyTerms` exactly where they do, with the first sum that passes it.
pub fn make_report(alloc: Global, job: &Job, form: Form, limit: u64) -> Result<Report, MakeRefused>
    requires { limit ≤ 10 ^ 12 }
    ensures report { IfOk result (λ r. IsReportOf form (content job.now) r) }
    ensures within { IfOk result (λ r. IsWithinLimit (content job.now) limit) }
    ensures refused { (count most : ℕ) → result ≡ Err (MakeRefused.TooManyTerms count most) → (most ≡ limit) × PassesLimit (content job.now) limit count }
{
    match job.prime {
        2 => report_over::<2>(alloc, job, form, limit),
        3 => report_over::<3>(alloc, job, form, limit),
        5 => report_over::<5>(alloc, job, form, limit),
        _ => unreachable!(),
    }
}
