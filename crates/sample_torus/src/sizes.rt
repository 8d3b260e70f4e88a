ghost use Rattle.std.specs.Prelude.{◌≡◌, ◌≤◌, ◌<◌, ◌^◌, ◌∷◌, [], ℕ, true, length, Err, IfOk, IsTrue, None};
ghost use Rattle.linear_law.specs.Names.{Each};
ghost use Rattle.fp_field.specs.Served.{served};
ghost use Rattle.complex_file.specs.{declared.block.ComplexBlock.ComplexBlock, Jobs.is_job, Names.content};
ghost use Rattle.report_law.specs.Names.{IsReportOf, IsWithinLimit, PassesLimit, addends, passing_sum, sizes_of};
ghost use Rattle.report_text_law.specs.WellFormed.{is_well_formed};
ghost use Rattle.certificate_law.specs.Names.{Certifies, stated};
ghost use Rattle.term_total.specs.Names.{sum_of, IsPart};
ghost use Rattle.sample_torus.specs.{Samples.{CanBeSized, IsSample}, Torus.{torus_facets, torus_job}};

use crate::family::torus;
use cert_check::{Checked, check};
use comch_io::Listed;
use complex_file::{Complex, Job};
use complex_index::Indexed;
use count_check::{ranks, simplex_numbers};
use job_report::{MakeRefused, make_report};
use may_elements::terms::Terms;
use may_elements::{MayRefused, MayTable};
use report::{ComplexPart, Form, Report, Sizes};
use std::alloc::{AllocError, Global};
use term_total::total;

// How many terms may be counted.
const LIMIT: u64 = 100_000_000;

/// What a sample shows of its torus: how many simplices and classes it has in each degree, and its counted terms.
#[derive(Debug, Drop)]
pub struct Sample {
    pub sizes: Sizes,
    pub terms: u64,
}

/// Checks a certificate that certifies.
fn certified(alloc: Global, report: &Report) -> Result<(), AllocError>
    requires well_formed { is_well_formed report.now ≡ true }
    requires few { length (stated report.now) < 2 ^ 64 }
    requires certifies { Certifies report.now }
{
    match check(alloc, report)? {
        Checked::Yes => Ok(()),
        Checked::No { .. } => unreachable!(),
    }
}

/// The sizes of a complex of which this is listed.
fn sizes_of(alloc: Global, complex: &Complex, part: &ComplexPart) -> Result<Sizes, AllocError>
    requires { CanBeSized complex.now part.now }
    ensures sizes { IfOk result (λ z. z ≡ sizes_of complex.now part.now) }
    ensures part { IfOk result IsPart }
{
    let index = Indexed::of(alloc, complex)?;
    let degrees = part.degrees.as_slice();
    Ok(Sizes {
        simplices: Listed::from(simplex_numbers(alloc, &index, degrees.len() as u32)?),
        ranks: Listed::from(ranks(alloc, degrees)?),
    })
}

/// The counted terms of a complex of these sizes, which do not pass the limit.
fn terms_of<const P: u32>(alloc: Global, sizes: &[Sizes]) -> Result<u64, AllocError>
    requires prime { IsTrue (served P) }
    requires parts { Each IsPart sizes.now }
    requires within { passing_sum P (10 ^ 8) sizes.now ≡ None }
    ensures { IfOk result (λ t. t ≡ sum_of (addends P sizes.now)) }
{
    let mut table = MayTable::<P>::new(alloc);
    let mut terms = Terms::new(LIMIT);
    match total(alloc, sizes, &mut table, &mut terms) {
        Ok(()) => Ok(terms.used()),
        Err(MayRefused::OutOfMemory) => Err(AllocError),
        Err(MayRefused::TooManyTerms(_)) => unreachable!(),
    }
}

/// The same at a prime.
fn terms_at(alloc: Global, prime: u32, sizes: &[Sizes]) -> Result<u64, AllocError>
    requires prime { IsTrue (served prime) }
    requires parts { Each IsPart sizes.now }
    requires within { passing_sum prime (10 ^ 8) sizes.now ≡ None }
    ensures { IfOk result (λ t. t ≡ sum_of (addends prime sizes.now)) }
{
    match prime {
        2 => terms_of::<2>(alloc, sizes),
        3 => terms_of::<3>(alloc, sizes),
        5 => terms_of::<5>(alloc, sizes),
        _ => unreachable!(),
    }
}

/// The sizes and the counted terms of a complex of which this is listed.
fn sized(
    alloc: Global,
    prime: u32,
    complex: &Complex,
    part: &ComplexPart,
) -> Result<Sample, AllocError>
    requires prime { IsTrue (served prime) }
    requires part { CanBeSized complex.now part.now }
    requires within { passing_sum prime (10 ^ 8) (sizes_of complex.now part.now ∷ []) ≡ None }
    ensures sizes { IfOk result (λ s. s.sizes ≡ sizes_of complex.now part.now) }
    ensures terms { IfOk result (λ s. s.terms ≡ sum_of (addends prime (sizes_of complex.now part.now ∷ []))) }
{
    let mut all = Vec::new(alloc);
    all.push(sizes_of(alloc, complex, part)?)?;
    let terms = terms_at(alloc, prime, &all)?;
    match all.pop() {
        Some(sizes) => Ok(Sample { sizes, terms }),
        None => unreachable!(),
    }
}

/// What is shown of the one complex of a job, once its certificate is checked.
fn shown(alloc: Global, job: &Job, report: &Report) -> Result<Sample, AllocError>
    requires kept { is_job job.now.prime job.now.complexes job.now.maps ≡ true }
    requires one { length job.now.complexes ≡ 1 }
    requires report { IsReportOf Form.Certificate (content job.now) report.now }
    requires within { IsWithinLimit (content job.now) (10 ^ 8) }
    ensures { IfOk result (λ s. (block : ComplexBlock) → job.now.complexes ≡ block ∷ [] → IsSample job.now.prime block.facets s) }
{
    certified(alloc, report)?;
    let block = &job.complexes.as_slice()[0];
    let part = &report.complexes.as_slice()[0];
    sized(alloc, job.prime, &block.facets, part)
}

/// The certificate of a torus is made and checked. What it shows: how many simplices and classes the torus with `m` vertices has
/// in each degree, and its counted terms. `TooManyTerms` exactly where they pass 10^8, with the first sum that does.
pub fn make_sample(alloc: Global, prime: u32, m: u32) -> Result<Sample, MakeRefused>
    requires prime { IsTrue (served prime) }
    requires large { 7 ≤ m }
    requires few { m ≤ 1000 }
    ensures sample { IfOk result (λ s. IsSample prime (torus_facets m) s) }
    ensures refused { (count limit : ℕ) → result ≡ Err (MakeRefused.TooManyTerms count limit) → (limit ≡ 10 ^ 8) × PassesLimit (torus_job prime m) (10 ^ 8) count }
{
    let job = torus(alloc, prime, m)?;
    match make_report(alloc, &job, Form::Certificate, LIMIT) {
        Ok(report) => Ok(shown(alloc, &job, &report)?),
        Err(refused) => Err(refused),
    }
}
