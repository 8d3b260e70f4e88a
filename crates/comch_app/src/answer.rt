ghost use Rattle.std.specs.Prelude.{◌≡◌, ◌≤◌, ◌^◌, IfOk, None, Some};
ghost use Rattle.complex_file.specs.Names.{content};
ghost use Rattle.comch_app.specs.Names.{AnswersRead, AskedAnswers, BocksteinAnswers, InputAnswers, IsAskable, IsMade, IsReadWhole, IsWithinMost, JobAnswers, StopCause, WantedOf, most_bytes};

use crate::Status;
use crate::refusal::{input_refused, too_many_terms};
use crate::verdict::{MOST_BYTES, verdict};
use bockstein_text::print_bocksteins;
use comch_io::{Bytes, ReadEnd, Source, read_all};
use complex_file::{InputKind, Job, JobRefused, read_job};
use job_report::{MakeRefused, make_bases, make_report};
use report_text::{Form, print};
use std::alloc::{AllocError, Global};

// How many bytes a job may have.
const JOB_BYTES: u64 = 1_048_576;

/// What is wanted of a job.
#[derive(Clone, Copy, Debug, PartialEq, Eq)]
pub enum Wanted {
    /// Its bases.
    Bases,
    /// Its report in a form, where its counted terms do not pass the limit.
    Report { form: Form, limit: u64 },
    /// Its Bocksteins.
    Bocksteins,
}

/// What is asked of bytes.
#[derive(Clone, Copy, Debug, PartialEq, Eq)]
pub enum Asked {
    /// What is wanted of the job that they spell.
    OfJob(Wanted),
    /// Whether they are a certificate that certifies.
    Verdict,
}

/// Why no answer was made.
#[derive(Clone, Copy, Debug, PartialEq, Eq)]
pub enum Stop {
    Memory,
    Read,
}

impl From<AllocError> for Stop {
    ghost use Rattle.std.specs.Prelude.{◌≡◌};
    ghost use Rattle.comch_app.specs.declared.answer.Stop.TheVariants.{Memory};

    ghost from_gives = { λ _ e. e ≡ Memory };

    fn from(_: AllocError) -> Self {
        Stop::Memory
    }
}

// The bases of a job.
fn bases_answer(alloc: Global, job: &Job) -> Result<(Status, Bytes), AllocError>
    ensures { IfOk result (λ p. JobAnswers Form.Basis None (content job.now) p.0 p.1) }
{
    let report = make_bases(alloc, job)?;
    let text = print(alloc, &report, Form::Basis)?;
    Ok((Status::Done, text))
}

// The report of a job, or that its counted terms pass the limit.
fn report_answer(
    alloc: Global,
    job: &Job,
    form: Form,
    limit: u64,
) -> Result<(Status, Bytes), AllocError>
    requires { limit ≤ 10 ^ 12 }
    ensures { IfOk result (λ p. JobAnswers form (Some limit) (content job.now) p.0 p.1) }
{
    match make_report(alloc, job, form, limit) {
        Ok(report) => {
            let text = print(alloc, &report, form)?;
            Ok((Status::Done, text))
        }
        Err(MakeRefused::TooManyTerms { count, limit }) => too_many_terms(alloc, count, limit),
        Err(MakeRefused::OutOfMemory) => Err(AllocError),
    }
}

// The Bocksteins of a job.
fn bocksteins_answer(alloc: Global, job: &Job) -> Result<(Status, Bytes), AllocError>
    ensures { IfOk result (λ p. BocksteinAnswers (content job.now) p.0 p.1) }
{
    let text = print_bocksteins(alloc, job)?;
    Ok((Status::Done, text))
}

// The answer to a job.
fn job_answer(alloc: Global, job: &Job, wanted: Wanted) -> Result<(Status, Bytes), AllocError>
    requires { IsWithinMost wanted }
    ensures { IfOk result (λ p. WantedOf wanted (content job.now) p.0 p.1) }
{
    match wanted {
        Wanted::Bases => bases_answer(alloc, job),
        Wanted::Report { form, limit } => report_answer(alloc, job, form, limit),
        Wanted::Bocksteins => bocksteins_answer(alloc, job),
    }
}

// The answer to the bytes of an input.
fn bytes_answer(alloc: Global, bytes: &[u8], wanted: Wanted) -> Result<(Status, Bytes), AllocError>
    requires { IsWithinMost wanted }
    ensures answer { IfOk result (λ p. InputAnswers (WantedOf wanted) bytes.now p.0 p.1) }
    ensures made { IfOk result (λ p. IsMade p.0 p.1) }
{
    match read_job(alloc, bytes) {
        Ok(job) => job_answer(alloc, &job, wanted),
        Err(JobRefused::OutOfMemory) => Err(AllocError),
        Err(JobRefused::InputRefused { kind, line }) => input_refused(alloc, kind, line),
    }
}

// The answer to the bytes that were read.
fn asked_answer(alloc: Global, bytes: &[u8], asked: Asked) -> Result<(Status, Bytes), AllocError>
    requires { IsAskable asked }
    ensures answer { IfOk result (λ p. AskedAnswers asked bytes.now p.0 p.1) }
    ensures made { IfOk result (λ p. IsMade p.0 p.1) }
{
    match asked {
        Asked::OfJob(wanted) => bytes_answer(alloc, bytes, wanted),
        Asked::Verdict => verdict(alloc, bytes),
    }
}

// How many bytes may be read.
fn most_bytes(asked: Asked) -> u64
    ensures { result ≡ most_bytes asked }
{
    match asked {
        Asked::OfJob(_) => JOB_BYTES,
        Asked::Verdict => MOST_BYTES,
    }
}

/// The status and the text that are answered to what the source has left. All is read before
/// anything is made.
pub fn answer<S: Source>(
    alloc: Global,
    source: &mut S,
    asked: Asked,
) -> Result<(Status, Bytes), Stop>
    requires { IsAskable asked }
    ensures answer { AnswersRead asked (S.left source.old) (S.left source.new) (S.given source.old) (S.given source.new) result }
    ensures made { IfOk result (λ p. IsMade p.0 p.1) }
    ensures whole { IfOk result (λ p. IsReadWhole (S.left source.new) p.0) }
    ensures cause { StopCause (S.faults source.old) (S.faults source.new) result }
{
    match read_all(alloc, source, most_bytes(asked)) {
        Ok(bytes) => Ok(asked_answer(alloc, bytes.as_slice(), asked)?),
        Err(ReadEnd::TooLong) => Ok(input_refused(alloc, InputKind::TooLong, 0)?),
        Err(ReadEnd::Fault) => Err(Stop::Read),
        Err(ReadEnd::OutOfMemory) => Err(Stop::Memory),
    }
}
