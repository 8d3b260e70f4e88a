ghost use Rattle.std.specs.Prelude.{◌≡◌, ◌≤◌, length, IfOk};
ghost use Rattle.report_text_law.specs.Names.{Spells};
ghost use Rattle.comch_app.specs.Names.{CheckAnswers, IsMade};

use crate::Status;
use crate::refusal::{input_refused, no};
use cert_check::{Checked, check};
use comch_io::Bytes;
use complex_file::InputKind;
use report::Report;
use report_reader::{ReadRefused, read_report};
use std::alloc::{AllocError, Global};

/// How many bytes a certificate may have.
pub const MOST_BYTES: u64 = 33_554_432;

// The answer to the report that a text spells.
fn report_verdict(
    alloc: Global,
    text: &[u8],
    report: &Report,
) -> Result<(Status, Bytes), AllocError>
    requires short { length text.now ≤ 33554432 }
    requires spelled { Spells text.now report.now }
    ensures answer { IfOk result (λ p. CheckAnswers text.now p.0 p.1) }
    ensures made { IfOk result (λ p. IsMade p.0 p.1) }
{
    match check(alloc, report)? {
        Checked::Yes => {
            let mut answer = Bytes::new(alloc);
            answer.extend(b"yes\n")?;
            Ok((Status::Done, answer))
        }
        Checked::No { condition, line } => no(alloc, condition, line),
    }
}

/// The status and the text that `check` answers to a text. `check` stands alone: nothing is eliminated.
pub fn verdict(alloc: Global, text: &[u8]) -> Result<(Status, Bytes), AllocError>
    ensures answer { IfOk result (λ p. CheckAnswers text.now p.0 p.1) }
    ensures made { IfOk result (λ p. IsMade p.0 p.1) }
{
    if text.len() as u64 > MOST_BYTES {
        return input_refused(alloc, InputKind::TooLong, 0);
    }
    match read_report(alloc, text) {
        Ok(report) => report_verdict(alloc, text, &report),
        Err(ReadRefused::ReportRefused { line }) => no(alloc, 0, line),
        Err(ReadRefused::OutOfMemory) => Err(AllocError),
    }
}
