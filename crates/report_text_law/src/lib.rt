//! The lines of a certificate, how they are spelled, and how they are read line by line.
#![tactic(auto)]

ghost use Rattle.report_text_law.specs.Names.{OneRefusedLine, OneReport, OutlineLaw, ReadingLaw, WorkedTexts};

mod line;
mod state;

pub use line::Line;
pub use state::{
    ComplexHead, ComplexStage, Finding, Graded, Judged, MapHead, MapStage, Mapped, Multiplied,
    Operated, State,
};

/// What is read is spelled so, what is spelled so is read, and the refused line is the least.
#[tactic(auto, using(crate::proofs::Refusals::reading_law))]
pub fn reading_law()
    ensures { ReadingLaw }
{}

/// Different reports have different certificates.
pub fn one_report_law()
    ensures { OneReport }
{}

/// The refused line of a text is one.
pub fn one_refused_line_law()
    ensures { OneRefusedLine }
{}

/// The text of a report in a form is that of its outline in this form.
pub fn outline_law()
    ensures { OutlineLaw }
{}

/// The texts of five reports: a certificate and four short reports.
#[tactic(auto, using(crate::proofs::WorkedTexts::worked_texts))]
pub fn worked_texts()
    ensures { WorkedTexts }
{}
