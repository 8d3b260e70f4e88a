//! The report of a job, and what it promises: definitions and laws.
#![tactic(auto)]

ghost use Rattle.report_law.specs.Names.{FormsLaw, HeadlineLaw, LimitLaw, OneReportLaw, OperationLaw, SizesLaw, PointRow, WorkedRows};

/// The headline holds of the report of each job, in each form.
pub fn headline_law()
    ensures { HeadlineLaw }
{}

/// The report of a certificate is that of each form.
pub fn forms_law()
    ensures { FormsLaw }
{}

/// Operations and Cartan differences exist, and each is one on simplices.
#[tactic(auto, using(crate::proofs::Existence::operation_law))]
pub fn operation_law()
    ensures { OperationLaw }
{}

/// Live blocks and lines, and counted terms, of small complexes.
#[tactic(auto, using(crate::proofs::WorkedRows::worked_rows))]
pub fn worked_rows()
    ensures { WorkedRows }
{}

/// A job has one report in each form.
#[tactic(auto, using(crate::proofs::OneReport::one_report))]
pub fn one_report()
    ensures { OneReportLaw }
{}

/// A complex has one list of sizes, which a report tells.
#[tactic(auto, using(crate::proofs::OneSize::sizes_law))]
pub fn sizes_law()
    ensures { SizesLaw }
{}

/// The counted terms of a job pass a limit with one sum, or not at all.
#[tactic(auto, using(crate::proofs::OneSize::limit_law))]
pub fn limit_law()
    ensures { LimitLaw }
{}

/// The report of a point.
#[tactic(auto, using(crate::proofs::PointReport::point_row))]
pub fn point_row()
    ensures { PointRow }
{}
