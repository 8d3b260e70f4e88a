//! When a report certifies, and what it shows then: definitions and laws.
#![tactic(auto)]

ghost use Rattle.certificate_law.specs.Names.{CertifiedLaw, CompleteLaw, FewLinesLaw, FirstFailureLaw, StatedLinesLaw, WellFormedLaw, SectionLaw};

/// A report that certifies does not fail, and no report fails first at two lines or at two conditions.
#[tactic(auto, using(crate::proofs::Failures::first_failure_law))]
pub fn first_failure_law()
    ensures { FirstFailureLaw }
{}

/// Where a report certifies, the headline holds of what it lists.
#[tactic(auto, using(crate::proofs::CertifiedParts::certified_law))]
pub fn certified_law()
    ensures { CertifiedLaw }
{}

/// The conditions are asked of the lines of the certificate, in their order.
pub fn stated_lines_law()
    ensures { StatedLinesLaw }
{}

/// Lines that are walked in two sections.
#[tactic(auto, using(crate::proofs::Sections::section_law))]
pub fn section_law()
    ensures { SectionLaw }
{}

/// The certificate of a job certifies.
pub fn complete_law()
    ensures { CompleteLaw }
{}

/// The certificate of a job is well formed.
pub fn well_formed_law()
    ensures { WellFormedLaw }
{}

/// The certificate of a job has fewer than 2^64 lines.
pub fn few_lines_law()
    ensures { FewLinesLaw }
{}
