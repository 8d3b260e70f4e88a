//! The report of a job: the canonical bases of its complexes, its matrices and verdicts, with or without their certificate.
#![tactic(auto)]

mod bases;
mod chains;
mod columns;
mod complexes;
mod degrees;
mod depth;
mod known;
mod maps;
mod refused;
mod tables;
mod whole;

pub use bases::make_bases;
pub use refused::MakeRefused;
pub use whole::make_report;
