//! A certificate is read back: from its text to its report.
#![tactic(auto)]

mod chain;
mod complex;
mod degree;
mod list;
mod map;
mod read;
mod reader;
mod refused;
mod table;

pub use read::read_report;
pub use refused::ReadRefused;
