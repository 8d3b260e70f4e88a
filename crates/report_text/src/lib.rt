//! The texts of a report: its bases, its short form and its certificate.
#![tactic(auto)]

mod form;
mod line;
mod section;
mod spelling;
mod text;
mod word;

pub use report::Form;
pub use spelling::spell;
pub use text::print;
