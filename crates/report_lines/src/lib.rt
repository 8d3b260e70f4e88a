//! The lines of a certificate, read from their bytes, and whether they are well formed.
#![tactic(auto)]

mod chain;
mod guesses;
mod reading;
mod tables;
mod well_formed;
mod word;

pub use reading::line_of;
pub use well_formed::is_line;
