//! The Bocksteins of a job as a text: the matrix of the Bockstein from each degree of each complex to the next.
#![tactic(auto)]

mod matrix;
mod text;

pub use text::print_bocksteins;
