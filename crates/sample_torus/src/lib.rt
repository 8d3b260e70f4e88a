//! The sample family of tori: a torus as a job, and what its certificate shows once it is made and checked.
#![tactic(auto)]

mod family;
mod sizes;

pub use family::torus;
pub use sizes::{Sample, make_sample};
