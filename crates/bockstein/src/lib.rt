//! The Bockstein of cocycles over a prime field: what the coboundary of the lift to whole numbers is, divided by the prime. With
//! its matrices on the classes of a complex, over either depth of its cohomology.
#![tactic(auto)]

mod cocycles;
mod matrices;

pub use cocycles::{BocksteinRefused, bockstein};
pub use matrices::bockstein_matrix;
