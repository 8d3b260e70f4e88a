//! Simplices, and all simplices of a complex that is given by its facets.
#![tactic(auto)]

mod closed;
mod complex;
mod flat_lists;
mod levels;
mod open;
mod simplex;

pub use complex::Complex;
pub use flat_lists::FlatLists;
pub use open::{FacetRefused, OpenComplex};
pub use simplex::{Simplex, compare};
