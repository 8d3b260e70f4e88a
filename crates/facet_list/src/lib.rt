//! The facets of a complex that lie in no other.
#![tactic(auto)]

mod covered;
mod maximal;

pub use maximal::maximal_facets;
