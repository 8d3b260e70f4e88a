//! May elements, and the count of the terms that they cost.
#![tactic(auto)]

pub mod elements;
mod pairs;
pub mod terms;

pub use elements::{MayRefused, MayTable};
