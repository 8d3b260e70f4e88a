//! Table reduction: from tuples of permutations to surjections.
#![tactic(auto)]

pub mod reduction;
pub mod walk;
