//! The Barratt-Eccles operad: tuples of permutations with their boundary, the action of permutations,
//! the cyclic model and composition.
#![tactic(auto)]

pub mod composing;
pub mod cyclic;
mod symmetric;
pub mod tuple;
