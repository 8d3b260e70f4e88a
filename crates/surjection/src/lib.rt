//! The surjection operad: boundary, action of permutations, compositions, and the cyclic model.
#![tactic(auto)]

mod composition;
pub mod cyclic;
pub mod surj;
mod symmetric;
