//! The laws of an operad: signs of rearrangements, permutations, formal sums, and the traits of
//! bases with a boundary, an action of permutations, compositions and a turn.
#![tactic(auto)]

pub mod basis;
pub mod boundary;
pub mod composing;
pub mod cyclic;
pub mod formal_sum;
pub mod odd_word;
pub mod pair;
pub mod perm;
mod scaled;
pub mod symmetric;
pub mod word;
