//! The sums that a certificate lists: columns of matrices, and the answers of Cartan lines.
#![tactic(auto)]

mod cartans;
mod columns;
mod induced;
mod listing;
mod operations;
mod products;
mod sums;
mod walks;

pub use walks::{cartan_fault, column_fault, induced_fault};
