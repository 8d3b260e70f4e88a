//! Rows of a matrix over the field with P elements, kept as the pairs of their nonzero values.
#![tactic(auto)]

mod merging;
mod row;

pub use row::Row;
