//! The fifth condition of a certificate: its counts, its blocks and columns, and the counted terms.
#![tactic(auto)]

mod blocks;
mod columns;
mod complexes;
mod degrees;
mod lines;
mod maps;
mod pairs;
mod rank;
mod totals;

pub use complexes::count_fault;
pub use maps::map_count_fault;
pub use rank::ranks;
pub use totals::{simplex_numbers, total_fault};
