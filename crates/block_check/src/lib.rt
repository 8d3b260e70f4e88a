//! The first condition of a certificate: its blocks are those of a job.
#![tactic(auto)]

mod blocks;
mod facets;
mod maps;
mod names;

pub use blocks::block_fault;
