//! The conditions of a certificate, tried one after the other.
#![tactic(auto)]

mod checked;
mod complexes;
mod conditions;
mod maps;

pub use checked::{Checked, check};
