//! Operations on cochains of a complex, and the difference of the two sides of a Cartan line.
#![tactic(auto)]

mod differences;
mod operations;

pub use differences::difference;
pub use operations::operation;
