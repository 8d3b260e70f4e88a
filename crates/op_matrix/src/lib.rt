//! The matrices of Steenrod operations and of cup products on the classes of a complex, over either depth of its cohomology.
#![tactic(auto)]

mod matrices;
mod products;

pub use matrices::matrix;
pub use products::ring;
