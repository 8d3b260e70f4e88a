//! Steenrod operations and cup products on cochains of a complex.
#![tactic(auto)]

mod chosen;
mod face_sum;
mod on;
mod operations;
mod places;
mod product;
mod square;

pub use on::On;
pub use operations::{bp_op, d_op, p_op};
pub use product::cup;
pub use square::sq;
