//! The matrices of the live products and operations of a complex, and the coordinates of products and of results of operations
//! by them.
#![tactic(auto)]

mod coordinates;
mod made;
mod matrices;
mod sums;

pub use coordinates::{Coordinates, difference, of_class, operated, product_of};
pub use matrices::{Matrices, OperationMatrix, ProductMatrix};
