//! Walks over the lines of a certificate, section by section.
#![tactic(auto)]

mod count;
mod stop;

pub use count::{
    complex_lines, complexes_lines, degree_lines, degrees_lines, induced_lines, map_lines,
    matrix_lines, operations_lines, products_lines,
};
pub use stop::{Stop, ask};
