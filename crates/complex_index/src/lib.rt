//! The simplices of a complex by degree and place, with their faces and cofaces.
#![tactic(auto)]

mod chains;
mod cofaces;
mod incidence;
mod indexed;
mod levels;
mod maps;

pub use indexed::{Cochain, Indexed};
pub use maps::{MapOn, pull};
