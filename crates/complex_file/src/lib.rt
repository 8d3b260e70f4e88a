//! The input of the program: complexes and maps in lines of words.
#![tactic(auto)]

mod block;
mod blocks;
mod complexes;
mod fault;
mod input;
mod job;
mod kind;
mod laws;
mod line;
mod maps;
mod place;
mod sends;
mod step;
mod text;

pub use block::{ComplexBlock, MapBlock, Name, Sent};
pub use complexes::complex_fault;
pub use fault::{BlockFault, JobRefused};
pub use input::read_job;
pub use job::Job;
pub use kind::InputKind;
pub use laws::{first_fault, spelled_job, written_job};
pub use maps::map_fault;
pub use simplex_set::{Complex, Simplex};
pub use text::is_name;
