//! Reports as plain data: what is listed of a job, of each of its complexes and of each of its maps.
#![tactic(auto)]

mod chain;
mod columns;
mod complex;
mod form;
mod job;
mod map;
mod plan;

pub use chain::{Chain, Term};
pub use columns::{
    CartanAnswer, CartanPart, Column, OpWord, OperationPart, PairColumn, ProductPart,
};
pub use complex::{ComplexPart, DegreePart};
pub use form::Form;
pub use job::Report;
pub use map::{InducedPart, MapPart};
pub use plan::{Block, Line, Op, Product, Ranks, Sizes};
