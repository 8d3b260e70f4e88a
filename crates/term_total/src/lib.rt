//! The live blocks and lines of a complex, and the count of the terms of a job.
#![tactic(auto)]

mod charges;
mod counts;
mod degrees;
mod elements;
mod live;
mod pairs;
mod parts;
mod plan;
mod terms;

pub use degrees::{may_degree, target};
pub use live::{blocks, lines, products};
pub use pairs::{cartan_op, cartan_pairs};
pub use terms::total;
