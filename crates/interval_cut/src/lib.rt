//! Interval cuts of a simplex for a surjection, and the values of surjections on cochains.
#![tactic(auto)]

mod cuts;
mod faces;
mod lists;
mod live;
mod live_lists;
mod live_search;
mod signs;
mod stage;
mod values;
mod words;

pub use cuts::{Cuts, evaluate};
pub use live::{LiveCuts, evaluate_live, live_count};
pub use values::{Values, with_sign};
