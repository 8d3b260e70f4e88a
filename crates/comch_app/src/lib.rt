//! The top call: from words and bytes to a status and a text.
#![tactic(auto)]

mod answer;
mod may;
mod refusal;
mod request;
mod samples;
mod status;
mod top;
mod verdict;
mod words;

pub use status::Status;
pub use top::run;
