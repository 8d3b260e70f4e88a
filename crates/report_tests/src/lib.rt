//! The tests of the lines, the texts and the reader of reports, and of the plan of a job. They stand apart, so that these crates
//! are proved once.
#![tactic(auto)]

#[cfg(test)]
mod certificates;
#[cfg(test)]
mod lines;
#[cfg(test)]
mod plans;
