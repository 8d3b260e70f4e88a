//! The tests of the crates on fields, rows, simplices and streams. They stand apart, so that these crates are proved once.
#![tactic(auto)]

#[cfg(test)]
mod fields;
#[cfg(test)]
mod rows;
#[cfg(test)]
mod simplices;
#[cfg(test)]
mod streams;
