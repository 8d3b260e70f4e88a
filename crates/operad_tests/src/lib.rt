//! The tests of the operads, of table reduction and of May elements. They stand apart, so that their crates are proved once.
#![tactic(auto)]

#[cfg(test)]
mod generic;
#[cfg(test)]
mod may;
#[cfg(test)]
mod spelled;
#[cfg(test)]
mod surjections;
#[cfg(test)]
mod tuples;
#[cfg(test)]
mod words;
