//! The tests of the calls on cochains, classes and matrices. They stand apart, so that the crates of these calls are proved
//! once.
#![tactic(auto)]

#[cfg(test)]
mod fixtures;
#[cfg(test)]
mod spelled;
#[cfg(test)]
mod tests;
#[cfg(test)]
mod texts;
