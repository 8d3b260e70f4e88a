//! The tests of complex_file: worked rows of the input, and blocks made by hand. They stand apart, so that complex_file is
//! proved once.
#![tactic(auto)]

#[cfg(test)]
mod tests;
