//! The tests of comch_app: worked rows of the program. They stand apart, so that comch_app is proved once.
#![tactic(auto)]

#[cfg(test)]
mod rows;
#[cfg(test)]
mod tests;
