//! The tests of interval cuts and of cup-i products. They stand apart, so that their crates are proved once.
#![tactic(auto)]

#[cfg(test)]
mod cup_i_products;
#[cfg(test)]
mod cuts;
#[cfg(test)]
mod evaluations;
