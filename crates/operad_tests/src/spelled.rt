//! Elements and sums as text.

use barratt_eccles::tuple::Tuple;
use operad_law::formal_sum::FormalSum;
use std::alloc::{AllocError, Global};
use surjection::surj::Surj;

/// The terms of a sum of surjections: each coefficient, and the values.
pub fn surjections(alloc: Global, sum: &FormalSum<Surj>) -> Result<String, AllocError> {
    let mut text = String::new(alloc);
    for k in 0..sum.len() {
        let (element, by) = sum.term(k);
        text = format!(in alloc; "{text}{by} {:?};", element.as_slice())?;
    }
    Ok(text)
}

/// The permutations of a tuple.
pub fn tuple(alloc: Global, element: &Tuple) -> Result<String, AllocError> {
    let mut text = String::new(alloc);
    for entry in element.as_slice() {
        text = format!(in alloc; "{text} {:?}", entry.as_slice())?;
    }
    Ok(text)
}

/// The terms of a sum of tuples: each coefficient, and the permutations.
pub fn tuples(alloc: Global, sum: &FormalSum<Tuple>) -> Result<String, AllocError> {
    let mut text = String::new(alloc);
    for k in 0..sum.len() {
        let (element, by) = sum.term(k);
        let entries = tuple(alloc, element)?;
        text = format!(in alloc; "{text}{by}{entries};")?;
    }
    Ok(text)
}
