//! Cochains and columns as text.

use cohomology::Column;
use complex_index::{Cochain, Indexed};
use std::alloc::{AllocError, Global};
use std::test::Fail;

// A term: the value, a colon, and the vertices with full stops between them.
fn term(alloc: Global, value: u32, simplex: &[u32]) -> Result<String, AllocError> {
    let mut text = format!(in alloc; "{value}")?;
    let mut mark = ":";
    for vertex in simplex {
        text = format!(in alloc; "{text}{mark}{vertex}")?;
        mark = ".";
    }
    Ok(text)
}

/// The terms of a cochain, each behind a space.
pub fn chain<const P: u32>(
    alloc: Global,
    index: &Indexed,
    cochain: &Cochain<P>,
) -> Result<String, Fail> {
    let mut text = String::new(alloc);
    for pair in cochain.row.as_slice() {
        if pair.0 >= index.count(cochain.degree) {
            return Err("no place".into());
        }
        let simplex = index.simplex(cochain.degree, pair.0);
        let term = term(alloc, pair.1.value(), simplex)?;
        text = format!(in alloc; "{text} {term}")?;
    }
    Ok(text)
}

// The values of a column, each behind a space.
fn values<const P: u32>(alloc: Global, column: &Column<P>) -> Result<String, AllocError> {
    let mut text = String::new(alloc);
    for value in column.values.as_slice() {
        text = format!(in alloc; "{text} {}", value.value())?;
    }
    Ok(text)
}

/// The values of columns, each behind the word `is`.
pub fn columns<const P: u32>(alloc: Global, columns: &[Column<P>]) -> Result<String, AllocError> {
    let mut text = String::new(alloc);
    for column in columns {
        let values = values(alloc, column)?;
        text = format!(in alloc; "{text} is{values}")?;
    }
    Ok(text)
}
