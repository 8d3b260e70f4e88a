//! The products and their columns.
ghost use Rattle.std.specs.Prelude.{◌≡◌, ◌↔◌, ◌<◌, ◌≤◌, ◌+◌, ◌*◌, ◌^◌, ℕ, length, get_or, slice_get, sum_by, Some, IfOk, IsTrue};
ghost use Rattle.linear_law.specs.Names.{Each};
ghost use Rattle.report.specs.declared.complex.ComplexPart.{ComplexPart};
ghost use Rattle.report_law.specs.Names.{products as products_of, number_pairs, numbers_of, product_of, ranks_of};
ghost use Rattle.certificate_law.specs.Names.{Asks, numbered, product_column, product_stated, with_stands};
ghost use Rattle.certificate_walk.specs.Names.{product_lines, IsWalk};
ghost use Rattle.count_check.specs.Columns.{AreSmall, with_numbers};

use crate::columns::ask_first;
use crate::rank::rank_at;
use certificate_walk::{Stop, ask};
use report::{PairColumn, Product, ProductPart};

/// The pair of classes at a place, counted from 0, of the pairs of a class of one degree and one of another.
fn pair_at(first: u32, second: u32, place: usize) -> Option<(u32, u32)>
    requires first { first < 2 ^ 28 }
    requires second { second < 2 ^ 28 }
    ensures { result ≡ slice_get (number_pairs first second) place }
{
    let (place, second) = (place as u64, u64::from(second));
    if place < u64::from(first) * second {
        Some(((place / second) as u32 + 1, (place % second) as u32 + 1))
    } else {
        None
    }
}

/// Whether a column stands at a place of the products of degrees with so many classes, and has so many rows.
fn is_pair_column(first: u32, second: u32, rows: u32, place: usize, column: &PairColumn) -> bool
    requires first { first < 2 ^ 28 }
    requires second { second < 2 ^ 28 }
    ensures { IsTrue result ↔ ((slice_get (number_pairs first second) place ≡ Some (numbers_of column.now)) × (length column.now.values ≡ rows)) }
{
    match pair_at(first, second, place) {
        Some((i, j)) => i == column.i && j == column.j && column.values.len() == rows as usize,
        None => false,
    }
}

/// The walk of the columns of a product.
fn pair_columns(ranks: &[u32], product: &ProductPart, before: u64) -> Result<u64, Stop>
    requires small { AreSmall ranks.now }
    requires room { before + 2 * length product.now.columns < 2 ^ 64 }
    ensures lines { IfOk result (λ last. last ≡ before + 2 * length product.now.columns) }
    ensures walk { (c : ComplexPart) (p : ℕ) → ranks_of c ≡ ranks.now → IsWalk (Asks p 5) before (numbered (with_numbers c product.now) 0 product.now.columns) result }
{
    let first = rank_at(ranks, u64::from(product.a));
    let second = rank_at(ranks, u64::from(product.b));
    let rows = rank_at(ranks, u64::from(product.a) + u64::from(product.b));
    let mut at = before;
    for (place, column) in product.columns.as_slice().iter().enumerate() {
        at = ask_first(is_pair_column(first, second, rows, place, column), at)?;
    }
    Ok(at)
}

/// Whether a product is the live one at its place.
fn is_product(live: &[Product], place: usize, product: &ProductPart) -> bool
    ensures { IsTrue result ↔ (slice_get live.now place ≡ Some (product_of product.now)) }
{
    match live.get(place) {
        Some(expected) => expected.a == product.a && expected.b == product.b,
        None => false,
    }
}

/// The walk of a product.
fn product(
    ranks: &[u32],
    live: &[Product],
    place: usize,
    product: &ProductPart,
    before: u64,
) -> Result<u64, Stop>
    requires small { AreSmall ranks.now }
    requires room { before + product_lines product.now < 2 ^ 64 }
    ensures lines { IfOk result (λ last. last ≡ before + product_lines product.now) }
    ensures walk { (c : ComplexPart) (p : ℕ) → ranks_of c ≡ ranks.now → products_of (ranks_of c) ≡ live.now → IsWalk (Asks p 5) before (product_stated c place product.now) result }
{
    let line = ask(is_product(live, place, product), before)?;
    pair_columns(ranks, product, line)
}

/// The walk of the products.
pub(crate) fn products(
    ranks: &[u32],
    live: &[Product],
    listed: &[ProductPart],
    before: u64,
) -> Result<u64, Stop>
    requires small { AreSmall ranks.now }
    requires room { before + sum_by product_lines listed.now < 2 ^ 64 }
    ensures { (c : ComplexPart) (p : ℕ) → ranks_of c ≡ ranks.now → products_of (ranks_of c) ≡ live.now → IsWalk (Asks p 5) before (numbered (product_stated c) 0 listed.now) result }
{
    let mut at = before;
    for (place, part) in listed.iter().enumerate() {
        at = product(ranks, live, place, part, at)?;
    }
    Ok(at)
}

/// Whether no column of a product is missing.
fn has_pair_columns(ranks: &[u32], product: &ProductPart) -> bool
    requires { AreSmall ranks.now }
    ensures { IsTrue result ↔ (length (number_pairs (get_or ranks.now product.now.a 0) (get_or ranks.now product.now.b 0)) ≤ length product.now.columns) }
{
    let first = u64::from(rank_at(ranks, u64::from(product.a)));
    let second = u64::from(rank_at(ranks, u64::from(product.b)));
    first * second <= product.columns.len() as u64
}

/// Whether no column of the products is missing.
pub(crate) fn have_pair_columns(ranks: &[u32], listed: &[ProductPart]) -> bool
    requires { AreSmall ranks.now }
    ensures { IsTrue result ↔ Each (λ x. length (number_pairs (get_or ranks.now x.a 0) (get_or ranks.now x.b 0)) ≤ length x.columns) listed.now }
{
    for product in listed {
        if !has_pair_columns(ranks, product) {
            return false;
        }
    }
    true
}
