//! Charges of many numbers.
ghost use Rattle.std.specs.Prelude.{◌≡◌, ◌*◌, ◌∷◌, [], ℕ, List, map};
ghost use Rattle.may_elements.specs.Counted.{cut_off};
ghost use Rattle.term_total.specs.Names.{Charges, IsCount, repeated, sum_of};

use may_elements::MayRefused;
use may_elements::terms::{MOST_COUNT, Terms};

/// A product, cut off.
pub(crate) fn product(a: u32, b: u64) -> u64
    ensures { result ≡ cut_off (a * b) }
{
    MOST_COUNT.min(u64::from(a).saturating_mul(b))
}

/// The sum of numbers, cut off.
pub(crate) fn capped_sum(numbers: &[u64]) -> u64
    ensures { result ≡ cut_off (sum_of numbers.now) }
{
    let mut sum: u64 = 0;
    for n in numbers {
        sum = MOST_COUNT.min(sum.saturating_add(*n));
    }
    sum
}

/// Charges a number.
fn charge(terms: &mut Terms, n: u64) -> Result<(), MayRefused>
    ensures { Charges terms.old (n ∷ []) result terms.new }
{
    match terms.charge(n) {
        Ok(()) => Ok(()),
        Err(over) => Err(MayRefused::TooManyTerms(over)),
    }
}

/// Charges numbers, one after the other.
fn charge_all(terms: &mut Terms, numbers: &[u64]) -> Result<(), MayRefused>
    ensures { Charges terms.old numbers.now result terms.new }
{
    for n in numbers {
        charge(terms, *n)?;
    }
    Ok(())
}

/// Charges the numbers of a row, the row so many times over. The rows that fit are charged together. Numbers that were cut
/// off are charged as they are.
pub(crate) fn charge_rows(terms: &mut Terms, row: &[u64], times: u64) -> Result<(), MayRefused>
    ensures charged { (ns : List ℕ) → row.now ≡ map cut_off ns → Charges terms.old (repeated times ns) result terms.new }
    ensures count { IsCount terms.old }
{
    let left = terms.left();
    let sum = capped_sum(row);
    let whole = if sum == 0 {
        times
    } else {
        times.min(left / sum)
    };
    charge(terms, whole * sum)?;
    if whole < times {
        return charge_all(terms, row);
    }
    Ok(())
}
