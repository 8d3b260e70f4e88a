//! The sign of a cut, in both forms.
ghost use Rattle.std.specs.Prelude.{◌≡◌, ℕ, ◌+◌, ◌-◌, ◌<◌, ◌≤◌, ◌^◌, [], ◌∷◌, ◌++◌, drop, length, pos, slice_index, slice_set, sum, take};
ghost use Rattle.signed_sum.specs.Names.{count_before, inversion_count, less, numbers_from, occurs, signed};
ghost use Rattle.surjection_law.specs.Names.{caesura_count, arity};
ghost use Rattle.interval_cut_law.specs.Names.{IsCutFrom, gap_symbols, gap_word, sign_exponent};

use crate::faces::{end_of, point_of, write_numbers};

/// The greatest value of a surjection, and one more.
pub(crate) const VALUES: usize = 33;

/// -1 to the exponent.
pub(crate) fn sign_of(exponent: u32) -> i8
    ensures { result ≡ signed exponent (pos 1) }
{
    if exponent % 2 == 0 { 1 } else { -1 }
}

/// 1 where the value of a place comes again, else 0.
pub(crate) fn comes_again(values: &[u8], i: usize) -> u32
    requires { i < length values.now }
    ensures { result ≡ occurs (slice_index values.now i) (drop (i + 1) values.now) }
{
    values[i + 1..].contains(&values[i]) as u32
}

/// The sum of the numbers.
fn sum_of(numbers: &[u32]) -> u32
    requires { sum numbers.now < 2 ^ 32 }
    ensures { result ≡ sum numbers.now }
{
    numbers.iter().sum()
}

/// The length of the i-th interval, from 0: its edges, and one more at a caesura.
fn length_of(values: &[u8], inner: &[u32], top: u32, i: usize) -> u32
    requires cut { IsCutFrom values.now 0 (inner.now ++ top ∷ []) }
    requires inside { i < length values.now }
    requires low { top ≤ 255 }
    ensures value { result ≡ slice_index (inner.now ++ top ∷ []) i - slice_index (0 ∷ (inner.now ++ top ∷ [])) i + occurs (slice_index values.now i) (drop (i + 1) values.now) }
    ensures small { result ≤ 256 }
{
    end_of(inner, top, i) - point_of(inner, top, i) + comes_again(values, i)
}

/// Adds the length of an interval to those of its value, and answers the sum of those of lower values.
fn pass(lengths: &mut [u32], value: u8, size: u32) -> u32
    requires inside { value < length lengths.old }
    requires small { sum lengths.old + size < 2 ^ 32 }
    ensures below { result ≡ sum (take value lengths.old) }
    ensures raised { lengths.new ≡ slice_set lengths.old value (slice_index lengths.old value + size) }
{
    let below = sum_of(&lengths[..value as usize]);
    lengths[value as usize] += size;
    below
}

/// The exponent of the sign of a cut: for each two intervals of which the first has the greater value,
/// the product of their lengths, and for each caesura the right end of its interval. The walk from the
/// right keeps the lengths of the intervals that it has passed, by value.
fn exponent_of(values: &[u8], inner: &[u32], top: u32) -> u32
    requires cut { IsCutFrom values.now 0 (inner.now ++ top ∷ []) }
    requires short { length values.now ≤ 255 }
    requires narrow { arity values.now ≤ 32 }
    requires low { top ≤ 255 }
    ensures { result ≡ sign_exponent values.now 0 (inner.now ++ top ∷ []) }
{
    let mut lengths = [0; VALUES];
    let mut exponent = 0;
    let mut i = values.len();
    while i > 0 {
        i -= 1;
        let size = length_of(values, inner, top, i);
        exponent += size * pass(&mut lengths, values[i], size);
        exponent += comes_again(values, i) * end_of(inner, top, i);
    }
    exponent
}

/// The sign of a cut by the exponents.
pub(crate) fn cut_sign(values: &[u8], inner: &[u32], top: u32) -> i8
    requires cut { IsCutFrom values.now 0 (inner.now ++ top ∷ []) }
    requires short { length values.now ≤ 255 }
    requires narrow { arity values.now ≤ 32 }
    requires low { top ≤ 255 }
    ensures { result ≡ signed (sign_exponent values.now 0 (inner.now ++ top ∷ [])) (pos 1) }
{
    sign_of(exponent_of(values, inner, top))
}
