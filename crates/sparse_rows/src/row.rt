ghost use Rattle.std.specs.Prelude.{◌≡◌, ◌≢◌, ◌↔◌, ℕ, ◌+◌, ◌*◌, ◌%◌, ◌<◌, List, [], ◌∷◌, ◌++◌, length, slice_get, Some, IfOk, OnOk, OnErr, IsTrue, MatchOption};
ghost use Rattle.linear_law.specs.Names.{unit_vector};
ghost use Rattle.fp_field.specs.Served.{served};
ghost use Rattle.sparse_rows.specs.Rows.{IsBelow, IsFirst, IsRow, pairing, value_in};

use crate::merging::{merged, put, summed};
use fp_field::Fp;
use std::alloc::{AllocError, Global};
use std::marker::Model;

/// A row: a finite map from positions to nonzero values, kept as ascending pairs.
#[derive(Drop, Debug)]
pub struct Row<const P: u32> {
    pairs: Vec<(u32, Fp<P>)>,
}

impl<const P: u32> Model for Row<P> {
    ghost Value = { List (ℕ × ℕ) };

    ghost view = { λ r. r.pairs.items };

    ghost invariant = { λ r. IsRow P r.pairs.items };
}

impl<const P: u32> Row<P> {
    /// The empty row.
    pub fn new(alloc: Global) -> Row<P>
        ensures { result ≡ [] }
    {
        Row {
            pairs: Vec::new(alloc),
        }
    }

    /// The sum of the pairs, in any order. Ascending pairs with no zeros take linear time.
    pub fn from_pairs(alloc: Global, pairs: &[(u32, Fp<P>)]) -> Result<Row<P>, AllocError>
        requires { IsTrue (served P) }
        ensures sum { IfOk result (λ r. (k : ℕ) → value_in r k ≡ value_in pairs.now k % P) }
        ensures row { IfOk result (λ r. IsRow P r) }
        ensures below { IfOk result (λ r. (bound : ℕ) → IsBelow bound pairs.now → IsBelow bound r) }
    {
        if is_row(pairs) {
            return Ok(Row {
                pairs: pairs.to_vec(alloc)?,
            });
        }
        let mut sorted = pairs.to_vec(alloc)?;
        sorted.sort_by_key(
            |pair: &(u32, Fp<P>)| -> u32
                ensures { result ≡ pair.now.0 }
            { pair.0 },
        )?;
        let pairs = summed(alloc, sorted.as_slice())?;
        Ok(Row { pairs })
    }

    /// An equal row.
    pub fn copy(&self) -> Result<Row<P>, AllocError>
        ensures same { IfOk result (λ r. r ≡ self.now) }
        ensures row { IfOk result (λ r. IsRow P r) }
    {
        Ok(Row {
            pairs: self.pairs.as_slice().to_vec(*self.pairs.allocator())?,
        })
    }

    /// Adds `by` times the other row, in linear time. Without memory the row stays as it was.
    pub fn add_scaled(&mut self, other: &Row<P>, by: Fp<P>) -> Result<(), AllocError>
        requires { IsTrue (served P) }
        ensures sum { OnOk result ((k : ℕ) → value_in self.new k ≡ (value_in self.old k + by.entry * value_in other.now k) % P) }
        ensures row { OnOk result (IsRow P self.new) }
        ensures unchanged { OnErr result (self.new ≡ self.old) }
    {
        let alloc = *self.pairs.allocator();
        self.pairs = merged(alloc, self.pairs.as_slice(), other.pairs.as_slice(), by)?;
        Ok(())
    }

    /// Appends a pair behind all others.
    pub fn push_last(&mut self, position: u32, value: Fp<P>) -> Result<(), AllocError>
        requires last { IsBelow position self.old }
        requires nonzero { value ≢ 0 }
        ensures pushed { OnOk result (self.new ≡ self.old ++ (position, value.entry) ∷ []) }
        ensures unchanged { OnErr result (self.new ≡ self.old) }
    {
        put(&mut self.pairs, position, value)
    }

    /// The least position; none where the row is empty.
    pub fn lead(&self) -> Option<u32>
        ensures { MatchOption result (self.now ≡ []) (λ k. IsFirst self.now k) }
    {
        match self.pairs.as_slice() {
            [] => None,
            [first, ..] => Some(first.0),
        }
    }

    /// The value at a position, or 0.
    pub fn at(&self, position: u32) -> Fp<P>
        requires { IsTrue (served P) }
        ensures { result ≡ value_in self.now position }
    {
        let pairs = self.pairs.as_slice();
        match pairs.binary_search_by_key(
            &position,
            |pair: &(u32, Fp<P>)| -> u32
                ensures { result ≡ pair.now.0 }
            { pair.0 },
        ) {
            Ok(place) => pairs[place].1,
            Err(_) => Fp::new(0),
        }
    }

    /// Whether the row is empty.
    pub fn is_zero(&self) -> bool
        ensures { IsTrue result ↔ (self.now ≡ []) }
    {
        self.pairs.is_empty()
    }

    /// The sum of the products of the values.
    pub fn dot(&self, other: &Row<P>) -> Fp<P>
        requires { IsTrue (served P) }
        ensures { result ≡ pairing self.now other.now % P }
    {
        let mut sum = Fp::new(0);
        for pair in self.pairs.as_slice() {
            sum = sum.add(pair.1.mul(other.at(pair.0)));
        }
        sum
    }

    /// The number of pairs.
    pub fn len(&self) -> usize
        ensures { result ≡ length self.now }
    {
        self.pairs.len()
    }

    /// The k-th pair, ascending.
    pub fn pair(&self, k: usize) -> (u32, Fp<P>)
        requires { k < length self.now }
        ensures { slice_get self.now k ≡ Some result }
    {
        self.pairs[k]
    }

    /// The pairs, ascending.
    pub fn as_slice(&self) -> &[(u32, Fp<P>)]
        ensures same { result.now ≡ self.now }
        ensures row { IsRow P self.now }
    {
        self.pairs.as_slice()
    }
}

/// Whether the pairs ascend and none is 0, so that they are a row as they stand.
fn is_row<const P: u32>(pairs: &[(u32, Fp<P>)]) -> bool
    ensures { IsTrue result → IsRow P pairs.now }
{
    let mut least: u64 = 0;
    for pair in pairs {
        if pair.1.is_zero() || (pair.0 as u64) < least {
            return false;
        }
        least = pair.0 as u64 + 1;
    }
    true
}
