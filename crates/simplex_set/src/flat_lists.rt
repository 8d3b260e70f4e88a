ghost use Rattle.std.specs.{Prelude.{◌≡◌, ◌<◌, ◌*◌, ◌++◌, [], length, map, get_or, IfOk, MatchOption}, List.Sorted.IsStrictlySortedBy};
ghost use Rattle.linear_law.specs.Names.{Among, Each};
ghost use Rattle.simplicial_law.specs.Names.{simplex_cmp};
ghost use Rattle.simplex_set.specs.Pieces.{pieces};

use crate::{Simplex, compare};
use std::alloc::{AllocError, Global};
use std::cmp::Ordering;
use std::marker::Model;

/// Lists of numbers of one length, in one array.
#[derive(Debug, Drop)]
pub struct FlatLists {
    size: usize,
    count: usize,
    numbers: Vec<u32>,
}

impl Model for FlatLists {
    ghost use Rattle.std.specs.Prelude.{◌≡◌, ◌*◌, List, ℕ, length};
    ghost use Rattle.simplex_set.specs.Pieces.{pieces};

    ghost Value = { List (List ℕ) };

    ghost view = { λ l. pieces l.size l.count l.numbers.items };

    ghost invariant = { λ l. length l.numbers.items ≡ l.count * l.size };
}

// How a list stands to the list `first` with `rest` behind it.
fn order_to(list: &[u32], first: &[u32], rest: &[u32]) -> Ordering
    ensures { result ≡ simplex_cmp list.now (first.now ++ rest.now) }
{
    if list.len() < first.len() {
        return compare(list, first);
    }
    match compare(&list[..first.len()], first) {
        Ordering::Equal => compare(&list[first.len()..], rest),
        order => order,
    }
}

impl FlatLists {
    /// The first `count` pieces of a list, each of `size` numbers.
    pub fn from_flat(size: usize, count: usize, numbers: Vec<u32>) -> FlatLists
        requires { length numbers.items ≡ count * size }
        ensures { result ≡ pieces size count numbers.items }
    {
        FlatLists {
            size,
            count,
            numbers,
        }
    }

    // A list of simplices with `size` vertices each.
    pub(crate) fn of(alloc: Global, all: &[&Simplex], size: usize) -> Result<FlatLists, AllocError>
        requires { Each (λ s. length s ≡ size) (map (λ s. s.now) all.now) }
        ensures { IfOk result (λ l. l ≡ map (λ s. s.now) all.now) }
    {
        let mut numbers = Vec::with_capacity(alloc, all.len().saturating_mul(size))?;
        for simplex in all {
            numbers.extend_from_slice(simplex.vertices())?;
        }
        Ok(FlatLists::from_flat(size, all.len(), numbers))
    }

    /// An equal list.
    pub fn copy(&self) -> Result<FlatLists, AllocError>
        ensures { IfOk result (λ l. l ≡ self.now) }
    {
        Ok(FlatLists {
            size: self.size,
            count: self.count,
            numbers: self.numbers.as_slice().to_vec(*self.numbers.allocator())?,
        })
    }

    /// How many there are.
    pub fn len(&self) -> usize
        ensures { result ≡ length self.now }
    {
        self.count
    }

    /// The list at a place.
    pub fn get(&self, place: usize) -> &[u32]
        requires { place < length self.now }
        ensures { result.now ≡ get_or self.now place [] }
    {
        let start = place * self.size;
        &self.numbers[start..start + self.size]
    }

    /// The place of the list `first` with `rest` behind it among lists in order; `None` exactly where
    /// it is not there.
    pub fn place_of(&self, first: &[u32], rest: &[u32]) -> Option<usize>
        requires { IsStrictlySortedBy simplex_cmp self.now }
        ensures { MatchOption result (Among (first.now ++ rest.now) self.now → ⊥) (λ k. (k < length self.now) × (get_or self.now k [] ≡ first.now ++ rest.now)) }
    {
        let mut low = 0;
        let mut high = self.len();
        while low < high {
            let middle = low + (high - low) / 2;
            match order_to(self.get(middle), first, rest) {
                Ordering::Less => low = middle + 1,
                Ordering::Greater => high = middle,
                Ordering::Equal => return Some(middle),
            }
        }
        None
    }
}
