//! Which row has its lead at a place.
ghost use Rattle.std.specs.Prelude.{◌≡◌, ◌≢◌, ◌↔◌, ◌<◌, length, set, slice_index_or, Some, None, IfOk, IsTrue};
ghost use Rattle.linear_law.specs.Names.{copies};

use std::alloc::{AllocError, Global};
use std::marker::Model;

/// A table of pivots: for each place the number of the row that has its lead there, if one has.
#[derive(Drop)]
pub struct Pivots {
    rows: Vec<Option<u32>>,
}

impl Model for Pivots {
    ghost use Rattle.std.specs.Prelude.{ℕ, List, Option};

    ghost Value = { List (Option ℕ) };

    ghost view = { λ t. t.rows.items };
}

impl Pivots {
    /// No pivot among `width` places.
    pub fn none(alloc: Global, width: usize) -> Result<Pivots, AllocError>
        ensures { IfOk result (λ t. t ≡ copies width None) }
    {
        let rows = vec![in alloc; None; width]?;
        Ok(Pivots { rows })
    }

    /// The number of places.
    pub fn width(&self) -> usize
        ensures { result ≡ length self.now }
    {
        self.rows.len()
    }

    /// The number of the row that has its lead at a place.
    pub fn row_of(&self, place: usize) -> Option<u32>
        requires { place < length self.now }
        ensures { result ≡ slice_index_or self.now place None }
    {
        self.rows[place]
    }

    /// Whether some row has its lead at a place.
    pub fn contains(&self, place: usize) -> bool
        requires { place < length self.now }
        ensures { IsTrue result ↔ (slice_index_or self.now place None ≢ None) }
    {
        self.row_of(place).is_some()
    }

    /// Notes that a row has its lead at a place.
    pub(crate) fn insert(&mut self, place: usize, row: u32)
        requires { place < length self.old }
        ensures { self.new ≡ set self.old place (Some row) }
    {
        self.rows[place] = Some(row);
    }
}
