//! Elimination over a prime field, on sparse rows.
#![tactic(auto)]

mod echelon;
mod eliminating;
mod entries;
mod expanding;
mod pivots;
mod reducing;
mod space;
mod walking;

pub use echelon::echelon_of;
pub use entries::Entries;
pub use expanding::kernel_and_stored;
use fp_field::Fp;
pub use pivots::Pivots;
pub use space::{Space, kernel};
use sparse_rows::Row;

/// A row that the walk has left, with its lead and how it arose.
#[derive(Drop)]
pub struct Stored<const P: u32> {
    /// The lead: the least place at which the row is not zero.
    pub place: u32,
    /// The factor that takes the value at the lead to -1.
    pub factor: Fp<P>,
    /// The values of the row.
    pub row: Entries<P>,
    /// The number of the given row that it is left of.
    pub source: u32,
    /// The older stored rows that were added, by number, with their factors.
    pub history: Entries<P>,
}

/// A row that went to zero, and the stored rows that were added to get there.
#[derive(Drop)]
pub struct Class<const P: u32> {
    /// The number of the given row.
    pub place: u32,
    /// The stored rows that were added, by number, with their factors.
    pub history: Entries<P>,
}

/// A row of a reduced echelon list.
#[derive(Drop)]
pub struct EchelonRow<const P: u32> {
    /// The least place of the row, where it is 1.
    pub pivot: u32,
    /// The row.
    pub row: Row<P>,
    /// Coefficients of given rows that give it.
    pub combination: Row<P>,
}
