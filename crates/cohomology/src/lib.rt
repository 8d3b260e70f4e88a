//! Canonical classes, coboundaries, primitives and cycles of the cohomology of a complex over a prime field, and
//! of a complex relative to a subcomplex, with the coordinates of cocycles. `Classes` is the light depth: classes and cycles,
//! which tell coordinates. `classes_at` finds the classes of one degree
//! alone. `Cohomology` keeps coboundaries and primitives too. Matrices are written over `Basis`.
#![tactic(auto)]

mod basis;
mod classes;
mod coordinates;
mod data;
mod pairs;
mod walk;

pub use basis::{Basis, Column};
pub use classes::Classes;
pub use coordinates::{Coordinates, CoordinatesRefused};
pub use data::Cohomology;
pub use walk::{classes_at, no_pivots};
