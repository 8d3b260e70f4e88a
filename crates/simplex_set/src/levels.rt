ghost use Rattle.std.specs.{Prelude.{◌≡◌, ℕ, ◌==◌, length, map, IfOk}, List.filter};
ghost use Rattle.simplex_set.specs.{InOrder.in_order, Levels.{AreLevelsOf, IsLargest}};

use crate::{FlatLists, Simplex};
use indexmap::IndexSet;
use std::alloc::{AllocError, Global};

// Those with `size` vertices.
fn of_size(alloc: Global, all: &[Simplex], size: usize) -> Result<Vec<&Simplex>, AllocError>
    ensures { IfOk result (λ v. map (λ s. s.now) v.items ≡ filter (λ s. length s == size) all.now) }
{
    let mut found = Vec::new(alloc);
    for simplex in all {
        if simplex.vertices().len() == size {
            found.push(simplex)?;
        }
    }
    Ok(found)
}

// Those with `size` vertices, in order.
fn sorted_of_size(
    alloc: Global,
    set: &IndexSet<Simplex>,
    size: usize,
) -> Result<FlatLists, AllocError>
    ensures { IfOk result (λ l. l ≡ filter (λ s. length s == size) (in_order set.now.keys)) }
{
    let mut found = of_size(alloc, set.as_slice(), size)?;
    found.sort_unstable();
    FlatLists::of(alloc, &found, size)
}

// The greatest number of vertices.
fn largest(all: &[Simplex]) -> usize
    ensures { IsLargest all.now result }
{
    let mut most = 0usize;
    for simplex in all {
        most = most.max(simplex.vertices().len());
    }
    most
}

// The simplices of all degrees.
pub(crate) fn levels_of(
    alloc: Global,
    set: &IndexSet<Simplex>,
) -> Result<Vec<FlatLists>, AllocError>
    ensures { IfOk result (λ v. AreLevelsOf (in_order set.now.keys) v.items) }
{
    let mut levels = Vec::new(alloc);
    for degree in 0..largest(set.as_slice()) {
        levels.push(sorted_of_size(alloc, set, degree + 1)?)?;
    }
    Ok(levels)
}
