ghost use Rattle.std.specs.{Prelude.{◌≡◌, ℕ, ◌+◌, ◌<◌, ◌^◌, length, IfOk}, List.Sorted.IsStrictlySortedBy};
ghost use Rattle.linear_law.specs.Names.{Among, Each};
ghost use Rattle.simplicial_law.specs.Names.{faces, simplex_cmp};

use crate::cofaces::{Cofaces, cofaces_of};
use crate::incidence::face_places;
use simplex_set::FlatLists;
use std::alloc::{AllocError, Global};

// The simplices of one degree, for each the places of its faces one degree below, and for each simplex
// one degree below those of which it is a face.
#[derive(Debug, Drop)]
pub(crate) struct Level {
    pub simplices: FlatLists,
    pub faces: FlatLists,
    pub cofaces: Cofaces,
}

ghost use Rattle.complex_index.specs.Names.{AreLevels, Fits, IsIndexed, level};

// A level over the one below.
fn level_over(
    alloc: Global,
    size: usize,
    lower: &FlatLists,
    simplices: &FlatLists,
) -> Result<Level, AllocError>
    requires ordered { IsStrictlySortedBy simplex_cmp lower.now }
    requires small { length lower.now < 2 ^ 32 }
    requires few { length simplices.now < 2 ^ 32 }
    requires sized { Each (λ s. length s ≡ size) simplices.now }
    requires present { Each (λ s. Each (λ t. Among t lower.now) (faces s)) simplices.now }
    ensures same { IfOk result (λ l. l.simplices ≡ simplices.now) }
    ensures fits { IfOk result (λ l. Fits lower.now simplices.now l.faces l.cofaces) }
{
    let faces = face_places(alloc, size, lower, simplices)?;
    let cofaces = cofaces_of(alloc, lower.len(), &faces)?;
    let simplices = simplices.copy()?;
    Ok(Level {
        simplices,
        faces,
        cofaces,
    })
}

fn first_level(alloc: Global, simplices: &FlatLists) -> Result<Level, AllocError>
    ensures { IfOk result (λ l. l.simplices ≡ simplices.now) }
{
    let simplices = simplices.copy()?;
    Ok(Level {
        simplices,
        faces: FlatLists::from_flat(0, 0, Vec::new(alloc)),
        cofaces: Cofaces::new(alloc),
    })
}

// The level of degree n.
fn level_at(alloc: Global, all: &[FlatLists], n: usize) -> Result<Level, AllocError>
    requires inside { n < length all.now }
    requires levels { AreLevels all.now }
    ensures same { IfOk result (λ l. l.simplices ≡ level all.now n) }
    ensures fits { IfOk result (λ l. (m : ℕ) → m + 1 ≡ n → Fits (level all.now m) (level all.now n) l.faces l.cofaces) }
{
    if n == 0 {
        return first_level(alloc, &all[0]);
    }
    level_over(alloc, n + 1, &all[n - 1], &all[n])
}

// The levels of all degrees.
pub(crate) fn levels_of(alloc: Global, all: &[FlatLists]) -> Result<Vec<Level>, AllocError>
    requires { AreLevels all.now }
    ensures { IfOk result (λ v. IsIndexed all.now v.items) }
{
    let mut levels = Vec::new(alloc);
    for n in 0..all.len() {
        levels.push(level_at(alloc, all, n)?)?;
    }
    Ok(levels)
}
