ghost use Rattle.std.specs.{Prelude.{◌≡◌, ◌<◌, ◌^◌, [], length, get_or, IfOk, OnOk}, List.Sorted.IsStrictlySortedBy};
ghost use Rattle.linear_law.specs.Names.{Among, Each};
ghost use Rattle.simplicial_law.specs.Names.{faces, simplex_cmp};
ghost use Rattle.complex_index.specs.Names.{AddsPlaces, ArePlacesOf};

use simplex_set::FlatLists;
use std::alloc::{AllocError, Global};

// The place of the face without the vertex at `at`.
fn place_of_face(lower: &FlatLists, simplex: &[u32], at: usize) -> usize
    requires ordered { IsStrictlySortedBy simplex_cmp lower.now }
    requires inside { at < length simplex.now }
    requires present { Among (get_or (faces simplex.now) at []) lower.now }
    ensures below { result < length lower.now }
    ensures same { get_or lower.now result [] ≡ get_or (faces simplex.now) at [] }
{
    match lower.place_of(&simplex[..at], &simplex[at + 1..]) {
        Some(place) => place,
        None => unreachable!(),
    }
}

// Appends the places of the faces of a simplex.
fn put_places(places: &mut Vec<u32>, lower: &FlatLists, simplex: &[u32]) -> Result<(), AllocError>
    requires ordered { IsStrictlySortedBy simplex_cmp lower.now }
    requires small { length lower.now < 2 ^ 32 }
    requires present { Each (λ t. Among t lower.now) (faces simplex.now) }
    ensures { OnOk result (AddsPlaces lower.now simplex.now places.old.items places.new.items) }
{
    for at in 0..simplex.len() {
        places.push(place_of_face(lower, simplex, at) as u32)?;
    }
    Ok(())
}

// The places of the faces of each simplex of a list.
pub(crate) fn face_places(
    alloc: Global,
    size: usize,
    lower: &FlatLists,
    upper: &FlatLists,
) -> Result<FlatLists, AllocError>
    requires ordered { IsStrictlySortedBy simplex_cmp lower.now }
    requires small { length lower.now < 2 ^ 32 }
    requires sized { Each (λ s. length s ≡ size) upper.now }
    requires present { Each (λ s. Each (λ t. Among t lower.now) (faces s)) upper.now }
    ensures { IfOk result (λ l. ArePlacesOf lower.now upper.now l) }
{
    let mut places = Vec::with_capacity(alloc, upper.len().saturating_mul(size))?;
    for y in 0..upper.len() {
        put_places(&mut places, lower, upper.get(y))?;
    }
    Ok(FlatLists::from_flat(size, upper.len(), places))
}
