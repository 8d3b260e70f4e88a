ghost use Rattle.std.specs.Prelude.{◌≡◌, ℕ, ◌<◌, ◌^◌, ◌++◌, ◌∷◌, [], ◌==◌, cond, false, length, get_or, IfOk, OnOk};
ghost use Rattle.linear_law.specs.Names.{Each};

use simplex_set::FlatLists;
use std::alloc::{AllocError, Global};
use std::marker::Model;

// The place of a simplex one degree above, and whether the face is that without a vertex at an odd
// place.
#[derive(Clone, Copy, Debug)]
pub(crate) struct Coface {
    pub place: u32,
    pub odd: bool,
}

// For each simplex those of which it is a face, in one array, and where each part of it begins and
// ends.
#[derive(Debug, Drop)]
pub(crate) struct Cofaces {
    bounds: Vec<usize>,
    items: Vec<Coface>,
}

impl Model for Cofaces {
    ghost use Rattle.std.specs.Prelude.{List, length};
    ghost use Rattle.complex_index.specs.Incidence.{AreBounds, parts};
    ghost use Rattle.complex_index.specs.declared.cofaces.Coface.{Coface};

    ghost Value = { List (List Coface) };

    ghost view = { λ c. parts c.bounds.items c.items.items };

    ghost invariant = { λ c. AreBounds (length c.items.items) c.bounds.items };
}

ghost use Rattle.complex_index.specs.Names.{marks, above_at, list_at, lists_of};

impl Cofaces {
    // None for no simplex.
    pub(crate) fn new(alloc: Global) -> Cofaces
        ensures { result ≡ [] }
    {
        Cofaces {
            bounds: Vec::new(alloc),
            items: Vec::new(alloc),
        }
    }

    // The same lists in one array.
    fn of(alloc: Global, lists: &[Vec<Coface>]) -> Result<Cofaces, AllocError>
        ensures { IfOk result (λ c. c ≡ lists_of lists.now) }
    {
        let mut bounds = Vec::with_capacity(alloc, lists.len() + 1)?;
        let mut items = Vec::new(alloc);
        bounds.push(0usize)?;
        for list in lists {
            items.extend_from_slice(list)?;
            bounds.push(items.len())?;
        }
        items.shrink_to_fit();
        Ok(Cofaces { bounds, items })
    }

    // Those of the simplex at a place.
    pub(crate) fn get(&self, place: usize) -> &[Coface]
        requires { place < length self.now }
        ensures { result.now ≡ get_or self.now place [] }
    {
        &self.items[self.bounds[place]..self.bounds[place + 1]]
    }
}

fn add_mark(above: &mut [Vec<Coface>], at: usize, coface: Coface) -> Result<(), AllocError>
    requires { at < length above.old }
    ensures { OnOk result ((x : ℕ) → list_at above.new x ≡ list_at above.old x ++ cond (at == x) (coface ∷ []) []) }
{
    let list = &mut above[at];
    list.push(coface)?;
    Ok(())
}

// Marks the faces of the simplex y.
fn mark(above: &mut [Vec<Coface>], y: u32, places: &[u32]) -> Result<(), AllocError>
    requires { Each (λ x. x < length above.old) places.now }
    ensures { OnOk result ((x : ℕ) → list_at above.new x ≡ list_at above.old x ++ marks x y false places.now) }
{
    let mut odd = false;
    for place in places {
        add_mark(above, *place as usize, Coface { place: y, odd })?;
        odd = !odd;
    }
    Ok(())
}

fn empty_lists(alloc: Global, count: usize) -> Result<Vec<Vec<Coface>>, AllocError>
    ensures len { IfOk result (λ v. length v.items ≡ count) }
    ensures empty { IfOk result (λ v. (x : ℕ) → list_at v.items x ≡ []) }
{
    let mut all = Vec::with_capacity(alloc, count)?;
    for _ in 0..count {
        all.push(Vec::new(alloc))?;
    }
    Ok(all)
}

// The simplices above each of `count` simplices, from the places of the faces of each.
pub(crate) fn cofaces_of(
    alloc: Global,
    count: usize,
    faces: &FlatLists,
) -> Result<Cofaces, AllocError>
    requires few { length faces.now < 2 ^ 32 }
    requires below { Each (λ ps. Each (λ x. x < count) ps) faces.now }
    ensures len { IfOk result (λ c. length c ≡ count) }
    ensures above { IfOk result (λ c. (x : ℕ) → get_or c x [] ≡ above_at x 0 faces.now) }
{
    let mut all = empty_lists(alloc, count)?;
    for y in 0..faces.len() {
        mark(&mut all, y as u32, faces.get(y))?;
    }
    Cofaces::of(alloc, &all)
}
