ghost use Rattle.std.specs.Prelude.{◌≡◌, OnOk};
ghost use Rattle.simplicial_law.specs.{Names.IsClosed, ListedSimplices.{with_facet as with_facet_is}};
ghost use Rattle.simplex_set.specs.InOrder.{in_order};

use crate::Simplex;
use indexmap::IndexSet;
use std::alloc::{AllocError, Global};

// Adds a simplex with its faces. One that is there already has its faces there, so each new simplex
// is expanded once.
fn add_closed(
    alloc: Global,
    set: &mut IndexSet<Simplex>,
    simplex: Simplex,
) -> Result<(), AllocError>
    requires { IsClosed (in_order set.old.keys) }
    ensures { OnOk result (in_order set.new.keys ≡ with_facet_is (in_order set.old.keys) simplex) }
{
    if simplex.vertices().is_empty() || set.contains(&simplex) {
        return Ok(());
    }
    for at in 0..simplex.vertices().len() {
        let face = simplex.face(alloc, at)?;
        add_closed(alloc, set, face)?;
    }
    set.insert(simplex)?;
    Ok(())
}

// Adds the simplices of one more facet.
pub(crate) fn add_facet(
    alloc: Global,
    set: &mut IndexSet<Simplex>,
    facet: &Simplex,
) -> Result<(), AllocError>
    requires { IsClosed (in_order set.old.keys) }
    ensures { OnOk result (in_order set.new.keys ≡ with_facet_is (in_order set.old.keys) facet.now) }
{
    let copy = Simplex::new(alloc, facet.vertices())?;
    add_closed(alloc, set, copy)
}
