ghost use Rattle.std.specs.Prelude.{◌≡◌, ◌++◌, false, map, length, IfOk, OnOk, IsTrue};
ghost use Rattle.fp_field.specs.Served.{served};
ghost use Rattle.sparse_rows.specs.Rows.{IsBelow};
ghost use Rattle.complex_index.specs.Names.{pair_of, shrunk, signed_places, signed_value as signed_value_is, spread};

use crate::cofaces::{Coface, Cofaces};
use fp_field::Fp;
use simplex_set::FlatLists;
use std::alloc::{AllocError, Global};

fn signed_value<const P: u32>(value: Fp<P>, odd: bool) -> Fp<P>
    requires { IsTrue (served P) }
    ensures { result ≡ signed_value_is P value.entry odd }
{
    if odd { value.neg() } else { value }
}

fn put_cofaces<const P: u32>(
    pairs: &mut Vec<(u32, Fp<P>)>,
    cofaces: &[Coface],
    value: Fp<P>,
) -> Result<(), AllocError>
    requires { IsTrue (served P) }
    ensures { OnOk result (pairs.new.items ≡ pairs.old.items ++ map (pair_of P value.entry) cofaces.now) }
{
    for coface in cofaces {
        pairs.push((coface.place, signed_value(value, coface.odd)))?;
    }
    Ok(())
}

// The pairs of the coboundary of a row.
pub(crate) fn coboundary_pairs<const P: u32>(
    alloc: Global,
    above: &Cofaces,
    row: &[(u32, Fp<P>)],
) -> Result<Vec<(u32, Fp<P>)>, AllocError>
    requires prime { IsTrue (served P) }
    requires inside { IsBelow (length above.now) row.now }
    ensures { IfOk result (λ v. v.items ≡ spread P above.now row.now) }
{
    let mut found = Vec::new(alloc);
    for pair in row {
        put_cofaces(&mut found, above.get(pair.0 as usize), pair.1)?;
    }
    Ok(found)
}

fn put_faces<const P: u32>(
    pairs: &mut Vec<(u32, Fp<P>)>,
    places: &[u32],
    value: Fp<P>,
) -> Result<(), AllocError>
    requires { IsTrue (served P) }
    ensures { OnOk result (pairs.new.items ≡ pairs.old.items ++ signed_places P value.entry false places.now) }
{
    let mut odd = false;
    for place in places {
        pairs.push((*place, signed_value(value, odd)))?;
        odd = !odd;
    }
    Ok(())
}

// The pairs of the boundary of a row, from the places of the faces of each simplex.
pub(crate) fn boundary_pairs<const P: u32>(
    alloc: Global,
    faces: &FlatLists,
    row: &[(u32, Fp<P>)],
) -> Result<Vec<(u32, Fp<P>)>, AllocError>
    requires prime { IsTrue (served P) }
    requires inside { IsBelow (length faces.now) row.now }
    ensures { IfOk result (λ v. v.items ≡ shrunk P faces.now row.now) }
{
    let mut found = Vec::new(alloc);
    for pair in row {
        put_faces(&mut found, faces.get(pair.0 as usize), pair.1)?;
    }
    Ok(found)
}
