ghost use Rattle.std.specs.{Prelude.{◌≡◌, ℕ, ◌+◌, ◌*◌, ◌^◌, ◌<◌, [], length, get_or, map as list_map, IfOk, OnOk, IsTrue}, List.Sorted.IsStrictlySortedBy};
ghost use Rattle.linear_law.specs.Names.{Each, IsAscending, unit_vector};
ghost use Rattle.simplicial_law.specs.Names.{cochain_of, simplex_cmp, terms_of};
ghost use Rattle.steenrod_law.specs.Names.{pull_back};
ghost use Rattle.fp_field.specs.Served.{served};
ghost use Rattle.sparse_rows.specs.Rows.{IsBelow, value_in};
ghost use Rattle.complex_index.specs.Names.{level, IsPullBackOf, image_of};

use crate::{Cochain, Indexed};
use fp_field::Fp;
use simplex_set::FlatLists;
use sparse_rows::Row;
use std::alloc::{AllocError, Global};
use std::marker::Model;

/// A map of vertices. Contracts see it as the list of the images of the vertices 0, 1, 2, ..; vertices
/// beyond it are sent to 0.
#[derive(Debug, Drop)]
pub struct MapOn {
    images: Vec<u32>,
}

impl Model for MapOn {
    ghost use Rattle.std.specs.Prelude.{List, ℕ};

    ghost Value = { List ℕ };

    ghost view = { λ m. m.images.items };
}

// A number past all vertices that are sent.
fn past_all(sends: &[(u32, u32)]) -> usize
    ensures { Each (λ s. s.0 < result) sends.now }
{
    let mut past = 0usize;
    for send in sends {
        past = past.max(send.0 as usize + 1);
    }
    past
}

fn zeros(alloc: Global, count: usize) -> Result<Vec<u32>, AllocError>
    ensures len { IfOk result (λ v. length v.items ≡ count) }
    ensures zero { IfOk result (λ v. (k : ℕ) → get_or v.items k 0 ≡ 0) }
{
    let mut all = Vec::new(alloc);
    for _ in 0..count {
        all.push(0u32)?;
    }
    Ok(all)
}

// Notes the image of each vertex that is sent.
fn send_all(images: &mut [u32], sends: &[(u32, u32)])
    requires inside { Each (λ s. s.0 < length images.old) sends.now }
    requires zero { (v : ℕ) → get_or images.old v 0 ≡ 0 }
    ensures { (v : ℕ) → get_or images.new v 0 ≡ image_of sends.now v }
{
    for send in sends {
        images[send.0 as usize] = send.1;
    }
}

impl MapOn {
    /// The map with these pairs of a vertex and its image.
    pub fn of(alloc: Global, sends: &[(u32, u32)]) -> Result<MapOn, AllocError>
        ensures { IfOk result (λ m. (v : ℕ) → get_or m v 0 ≡ image_of sends.now v) }
    {
        let mut images = zeros(alloc, past_all(sends))?;
        send_all(&mut images, sends);
        Ok(MapOn { images })
    }

    /// The image of a vertex.
    pub fn image(&self, v: u32) -> u32
        ensures { result ≡ get_or self.now v 0 }
    {
        if v as usize >= self.images.len() {
            return 0;
        }
        self.images[v as usize]
    }
}

fn images_of(alloc: Global, map: &MapOn, simplex: &[u32]) -> Result<Vec<u32>, AllocError>
    ensures { IfOk result (λ v. v.items ≡ list_map (λ w. get_or map.now w 0) simplex.now) }
{
    simplex.iter().map(|v| map.image(*v)).collect(alloc)
}

// The value of the pull-back of a row at a simplex.
fn value_at_image<const P: u32>(
    alloc: Global,
    map: &MapOn,
    targets: &FlatLists,
    row: &Row<P>,
    simplex: &[u32],
) -> Result<Fp<P>, AllocError>
    requires prime { IsTrue (served P) }
    requires ordered { IsStrictlySortedBy simplex_cmp targets.now }
    requires ascending { Each IsAscending targets.now }
    requires small { length targets.now < 2 ^ 32 }
    requires inside { IsBelow (length targets.now) row.now }
    ensures { IfOk result (λ v. v ≡ pull_back (λ w. get_or map.now w 0) (cochain_of (terms_of targets.now row.now)) simplex.now) }
{
    let image = images_of(alloc, map, simplex)?;
    match targets.place_of(&image, &[]) {
        Some(place) => Ok(row.at(place as u32)),
        None => Ok(Fp::new(0)),
    }
}

// Appends a value, if it is not 0.
fn put_value<const P: u32>(row: &mut Row<P>, place: u32, value: Fp<P>) -> Result<(), AllocError>
    requires { IsBelow place row.old }
    ensures below { OnOk result (IsBelow (place + 1) row.new) }
    ensures sum { OnOk result ((k : ℕ) → value_in row.new k ≡ value_in row.old k + value.entry * unit_vector place k) }
{
    if !value.is_zero() {
        row.push_last(place, value)?;
    }
    Ok(())
}

/// The pull-back of a cochain along a map: at each simplex of the source the value at its image, and 0
/// where the image repeats a vertex.
pub fn pull<const P: u32>(
    alloc: Global,
    map: &MapOn,
    from: &Indexed,
    to: &Indexed,
    cochain: &Cochain<P>,
) -> Result<Cochain<P>, AllocError>
    requires prime { IsTrue (served P) }
    requires inside { IsBelow (length (level to.now cochain.now.degree)) cochain.now.row }
    ensures degree { IfOk result (λ d. d.degree ≡ cochain.now.degree) }
    ensures values { IfOk result (λ d. IsPullBackOf P (λ w. get_or map.now w 0) from.now to.now cochain.now.degree cochain.now.row d.row) }
{
    let degree = cochain.degree;
    let mut row = Row::new(alloc);
    let Some(targets) = to.level(degree) else {
        return Ok(Cochain { degree, row });
    };
    for place in 0..from.count(degree) {
        let simplex = from.simplex(degree, place);
        let value = value_at_image(alloc, map, targets, &cochain.row, simplex)?;
        put_value(&mut row, place, value)?;
    }
    Ok(Cochain { degree, row })
}
