ghost use Rattle.std.specs.{Prelude.{◌≡◌, ◌≤◌, ◌<◌, ◌&&◌, List, [], IfOk, IsTrue, OnOk, ◌++◌, ◌∷◌, get_or, length}, List.{AllZip, filter}};
ghost use Rattle.fp_field.specs.Served.{served};
ghost use Rattle.linear_law.specs.Names.{Each, IsAscending};
ghost use Rattle.complex_index.specs.Names.{IsComplexIndex};
ghost use Rattle.induced_map.specs.Induced.{IsMapIn};
ghost use Rattle.report_law.specs.Names.{has_class, induced_degrees, Classes, IsMapPart};
ghost use Rattle.job_report.specs.{Jobs.{AreAllListed, IsFreeMap, IsKnown}, Parts.IsListedInduced};
ghost use Rattle.class_matrices.specs.Names.{class_counts};

use crate::columns::listed_columns;
use crate::degrees::ranks_of;
use crate::depth::Depth;
use crate::known::Known;
use comch_io::Listed;
use complex_file::{ComplexBlock, MapBlock, Name};
use complex_index::MapOn;
use induced_map::induced;
use ordered_sends::{map_of, ordered_sends};
use report::{InducedPart, MapPart};
use std::alloc::{AllocError, Global};

/// Whether both ranks of a degree are above 0.
fn is_live(from: &[u32], to: &[u32], q: usize) -> bool
    requires { q < length from.now }
    ensures { result ≡ (has_class from.now q && has_class to.now q) }
{
    from[q] > 0 && q < to.len() && to[q] > 0
}

/// Adds a degree, if both complexes have classes in it.
fn add_live(degrees: &mut Vec<u32>, from: &[u32], to: &[u32], q: usize) -> Result<(), AllocError>
    requires inside { q < length from.now }
    requires few { length from.now ≤ 16 }
    ensures { OnOk result (degrees.new.items ≡ degrees.old.items ++ filter (λ k. has_class from.now k && has_class to.now k) (q ∷ [])) }
{
    if is_live(from, to, q) {
        degrees.push(q as u32)?;
    }
    Ok(())
}

/// The degrees in which both complexes have classes.
fn live_degrees(alloc: Global, from: &[u32], to: &[u32]) -> Result<Vec<u32>, AllocError>
    requires { length from.now ≤ 16 }
    ensures { IfOk result (λ v. v.items ≡ induced_degrees from.now to.now) }
{
    let mut degrees = Vec::new(alloc);
    for q in 0..from.len() {
        add_live(&mut degrees, from, to, q)?;
    }
    Ok(degrees)
}

/// The matrix of a map in degree `q`.
fn induced_part<const P: u32, B: Depth<P>>(
    alloc: Global,
    map: &MapOn,
    from: &Known<B>,
    to: &Known<B>,
    q: u32,
) -> Result<InducedPart, AllocError>
    requires prime { IsTrue (served P) }
    requires complex { IsComplexIndex from.now.index }
    requires source_of { B.is_of from.now.index from.now.basis }
    requires target_of { B.is_of to.now.index to.now.basis }
    requires map { IsMapIn (λ v. get_or map.now v 0) from.now.index to.now.index }
    ensures { IfOk result (λ x. IsListedInduced B.keeps (λ v. get_or map.now v 0) from.now.index to.now.index (B.classes from.now.basis) (B.classes to.now.basis) q x) }
{
    let columns = induced(
        alloc,
        map,
        &from.index,
        &to.index,
        &from.basis,
        &to.basis,
        q,
    )?;
    let columns = listed_columns::<P, B>(alloc, &from.index, q, &columns)?;
    Ok(InducedPart { q, columns })
}

/// The matrices of a map, in the degrees in which both its complexes have classes.
fn induced_parts<const P: u32, B: Depth<P>>(
    alloc: Global,
    map: &MapOn,
    from: &Known<B>,
    to: &Known<B>,
) -> Result<Listed<InducedPart>, AllocError>
    requires prime { IsTrue (served P) }
    requires complex { IsComplexIndex from.now.index }
    requires source_of { B.is_of from.now.index from.now.basis }
    requires target_of { B.is_of to.now.index to.now.basis }
    requires map { IsMapIn (λ v. get_or map.now v 0) from.now.index to.now.index }
    ensures { IfOk result (λ xs. AllZip (IsListedInduced B.keeps (λ v. get_or map.now v 0) from.now.index to.now.index (B.classes from.now.basis) (B.classes to.now.basis))
        (induced_degrees (class_counts from.now.index (B.classes from.now.basis)) (class_counts to.now.index (B.classes to.now.basis))) xs) }
{
    let sources = ranks_of(alloc, &from.index, &from.basis)?;
    let targets = ranks_of(alloc, &to.index, &to.basis)?;
    let degrees = live_degrees(alloc, &sources, &targets)?;
    let mut parts = Vec::new(alloc);
    for q in degrees.as_slice() {
        parts.push(induced_part(alloc, map, from, to, *q)?)?;
    }
    Ok(Listed::from(parts))
}

/// What is listed of a map between two of the complexes, of which these are known.
fn map_part<const P: u32, B: Depth<P>>(
    alloc: Global,
    complexes: &[ComplexBlock],
    block: &MapBlock,
    known: &[Known<B>],
) -> Result<MapPart, AllocError>
    requires prime { IsTrue (served P) }
    requires ascending { Each (λ c. Each IsAscending c.facets) complexes.now }
    requires map { IsFreeMap complexes.now block.now }
    requires known { AllZip (IsKnown B.is_of) complexes.now known.now }
    ensures { IfOk result (λ m. (all : List Classes) → AreAllListed B.classes known.now all → IsMapPart B.keeps (record { prime = P; complexes = complexes.now; maps = [] }) all block.now m) }
{
    let (from, to) = (block.from as usize, block.to as usize);
    let sends = block.sends.as_slice();
    let map = map_of(alloc, sends)?;
    let induced = induced_parts(alloc, &map, &known[from], &known[to])?;
    Ok(MapPart {
        name: Name::new(alloc, block.name.bytes())?,
        from: Name::new(alloc, complexes[from].name.bytes())?,
        to: Name::new(alloc, complexes[to].name.bytes())?,
        sends: ordered_sends(alloc, sends)?,
        induced,
    })
}

/// What is listed of the maps between the complexes, in their order.
pub fn map_parts<const P: u32, B: Depth<P>>(
    alloc: Global,
    complexes: &[ComplexBlock],
    maps: &[MapBlock],
    known: &[Known<B>],
) -> Result<Listed<MapPart>, AllocError>
    requires prime { IsTrue (served P) }
    requires ascending { Each (λ c. Each IsAscending c.facets) complexes.now }
    requires maps { Each (IsFreeMap complexes.now) maps.now }
    requires known { AllZip (IsKnown B.is_of) complexes.now known.now }
    ensures { IfOk result (λ ms. (all : List Classes) → AreAllListed B.classes known.now all → AllZip (IsMapPart B.keeps (record { prime = P; complexes = complexes.now; maps = [] }) all) maps.now ms) }
{
    let mut parts = Vec::new(alloc);
    for map in maps {
        parts.push(map_part(alloc, complexes, map, known)?)?;
    }
    Ok(Listed::from(parts))
}
