ghost use Rattle.std.specs.Prelude.{◌≡◌, ◌≤◌, ◌++◌, ◌%◌, IfOk, IsTrue};
ghost use Rattle.fp_field.specs.Served.{served};
ghost use Rattle.complex_file.specs.Names.{ascending, content};
ghost use Rattle.sample_torus.specs.Torus.{torus_facets, torus_job, triangles_at};

use comch_io::Listed;
use complex_file::{Complex, ComplexBlock, Job, Name, Simplex};
use std::alloc::{AllocError, Global};
use std::collections::BTreeSet;

// The numbers of a set, in ascending order.
fn items_of(alloc: Global, set: &BTreeSet<u32>) -> Result<Vec<u32>, AllocError>
    ensures { IfOk result (λ v. v.items ≡ set.now.keys) }
{
    set.iter().copied().collect(alloc)
}

/// The triangle with these vertices, in ascending order.
fn triangle(alloc: Global, vertices: &[u32]) -> Result<Simplex, AllocError>
    ensures { IfOk result (λ s. s ≡ ascending vertices.now) }
{
    let mut set = BTreeSet::new(alloc);
    for v in vertices {
        set.insert(*v)?;
    }
    let ascending = items_of(alloc, &set)?;
    Simplex::new(alloc, &ascending)
}

/// All triangles of the torus with `m` vertices.
fn triangles(alloc: Global, m: u32) -> Result<Vec<Simplex>, AllocError>
    requires large { 7 ≤ m }
    requires few { m ≤ 1000 }
    ensures { IfOk result (λ v. v.items ≡ torus_facets m) }
{
    let mut facets = Vec::new(alloc);
    for i in 0..m {
        facets.push(triangle(alloc, &[i, (i + 1) % m, (i + 3) % m])?)?;
        facets.push(triangle(alloc, &[i, (i + 2) % m, (i + 3) % m])?)?;
    }
    Ok(facets)
}

/// The job of the torus with the vertices 0 to `m` - 1 and the triangles i, i + 1, i + 3 and i, i + 2, i + 3 modulo `m`.
pub fn torus(alloc: Global, prime: u32, m: u32) -> Result<Job, AllocError>
    requires prime { IsTrue (served prime) }
    requires large { 7 ≤ m }
    requires few { m ≤ 1000 }
    ensures { IfOk result (λ j. content j ≡ torus_job prime m) }
{
    let name = Name::new(alloc, b"torus")?;
    let facets = Complex::of(alloc, triangles(alloc, m)?)?;
    let mut complexes = Vec::new(alloc);
    complexes.push(ComplexBlock { name, facets })?;
    Ok(Job {
        prime,
        complexes: Listed::from(complexes),
        maps: Listed::new(alloc),
    })
}
