//! Complexes, maps, cochains and May elements for the tests.
ghost use Rattle.std.specs.Prelude.{◌≡◌, ◌≤◌, ◌<◌, length, IfOk, IsSome, IsTrue};
ghost use Rattle.linear_law.specs.Names.{Each};
ghost use Rattle.fp_field.specs.Served.{served};
ghost use Rattle.sparse_rows.specs.Rows.{IsBelow};
ghost use Rattle.complex_index.specs.Names.{level};
ghost use Rattle.may_elements.specs.Stored.{stored_at};
ghost use Rattle.job_report.specs.Jobs.{CanBeIndexed};

use complex_file::{ComplexBlock, Job, read_job};
use complex_index::{Cochain, Indexed};
use fp_field::Fp;
use may_elements::MayTable;
use sparse_rows::Row;
use std::alloc::{AllocError, Global};
use std::test::Fail;

/// The job with these blocks, in which a semicolon stands for the end of a line, and a comma begins a facet.
pub fn job_of(alloc: Global, prime: u32, blocks: &str) -> Result<Job, Fail> {
    let job = format!(in alloc; "comch 1;prime {prime};{blocks}")?;
    let lines = job.replace(alloc, ",", ";facet ")?;
    let text = lines.replace(alloc, ";", "\n")?;
    Ok(read_job(alloc, text.as_bytes()).ok().ok_or("no job")?)
}

// The index of a complex of a job.
fn index_at(alloc: Global, complexes: &[ComplexBlock], at: usize) -> Result<Indexed, AllocError>
    requires complexes { Each (λ b. CanBeIndexed b.facets) complexes.now }
    requires inside { at < length complexes.now }
{
    let block = &complexes[at];
    Indexed::of(alloc, &block.facets)
}

/// The index of the first of these complexes.
pub fn index_of(alloc: Global, blocks: &str) -> Result<Indexed, Fail> {
    let job = job_of(alloc, 2, blocks)?;
    let complexes = job.complexes.as_slice();
    if complexes.is_empty() {
        return Err("no complex".into());
    }
    Ok(index_at(alloc, complexes, 0)?)
}

/// A place of a simplex of degree n.
fn place_in(index: &Indexed, n: u32, vertices: &[u32]) -> Result<u32, Fail>
    ensures { IfOk result (λ k. k < length (level index.now n)) }
{
    match index.place_of(vertices) {
        Some(place) if place < index.count(n) => Ok(place),
        _ => Err("no simplex".into()),
    }
}

/// The cochain of degree n with these values at these simplices.
pub fn cochain<const P: u32>(
    alloc: Global,
    index: &Indexed,
    n: u32,
    terms: &[(u64, &[u32])],
) -> Result<Cochain<P>, Fail>
    requires { IsTrue (served P) }
    ensures degree { IfOk result (λ c. c.degree ≡ n) }
    ensures inside { IfOk result (λ c. IsBelow (length (level index.now n)) c.row) }
{
    let mut pairs = Vec::new(alloc);
    for term in terms {
        pairs.push((place_in(index, n, term.1)?, Fp::new(term.0)))?;
    }
    let row = Row::from_pairs(alloc, &pairs)?;
    Ok(Cochain { degree: n, row })
}

/// A table with what operations on degree q see of the May element of degree d.
pub fn part<const P: u32>(alloc: Global, d: u32, q: u32) -> Result<MayTable<P>, Fail>
    requires prime { IsTrue (served P) }
    requires low { d ≤ 60 }
    requires small { q ≤ 15 }
    ensures { IfOk result (λ t. IsSome (stored_at d q t)) }
{
    if MayTable::<P>::candidates(d) > 1_000 {
        return Err("too many candidates".into());
    }
    let mut table = MayTable::new(alloc);
    table.store(d, q)?;
    Ok(table)
}
