ghost use Rattle.std.specs.{Prelude.{◌≡◌, ◌≤◌, length, IfOk, OnOk}, List.AllZip};
ghost use Rattle.signed_sum.specs.Names.{numbers_from};
ghost use Rattle.class_matrices.specs.Names.{class_counts};
ghost use Rattle.job_report.specs.{Listed.level_counts, Parts.IsListedDegree};

use crate::chains::class_chains;
use crate::depth::Depth;
use cohomology::Basis;
use comch_io::Listed;
use complex_index::Indexed;
use report::{DegreePart, Sizes};
use std::alloc::{AllocError, Global};

/// What is listed of degree `n`.
fn degree_part<const P: u32, B: Depth<P>>(
    alloc: Global,
    index: &Indexed,
    basis: &B,
    n: u32,
) -> Result<DegreePart, AllocError>
    requires { B.is_of index.now basis.now }
    ensures { IfOk result (λ d. IsListedDegree B.keeps index.now (B.classes basis.now) n d) }
{
    let classes = class_chains(alloc, index, basis, n)?;
    let below = basis.primitives(alloc, index, n)?;
    Ok(DegreePart { below, classes })
}

/// What is listed of each degree.
pub fn degree_parts<const P: u32, B: Depth<P>>(
    alloc: Global,
    index: &Indexed,
    basis: &B,
) -> Result<Listed<DegreePart>, AllocError>
    requires { B.is_of index.now basis.now }
    ensures { IfOk result (λ ds. AllZip (IsListedDegree B.keeps index.now (B.classes basis.now)) (numbers_from 0 (length index.now)) ds) }
{
    let mut parts = Vec::new(alloc);
    for n in 0..index.degrees() {
        parts.push(degree_part(alloc, index, basis, n)?)?;
    }
    Ok(Listed::from(parts))
}

/// The ranks of the cohomology by degree.
pub fn ranks_of<const P: u32, B: Basis<P>>(
    alloc: Global,
    index: &Indexed,
    basis: &B,
) -> Result<Vec<u32>, AllocError>
    ensures ranks { IfOk result (λ v. v.items ≡ class_counts index.now (B.classes basis.now)) }
    ensures few { OnOk result (length index.now ≤ 16) }
{
    let mut ranks = Vec::new(alloc);
    for n in 0..index.degrees() {
        ranks.push(basis.rank(n))?;
    }
    Ok(ranks)
}

/// How many simplices each degree has.
fn counts_of(alloc: Global, index: &Indexed) -> Result<Vec<u32>, AllocError>
    ensures { IfOk result (λ v. v.items ≡ level_counts index.now) }
{
    let mut counts = Vec::new(alloc);
    for n in 0..index.degrees() {
        counts.push(index.count(n))?;
    }
    Ok(counts)
}

/// The sizes of a complex.
pub fn sizes_of<const P: u32, B: Basis<P>>(
    alloc: Global,
    index: &Indexed,
    basis: &B,
) -> Result<Sizes, AllocError>
    ensures simplices { IfOk result (λ z. z.simplices ≡ level_counts index.now) }
    ensures ranks { IfOk result (λ z. z.ranks ≡ class_counts index.now (B.classes basis.now)) }
    ensures few { OnOk result (length index.now ≤ 16) }
{
    Ok(Sizes {
        simplices: Listed::from(counts_of(alloc, index)?),
        ranks: Listed::from(ranks_of(alloc, index, basis)?),
    })
}
