ghost use Rattle.std.specs.{Prelude.{IfOk, IsTrue}, List.AllZip};
ghost use Rattle.fp_field.specs.Served.{served};
ghost use Rattle.linear_law.specs.Names.{Each};
ghost use Rattle.job_report.specs.Jobs.{CanBeIndexed, IsDeeper, IsKnown, IsSize};

use crate::degrees::sizes_of;
use crate::depth::Depth;
use complex_file::ComplexBlock;
use complex_index::Indexed;
use report::Sizes;
use std::alloc::{AllocError, Global};

/// What is known of a complex: its index, and a basis of its cohomology.
#[derive(Drop)]
pub struct Known<B> {
    pub index: Indexed,
    pub basis: B,
}

/// What is known of complexes, to a depth.
pub fn known_of<const P: u32, B: Depth<P>>(
    alloc: Global,
    blocks: &[ComplexBlock],
) -> Result<Vec<Known<B>>, AllocError>
    requires prime { IsTrue (served P) }
    requires complexes { Each (λ b. CanBeIndexed b.facets) blocks.now }
    ensures { IfOk result (λ v. AllZip (IsKnown B.is_of) blocks.now v.items) }
{
    let mut known = Vec::new(alloc);
    for block in blocks {
        let index = Indexed::of(alloc, &block.facets)?;
        let basis = B::of_index(alloc, &index)?;
        known.push(Known { index, basis })?;
    }
    Ok(known)
}

/// A complex to another depth, with the index that it has.
fn deeper<const P: u32, A: Depth<P>, B: Depth<P>>(
    alloc: Global,
    known: Known<A>,
) -> Result<Known<B>, AllocError>
    requires { IsTrue (served P) }
    ensures { IfOk result (λ k. IsDeeper A.is_of B.is_of known k) }
{
    let Known { index, basis: _ } = known;
    let basis = B::of_index(alloc, &index)?;
    Ok(Known { index, basis })
}

/// The same complexes to another depth.
pub fn deepened<const P: u32, A: Depth<P>, B: Depth<P>>(
    alloc: Global,
    known: Vec<Known<A>>,
) -> Result<Vec<Known<B>>, AllocError>
    requires { IsTrue (served P) }
    ensures { IfOk result (λ v. AllZip (IsDeeper A.is_of B.is_of) known.items v.items) }
{
    let mut all = Vec::new(alloc);
    for complex in known {
        all.push(deeper::<P, A, B>(alloc, complex)?)?;
    }
    Ok(all)
}

/// The sizes of complexes.
pub fn all_sizes<const P: u32, B: Depth<P>>(
    alloc: Global,
    known: &[Known<B>],
) -> Result<Vec<Sizes>, AllocError>
    ensures { IfOk result (λ v. AllZip (IsSize B.classes) known.now v.items) }
{
    let mut sizes = Vec::new(alloc);
    for complex in known {
        sizes.push(sizes_of(alloc, &complex.index, &complex.basis)?)?;
    }
    Ok(sizes)
}
