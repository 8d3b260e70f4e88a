ghost use Rattle.std.specs.{Prelude.{◌≡◌, true, IfOk, IsTrue, map}, List.AllZip};
ghost use Rattle.fp_field.specs.Served.{served};
ghost use Rattle.linear_law.specs.Names.{Each};
ghost use Rattle.report_law.specs.Names.{classes_of, IsComplexPart};
ghost use Rattle.job_report.specs.Jobs.{AreAllListed, CanBeIndexed, HasStored, IsKnown};
ghost use Rattle.class_matrices.specs.Names.{listed_classes};

use crate::degrees::{degree_parts, ranks_of};
use crate::depth::Depth;
use crate::known::Known;
use crate::tables::{cartan_parts, operation_parts, product_parts};
use class_matrices::Matrices;
use comch_io::Listed;
use complex_file::{ComplexBlock, Name};
use facet_list::maximal_facets;
use may_elements::MayTable;
use report::ComplexPart;
use std::alloc::{AllocError, Global};

/// What is listed of a complex, with its tables.
fn complex_part<const P: u32, B: Depth<P>>(
    alloc: Global,
    block: &ComplexBlock,
    known: &Known<B>,
    table: &MayTable<P>,
) -> Result<ComplexPart, AllocError>
    requires prime { IsTrue (served P) }
    requires complex { CanBeIndexed block.now.facets }
    requires known { IsKnown B.is_of block.now known.now }
    requires stored { HasStored P table.now block.now }
    ensures part { IfOk result (λ c. IsComplexPart true B.keeps P block.now c) }
    ensures classes { IfOk result (λ c. classes_of c ≡ listed_classes known.now.index (B.classes known.now.basis)) }
{
    let Known { index, basis } = known;
    let ranks = ranks_of(alloc, index, basis)?;
    let matrices = Matrices::of(alloc, basis, index, table, &ranks)?;
    Ok(ComplexPart {
        name: Name::new(alloc, block.name.bytes())?,
        facets: maximal_facets(alloc, index)?,
        degrees: degree_parts(alloc, index, basis)?,
        products: product_parts(alloc, index, basis, &matrices)?,
        operations: operation_parts(alloc, index, basis, &matrices)?,
        cartans: cartan_parts(alloc, index, basis, table, &matrices, &ranks)?,
    })
}

/// What is listed of the complexes of a job, in their order.
pub fn complex_parts<const P: u32, B: Depth<P>>(
    alloc: Global,
    blocks: &[ComplexBlock],
    known: &[Known<B>],
    table: &MayTable<P>,
) -> Result<Listed<ComplexPart>, AllocError>
    requires prime { IsTrue (served P) }
    requires complexes { Each (λ b. CanBeIndexed b.facets) blocks.now }
    requires known { AllZip (IsKnown B.is_of) blocks.now known.now }
    requires stored { Each (HasStored P table.now) blocks.now }
    ensures parts { IfOk result (λ cs. AllZip (IsComplexPart true B.keeps P) blocks.now cs) }
    ensures classes { IfOk result (λ cs. AreAllListed B.classes known.now (map classes_of cs)) }
{
    let mut parts = Vec::new(alloc);
    for (block, known) in blocks.iter().zip(known) {
        parts.push(complex_part(alloc, block, known, table)?)?;
    }
    Ok(Listed::from(parts))
}
