ghost use Rattle.std.specs.{Prelude.{◌≡◌, ◌+◌, ◌<◌, ◌^◌, false, length, IfOk, IsTrue}, List.AllZip};
ghost use Rattle.fp_field.specs.Served.{served};
ghost use Rattle.signed_sum.specs.Names.{numbers_from};
ghost use Rattle.linear_law.specs.Names.{Each};
ghost use Rattle.complex_file.specs.Names.{content};
ghost use Rattle.cohomology.specs.Names.{AreCanonicalIn};
ghost use Rattle.report_law.specs.Names.{IsComplexPart, IsReportOf};
ghost use Rattle.job_report.specs.{Jobs.CanBeIndexed, Parts.IsClassPart};

use crate::chains::chain_of;
use cohomology::{classes_at, no_pivots};
use comch_io::Listed;
use complex_file::{ComplexBlock, Job, Name};
use complex_index::{Cochain, Indexed};
use report::{ComplexPart, DegreePart, Form, Report};
use std::alloc::{AllocError, Global};

/// What is listed of degree `n`, of which these are the canonical classes.
fn class_part<const P: u32>(
    alloc: Global,
    index: &Indexed,
    n: u32,
    classes: &[Cochain<P>],
) -> Result<DegreePart, AllocError>
    requires { AreCanonicalIn P index.now n classes.now }
    ensures { IfOk result (λ d. IsClassPart P index.now n d) }
{
    let mut chains = Vec::with_capacity(alloc, classes.len())?;
    for class in classes {
        chains.push(chain_of(alloc, index, n, &class.row)?)?;
    }
    Ok(DegreePart {
        below: Listed::new(alloc),
        classes: Listed::from(chains),
    })
}

/// The classes of each degree as they are listed. Those of a degree are let go before the next is walked.
fn class_parts<const P: u32>(
    alloc: Global,
    index: &Indexed,
) -> Result<Listed<DegreePart>, AllocError>
    requires { IsTrue (served P) }
    ensures { IfOk result (λ ds. AllZip (IsClassPart P index.now) (numbers_from 0 (length index.now)) ds) }
{
    let mut parts = Vec::new(alloc);
    let mut pivots = no_pivots(alloc, index)?;
    for n in 0..index.degrees() {
        let (classes, next) = classes_at::<P>(alloc, index, n, &pivots)?;
        parts.push(class_part(alloc, index, n, &classes)?)?;
        pivots = next;
    }
    Ok(Listed::from(parts))
}

/// What is listed of a complex without its tables: its name and its classes.
fn basis_part<const P: u32>(alloc: Global, block: &ComplexBlock) -> Result<ComplexPart, AllocError>
    requires prime { IsTrue (served P) }
    requires complex { CanBeIndexed block.now.facets }
    ensures { IfOk result (λ c. IsComplexPart false false P block.now c) }
{
    let index = Indexed::of(alloc, &block.facets)?;
    Ok(ComplexPart {
        name: Name::new(alloc, block.name.bytes())?,
        facets: Listed::new(alloc),
        degrees: class_parts::<P>(alloc, &index)?,
        products: Listed::new(alloc),
        operations: Listed::new(alloc),
        cartans: Listed::new(alloc),
    })
}

/// What is listed of complexes without their tables, in their order.
fn basis_parts<const P: u32>(
    alloc: Global,
    blocks: &[ComplexBlock],
) -> Result<Listed<ComplexPart>, AllocError>
    requires prime { IsTrue (served P) }
    requires complexes { Each (λ b. CanBeIndexed b.facets) blocks.now }
    ensures { IfOk result (λ cs. AllZip (IsComplexPart false false P) blocks.now cs) }
{
    let mut parts = Vec::new(alloc);
    for block in blocks {
        parts.push(basis_part::<P>(alloc, block)?)?;
    }
    Ok(Listed::from(parts))
}

/// The bases of a job at the prime `P`.
fn bases_over<const P: u32>(alloc: Global, job: &Job) -> Result<Report, AllocError>
    requires { job.now.prime ≡ P }
    ensures { IfOk result (λ r. IsReportOf Form.Basis (content job.now) r) }
{
    Ok(Report {
        prime: P,
        complexes: basis_parts::<P>(alloc, job.complexes.as_slice())?,
        maps: Listed::new(alloc),
    })
}

/// The bases of a job: the report of its complexes alone, each with the canonical classes of each degree.
pub fn make_bases(alloc: Global, job: &Job) -> Result<Report, AllocError>
    ensures { IfOk result (λ r. IsReportOf Form.Basis (content job.now) r) }
{
    match job.prime {
        2 => bases_over::<2>(alloc, job),
        3 => bases_over::<3>(alloc, job),
        5 => bases_over::<5>(alloc, job),
        _ => unreachable!(),
    }
}
