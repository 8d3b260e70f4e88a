ghost use Rattle.std.specs.Prelude.{◌≡◌, ◌∷◌, [], IfOk, IsTrue, OnOk};
ghost use Rattle.fp_field.specs.Served.{served};
ghost use Rattle.linear_law.specs.Names.{Each};
ghost use Rattle.complex_file.specs.Names.{content};
ghost use Rattle.job_report.specs.Jobs.{CanBeIndexed};
ghost use Rattle.bockstein_text.specs.Names.{Adds, AreBocksteins, IsBocksteinText, bocksteins_text};

use crate::matrix::add_matrices;
use cohomology::Classes;
use comch_io::Bytes;
use complex_file::{ComplexBlock, Job, Name};
use complex_index::Indexed;
use report_text::spell;
use report_text_law::Line;
use std::alloc::{AllocError, Global};

/// Adds the Bocksteins of a complex. Its cohomology is found in the light depth.
fn add_complex<const P: u32>(
    alloc: Global,
    text: &mut Bytes,
    block: &ComplexBlock,
) -> Result<(), AllocError>
    requires prime { IsTrue (served P) }
    requires complex { CanBeIndexed block.now.facets }
    ensures { OnOk result (Adds bocksteins_text (AreBocksteins P) (block.now ∷ []) text.old text.new) }
{
    let index = Indexed::of(alloc, &block.facets)?;
    let basis: Classes<P> = Classes::of(alloc, &index)?;
    let name = Name::new(alloc, block.name.bytes())?;
    spell(alloc, text, &Line::Complex(name))?;
    add_matrices(alloc, text, &index, &basis)?;
    spell(alloc, text, &Line::End)
}

/// Adds the Bocksteins of complexes, in their order.
fn add_complexes<const P: u32>(
    alloc: Global,
    text: &mut Bytes,
    blocks: &[ComplexBlock],
) -> Result<(), AllocError>
    requires prime { IsTrue (served P) }
    requires complexes { Each (λ b. CanBeIndexed b.facets) blocks.now }
    ensures { OnOk result (Adds bocksteins_text (AreBocksteins P) blocks.now text.old text.new) }
{
    for block in blocks {
        add_complex::<P>(alloc, text, block)?;
    }
    Ok(())
}

/// The text of a job at the prime `P`.
fn print_over<const P: u32>(alloc: Global, job: &Job) -> Result<Bytes, AllocError>
    requires { job.now.prime ≡ P }
    ensures { IfOk result (λ text. IsBocksteinText (content job.now) text) }
{
    let mut text = Bytes::new(alloc);
    text.extend(b"comch bockstein 1\n")?;
    spell(alloc, &mut text, &Line::Prime(P))?;
    add_complexes::<P>(alloc, &mut text, job.complexes.as_slice())?;
    spell(alloc, &mut text, &Line::Done)?;
    Ok(text)
}

/// The text of the Bocksteins of a job: for each complex the matrix of the Bockstein on its canonical classes from each degree
/// to the next, where the cohomology in both is not zero. It fails for want of memory alone. Each cohomology is found in the
/// light depth, and kept only while its complex is printed.
pub fn print_bocksteins(alloc: Global, job: &Job) -> Result<Bytes, AllocError>
    ensures { IfOk result (λ text. IsBocksteinText (content job.now) text) }
{
    match job.prime {
        2 => print_over::<2>(alloc, job),
        3 => print_over::<3>(alloc, job),
        5 => print_over::<5>(alloc, job),
        _ => unreachable!(),
    }
}
