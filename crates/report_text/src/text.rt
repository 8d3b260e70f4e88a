ghost use Rattle.std.specs.Prelude.{◌≡◌, IfOk};
ghost use Rattle.report.specs.Names.{tables};
ghost use Rattle.report_text_law.specs.Text.{text_of};

use crate::line::{add_done, add_heading, add_prime};
use crate::section::{add_complexes, add_maps};
use comch_io::Bytes;
use report::{Form, MapPart, Report};
use std::alloc::{AllocError, Global};

// The maps that have lines in the text.
fn maps_in(form: Form, maps: &[MapPart]) -> &[MapPart]
    ensures { result.now ≡ tables form maps.now }
{
    match form {
        Form::Basis => &[],
        Form::Short | Form::Certificate => maps,
    }
}

/// The text of a report in one of its three forms: its bases, its short form or its certificate.
///
/// One space stands between two words, and each line ends with byte 10. It fails for want of memory alone.
#[tactic(auto, using(crate::proofs::Flat::flat_map_two), unfolding(report_text_law::specs::Text::text_of))]
pub fn print(alloc: Global, report: &Report, form: Form) -> Result<Bytes, AllocError>
    ensures { IfOk result (λ text. text ≡ text_of form report.now) }
{
    let mut text = Bytes::new(alloc);
    add_heading(&mut text, form)?;
    add_prime(alloc, &mut text, form, report.prime)?;
    add_complexes(alloc, &mut text, form, report.complexes.as_slice())?;
    add_maps(
        alloc,
        &mut text,
        form,
        maps_in(form, report.maps.as_slice()),
    )?;
    add_done(&mut text, form)?;
    Ok(text)
}
