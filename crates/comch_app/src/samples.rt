ghost use Rattle.std.specs.Prelude.{◌≡◌, ◌≤◌, ◌∷◌, ◌++◌, [], codes, flat_map, IfOk, IsTrue, OnOk};
ghost use Rattle.fp_field.specs.Served.{served};
ghost use Rattle.comch_app.specs.Names.{spaced_number, SampleAnswers, number_line, sample_text, IsMade};

use crate::Status;
use crate::refusal::{add_number, too_many_terms};
use comch_io::Bytes;
use job_report::MakeRefused;
use sample_torus::{Sample, make_sample};
use std::alloc::{AllocError, Global};

// Adds numbers, each behind a blank.
#[tactic(auto, using(crate::proofs::Printed::flat_more))]
fn add_numbers(alloc: Global, text: &mut Bytes, numbers: &[u32]) -> Result<(), AllocError>
    ensures { OnOk result (text.new ≡ text.old ++ flat_map spaced_number numbers.now) }
{
    for n in numbers {
        text.push(b' ')?;
        add_number(alloc, text, u64::from(*n))?;
    }
    Ok(())
}

// Adds a line of a word and numbers.
fn add_line(alloc: Global, text: &mut Bytes, word: &[u8], numbers: &[u32]) -> Result<(), AllocError>
    ensures { OnOk result (text.new ≡ text.old ++ number_line word.now numbers.now) }
{
    text.extend(word)?;
    add_numbers(alloc, text, numbers)?;
    text.push(b'\n')
}

// Adds the line of the counted terms.
fn add_terms(alloc: Global, text: &mut Bytes, terms: u64) -> Result<(), AllocError>
    ensures { OnOk result (text.new ≡ text.old ++ number_line (codes "terms") (terms ∷ [])) }
{
    text.extend(b"terms ")?;
    add_number(alloc, text, terms)?;
    text.push(b'\n')
}

// The text of a sample.
fn text_of(alloc: Global, number: u32, prime: u32, sample: &Sample) -> Result<Bytes, AllocError>
    ensures { IfOk result (λ b. b ≡ sample_text number prime sample.now) }
{
    let mut text = Bytes::new(alloc);
    add_line(alloc, &mut text, b"sample", &[number, prime])?;
    add_line(
        alloc,
        &mut text,
        b"simplices",
        sample.sizes.simplices.as_slice(),
    )?;
    add_line(alloc, &mut text, b"ranks", sample.sizes.ranks.as_slice())?;
    add_terms(alloc, &mut text, sample.terms)?;
    text.extend(b"check yes\ndone\n")?;
    Ok(text)
}

/// The status and the text that `sample` answers for the torus of a number at a prime.
pub fn sample_answer(alloc: Global, number: u32, prime: u32) -> Result<(Status, Bytes), AllocError>
    requires some { 1 ≤ number }
    requires low { number ≤ 994 }
    requires prime { IsTrue (served prime) }
    ensures answer { IfOk result (λ p. SampleAnswers number prime p.0 p.1) }
    ensures made { IfOk result (λ p. IsMade p.0 p.1) }
{
    match make_sample(alloc, prime, number + 6) {
        Ok(sample) => Ok((Status::Done, text_of(alloc, number, prime, &sample)?)),
        Err(MakeRefused::TooManyTerms { count, limit }) => too_many_terms(alloc, count, limit),
        Err(MakeRefused::OutOfMemory) => Err(AllocError),
    }
}
