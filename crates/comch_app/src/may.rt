ghost use Rattle.std.specs.Prelude.{◌≡◌, ◌++◌, ◌≤◌, flat_map, take, IfOk, IsTrue, OnOk};
ghost use Rattle.fp_field.specs.Served.{served};
ghost use Rattle.operad_law.specs.FormalSums.{IsSameSum};
ghost use Rattle.table_reduction_law.specs.Names.{may_element};
ghost use Rattle.comch_app.specs.Names.{IsElementText, MayAnswers, element_heading, element_text, spaced_number, term_line, IsMade};

use crate::Status;
use crate::refusal::{add_number, too_many_terms};
use crate::request::DEFAULT_LIMIT;
use comch_io::Bytes;
use may_elements::MayTable;
use operad_law::formal_sum::FormalSum;
use std::alloc::{AllocError, Global};
use surjection::surj::Surj;

// Adds the values of a surjection, each behind a blank.
#[tactic(auto, using(crate::proofs::Printed::flat_more))]
fn add_values(alloc: Global, text: &mut Bytes, values: &[u8]) -> Result<(), AllocError>
    ensures { OnOk result (text.new ≡ text.old ++ flat_map spaced_number values.now) }
{
    for value in values {
        text.push(b' ')?;
        add_number(alloc, text, u64::from(*value))?;
    }
    Ok(())
}

// Adds the line of a term.
fn add_term(alloc: Global, text: &mut Bytes, item: &Surj, count: i64) -> Result<(), AllocError>
    ensures { OnOk result (text.new ≡ text.old ++ term_line (item.now, count)) }
{
    let digits = count.to_string(alloc)?;
    text.extend(digits.as_bytes())?;
    text.extend(b" :")?;
    add_values(alloc, text, item.as_slice())?;
    text.push(b'\n')
}

// Adds the lines of all terms.
#[tactic(auto, using(crate::proofs::Printed::flat_more))]
fn add_terms(alloc: Global, text: &mut Bytes, sum: &FormalSum<Surj>) -> Result<(), AllocError>
    ensures { OnOk result (text.new ≡ text.old ++ flat_map term_line sum.now) }
{
    for k in 0..sum.len() {
        let (item, count) = sum.term(k);
        add_term(alloc, text, item, count)?;
    }
    Ok(())
}

// Adds the first line.
fn add_heading(alloc: Global, text: &mut Bytes, prime: u32, degree: u32) -> Result<(), AllocError>
    ensures { OnOk result (text.new ≡ text.old ++ element_heading prime degree) }
{
    text.extend(b"may ")?;
    add_number(alloc, text, u64::from(prime))?;
    text.push(b' ')?;
    add_number(alloc, text, u64::from(degree))?;
    text.push(b'\n')
}

// The text of an element.
fn text_of(
    alloc: Global,
    prime: u32,
    degree: u32,
    element: &FormalSum<Surj>,
) -> Result<Bytes, AllocError>
    ensures { IfOk result (λ b. b ≡ element_text prime degree element.now) }
{
    let mut text = Bytes::new(alloc);
    add_heading(alloc, &mut text, prime, degree)?;
    add_terms(alloc, &mut text, element)?;
    text.extend(b"done\n")?;
    Ok(text)
}

// The text of the May element.
fn printed(
    alloc: Global,
    prime: u32,
    degree: u32,
    element: &FormalSum<Surj>,
) -> Result<Bytes, AllocError>
    requires { IsSameSum element.now (may_element prime degree) }
    ensures { IfOk result (λ b. IsElementText prime degree b) }
{
    let _weight = element.weight();
    text_of(alloc, prime, degree, element)
}

// The answer at a prime.
fn answer_at<const P: u32>(alloc: Global, degree: u32) -> Result<(Status, Bytes), AllocError>
    requires prime { IsTrue (served P) }
    requires low { degree ≤ 60 }
    ensures answer { IfOk result (λ p. MayAnswers P degree p.0 p.1) }
    ensures made { IfOk result (λ p. IsMade p.0 p.1) }
{
    let count = MayTable::<P>::candidates(degree);
    if count > DEFAULT_LIMIT {
        return too_many_terms(alloc, count, DEFAULT_LIMIT);
    }
    let element = MayTable::<P>::build(alloc, degree)?;
    let text = printed(alloc, P, degree, &element)?;
    Ok((Status::Done, text))
}

/// The status and the text that `may` answers for a prime and a degree.
pub fn may(alloc: Global, prime: u32, degree: u32) -> Result<(Status, Bytes), AllocError>
    requires prime { IsTrue (served prime) }
    requires low { degree ≤ 60 }
    ensures answer { IfOk result (λ p. MayAnswers prime degree p.0 p.1) }
    ensures made { IfOk result (λ p. IsMade p.0 p.1) }
{
    match prime {
        2 => answer_at::<2>(alloc, degree),
        3 => answer_at::<3>(alloc, degree),
        5 => answer_at::<5>(alloc, degree),
        _ => unreachable!(),
    }
}
