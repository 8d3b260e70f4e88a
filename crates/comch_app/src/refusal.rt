ghost use Rattle.std.specs.{Prelude.{◌≡◌, ◌++◌, IfOk}, Fmt.decimal};
ghost use Rattle.comch_app.specs.Names.{refusal};

use crate::Status;
use comch_io::Bytes;
use complex_file::InputKind;
use std::alloc::{AllocError, Global};

/// Adds the digits of a number.
pub fn add_number(alloc: Global, text: &mut Bytes, n: u64) -> Result<(), AllocError>
    ensures { IfOk result (λ _. text.new ≡ text.old ++ decimal n) }
{
    let digits = n.to_string(alloc)?;
    text.extend(digits.as_bytes())
}

// The line of a no.
fn no_line(alloc: Global, condition: u8, line: u64) -> Result<Bytes, AllocError>
    ensures { IfOk result (λ b. b ≡ refusal (Status.No condition line)) }
{
    let mut text = Bytes::new(alloc);
    text.extend(b"no ")?;
    add_number(alloc, &mut text, u64::from(condition))?;
    text.extend(b" line ")?;
    add_number(alloc, &mut text, line)?;
    text.push(b'\n')?;
    Ok(text)
}

/// The answer where a condition fails at a line.
pub fn no(alloc: Global, condition: u8, line: u64) -> Result<(Status, Bytes), AllocError>
    ensures status { IfOk result (λ p. p.0 ≡ Status.No condition line) }
    ensures text { IfOk result (λ p. p.1 ≡ refusal (Status.No condition line)) }
{
    let text = no_line(alloc, condition, line)?;
    Ok((Status::No { condition, line }, text))
}

// The line of a refused input.
fn input_line(alloc: Global, kind: InputKind, line: u64) -> Result<Bytes, AllocError>
    ensures { IfOk result (λ b. b ≡ refusal (Status.InputRefused kind line)) }
{
    let mut text = Bytes::new(alloc);
    text.extend(b"refused input ")?;
    add_number(alloc, &mut text, u64::from(kind.number()))?;
    text.extend(b" line ")?;
    add_number(alloc, &mut text, line)?;
    text.push(b'\n')?;
    Ok(text)
}

/// The answer to an input that spells no job.
pub fn input_refused(
    alloc: Global,
    kind: InputKind,
    line: u64,
) -> Result<(Status, Bytes), AllocError>
    ensures status { IfOk result (λ p. p.0 ≡ Status.InputRefused kind line) }
    ensures text { IfOk result (λ p. p.1 ≡ refusal (Status.InputRefused kind line)) }
{
    let text = input_line(alloc, kind, line)?;
    Ok((Status::InputRefused { kind, line }, text))
}

// The line of a refusal for the number of terms.
fn terms_line(alloc: Global, count: u64, limit: u64) -> Result<Bytes, AllocError>
    ensures { IfOk result (λ b. b ≡ refusal (Status.TooManyTerms count limit)) }
{
    let mut text = Bytes::new(alloc);
    text.extend(b"refused terms ")?;
    add_number(alloc, &mut text, count)?;
    text.extend(b" limit ")?;
    add_number(alloc, &mut text, limit)?;
    text.push(b'\n')?;
    Ok(text)
}

/// The answer where the counted terms pass the limit.
pub fn too_many_terms(alloc: Global, count: u64, limit: u64) -> Result<(Status, Bytes), AllocError>
    ensures status { IfOk result (λ p. p.0 ≡ Status.TooManyTerms count limit) }
    ensures text { IfOk result (λ p. p.1 ≡ refusal (Status.TooManyTerms count limit)) }
{
    let text = terms_line(alloc, count, limit)?;
    Ok((Status::TooManyTerms { count, limit }, text))
}
