ghost use Rattle.std.specs.{Prelude.{◌≡◌, IfOk}, Str.bytes_eq};
ghost use Rattle.report_text_law.specs.Names.{if_same, line_at, spelled};

use crate::guesses::guess;
use crate::word::pieces;
use comch_io::Bytes;
use report_text::spell;
use report_text_law::Line;
use std::alloc::{AllocError, Global};

// Whether the line is spelled by these bytes.
fn is_spelled(alloc: Global, bytes: &[u8], line: &Line) -> Result<bool, AllocError>
    ensures { IfOk result (λ b. b ≡ bytes_eq (spelled line.now) bytes.now) }
{
    let mut text = Bytes::new(alloc);
    spell(alloc, &mut text, line)?;
    let ended = text.as_slice();
    let spelled = &ended[..ended.len() - 1];
    Ok(spelled == bytes)
}

// The line, if these bytes are its spelling.
fn if_same(alloc: Global, bytes: &[u8], line: Line) -> Result<Option<Line>, AllocError>
    ensures { IfOk result (λ l. l ≡ if_same bytes.now line) }
{
    if is_spelled(alloc, bytes, &line)? {
        Ok(Some(line))
    } else {
        Ok(None)
    }
}

/// The line that is spelled by these bytes, without its byte 10; `None` exactly where they spell none. Its numbers are
/// below 2^32. It fails for want of memory alone.
pub fn line_of(alloc: Global, bytes: &[u8]) -> Result<Option<Line>, AllocError>
    ensures { IfOk result (λ l. l ≡ line_at bytes.now) }
{
    let words = pieces(alloc, b' ', bytes)?;
    match guess(alloc, &words)? {
        Some(line) => if_same(alloc, bytes, line),
        None => Ok(None),
    }
}
