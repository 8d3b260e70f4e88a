ghost use Rattle.std.specs.Prelude.{◌≡◌, ◌+◌, ◌≤◌, ◌<◌, ◌++◌, List, ℕ, length, drop, IfSome, IfOk, MatchResult, vec_len};
ghost use Rattle.std.specs.Io.KnownBytes.{Consumes, Appends, IsAtEnd};
ghost use Rattle.comch_io.specs.Causes.{HasCause};
ghost use Rattle.comch_io.specs.Reading.{ReadsAs, read_answer, ReadGave, ReadCause, AppendsPrefix, PieceGave};

use crate::{Bytes, Failed, ReadEnd, Sink, Source};
use std::alloc::Global;

// How many bytes one read asks for at most.
const PIECE: usize = 4096;

// Reads once, at most one byte more than `most`, and puts what came at the end.
fn read_piece<S: Source>(source: &mut S, all: &mut Bytes, most: u64) -> Result<usize, ReadEnd>
    ensures piece { PieceGave most (S.left source.old) (S.left source.new) (S.given source.old) (S.given source.new) all.old all.new result }
    ensures cause { ReadCause (S.faults source.old) (S.faults source.new) result }
{
    let mut piece = [0u8; PIECE];
    let room = if most < PIECE as u64 {
        most as usize + 1
    } else {
        PIECE
    };
    match source.read(&mut piece[..room]) {
        Ok(count) => match all.extend(&piece[..count]) {
            Ok(()) => Ok(count),
            Err(_) => Err(ReadEnd::OutOfMemory),
        },
        Err(Failed) => Err(ReadEnd::Fault),
    }
}

/// All that the source has left, where that is at most `limit` bytes. It stops at the first failed
/// read, and takes at most one byte more than `limit`.
pub fn read_all<S: Source>(alloc: Global, source: &mut S, limit: u64) -> Result<Bytes, ReadEnd>
    // Where the source tells what it has left, the answer is settled but for faults and memory.
    ensures exact { IfSome (S.left source.old) (λ xs. ReadsAs result (read_answer limit xs)) }

    // What the source gave, whatever the answer and whatever it tells.
    ensures gave { ReadGave limit (S.left source.old) (S.left source.new) (S.given source.old) (S.given source.new) result }
    ensures cause { ReadCause (S.faults source.old) (S.faults source.new) result }
{
    let mut all = Bytes::new(alloc);
    loop {
        let taken = all.as_slice().len() as u64;
        if taken > limit {
            return Err(ReadEnd::TooLong);
        }
        match read_piece(source, &mut all, limit - taken) {
            Ok(0) => return Ok(all),
            Ok(_) => {}
            Err(end) => return Err(end),
        }
    }
}

/// Writes the whole text, piece by piece. It stops at the first failed write; then a front of the
/// text was written.
pub fn write_all<K: Sink>(sink: &mut K, text: &[u8]) -> Result<(), Failed>
    ensures bytes { MatchResult result
        (λ _. Appends (K.written sink.old) (K.written sink.new) text.now)
        (λ _. AppendsPrefix (K.written sink.old) (K.written sink.new) text.now) }
    ensures cause { HasCause (K.faults sink.old) (K.faults sink.new) result }
{
    let mut at = 0;
    while at < text.len() {
        match sink.write(&text[at..]) {
            Ok(count) => at += count,
            Err(failed) => return Err(failed),
        }
    }
    Ok(())
}
