ghost use Rattle.std.specs.Prelude.{◌≡◌, ◌<◌, ◌≤◌, None, IfOk, IfSome, length, take};
ghost use Rattle.std.specs.Io.{ReadsAtMost, WritesAtMost};
ghost use Rattle.std.specs.Io.KnownBytes.{Appends, ReadConsumes, WriteAppends};
ghost use Rattle.comch_io.specs.Causes.{CountsGiven, HasCause};

use crate::{Failed, Sink, Source};
use std::io::{Read, Write};

/// A source over any reader of std: the trusted edge. Each call is passed on once, and an error
/// raises the count of faults. It tells no bytes, but counts those that it gave.
#[derive(Debug, Drop)]
pub struct StdSource<R: Read> {
    inner: R,
    given: u64,
    faults: u64,
}

impl<R: Read> StdSource<R> {
    /// The adapter over this reader, with no byte given and no fault yet.
    pub fn new(inner: R) -> StdSource<R>
        ensures given { result.given ≡ 0 }
        ensures faults { result.faults ≡ 0 }
    {
        StdSource {
            inner,
            given: 0,
            faults: 0,
        }
    }
}

impl<R: Read> Source for StdSource<R> {
    ghost left = { λ _. None };

    ghost given = { λ s. s.given };

    ghost faults = { λ s. s.faults };

    fn read(&mut self, into: &mut [u8]) -> Result<usize, Failed>
        ensures bound { ReadsAtMost result into.new }
        ensures bytes { ReadConsumes None None result into.new }
        ensures given { CountsGiven self.old.given self.new.given result }
        ensures cause { HasCause self.old.faults self.new.faults result }

        // The call is passed on: what the reader gives is what it answers.
        ensures passed { ReadConsumes (R.remaining self.old.inner) (R.remaining self.new.inner) result into.new }
    {
        match self.inner.read(into) {
            Ok(count) => {
                self.given = self.given.saturating_add(count as u64);
                Ok(count)
            }
            Err(_) => {
                self.faults = self.faults.saturating_add(1);
                Err(Failed)
            }
        }
    }
}

/// A sink over any writer of std, which it flushes after each write: the trusted edge. An error, and
/// a write that takes nothing of a piece, raise the count of faults. It tells no bytes.
#[derive(Debug, Drop)]
pub struct StdSink<W: Write> {
    inner: W,
    faults: u64,
}

impl<W: Write> StdSink<W> {
    /// The adapter over this writer, with no fault yet.
    pub fn new(inner: W) -> StdSink<W>
        ensures { result.faults ≡ 0 }
    {
        StdSink { inner, faults: 0 }
    }

    // One write and one flush. `None` where a call failed, or took nothing of a piece.
    fn pass(&mut self, piece: &[u8]) -> Option<usize>
        ensures bound { IfSome result (λ k. k ≤ length piece.now) }
        ensures moves { IfSome result (λ k. 0 < length piece.now → 0 < k) }
        ensures faults { self.new.faults ≡ self.old.faults }
        ensures passed { IfSome result (λ k.
            Appends (W.contents self.old.inner) (W.contents self.new.inner) (take k piece.now)) }
    {
        let count = self.inner.write(piece).ok()?;
        self.inner.flush().ok()?;
        if count == 0 && !piece.is_empty() {
            return None;
        }
        Some(count)
    }
}

impl<W: Write> Sink for StdSink<W> {
    ghost written = { λ _. None };

    ghost faults = { λ s. s.faults };

    fn write(&mut self, piece: &[u8]) -> Result<usize, Failed>
        ensures bound { WritesAtMost result piece.now }
        ensures moves { IfOk result (λ k. 0 < length piece.now → 0 < k) }
        ensures bytes { WriteAppends None None result piece.now }
        ensures cause { HasCause self.old.faults self.new.faults result }

        // The call is passed on: what the writer took is what it answers.
        ensures passed { IfOk result (λ k.
            Appends (W.contents self.old.inner) (W.contents self.new.inner) (take k piece.now)) }
    {
        match self.pass(piece) {
            Some(count) => Ok(count),
            None => {
                self.faults = self.faults.saturating_add(1);
                Err(Failed)
            }
        }
    }
}
