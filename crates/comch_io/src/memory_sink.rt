ghost use Rattle.std.specs.Prelude.{◌≡◌, ℕ, ◌<◌, ◌≤◌, List, [], IfOk, Ok, Err, Some, None, is_some, min, length, ◌+◌, ◌-◌, ◌^◌, if◌then◌else◌};
ghost use Rattle.std.specs.declared.option.Option.{Option};
ghost use Rattle.std.specs.Io.{WritesAtMost};
ghost use Rattle.std.specs.Io.KnownBytes.{WriteAppends};
ghost use Rattle.comch_io.specs.Causes.{HasCause};
ghost use Rattle.comch_io.specs.Devices.{after_write, is_refused, taken_count};

use crate::{Failed, Sink};
use std::alloc::{AllocError, Global};
use std::marker::Model;

/// A sink in memory with a fixed room that is taken when it is made, a list of the calls that fail, and a bound on what one
/// call takes.
#[derive(Debug, Drop)]
pub struct MemSink {
    text: Vec<u8>,
    room: usize,
    step: usize,
    failing: Vec<u64>,
    calls: u64,
    faults: u64,
}

impl Model for MemSink {
    ghost use Rattle.std.specs.Prelude.{◌≤◌, length, vec_capacity};
    ghost use Rattle.comch_io.specs.Devices.{SinkState, FitsItsRoom};

    ghost Value = { SinkState };

    ghost view = { λ s. record {
      written = s.text.items;
      room = s.room;
      step = s.step;
      failing = s.failing.items;
      calls = s.calls;
      faults = s.faults;
    } };

    ghost invariant = { λ s. FitsItsRoom (length s.text.items) s.room (vec_capacity s.text) s.step };
}

impl MemSink {
    /// Nothing written, with this room; the calls with these numbers, counted from 0, will fail.
    pub fn new(alloc: Global, room: usize, failing: &[u64]) -> Result<MemSink, AllocError>
        ensures { IfOk result (λ s. s ≡ record { written = []; room = room; step = usize.MAX; failing = failing.now; calls = 0; faults = 0 }) }
    {
        MemSink::in_steps(alloc, room, usize::MAX, failing)
    }

    /// The same sink, of which one call takes at most `step` bytes.
    pub fn in_steps(
        alloc: Global,
        room: usize,
        step: usize,
        failing: &[u64],
    ) -> Result<MemSink, AllocError>
        requires { 1 ≤ step }
        ensures { IfOk result (λ s. s ≡ record { written = []; room = room; step = step; failing = failing.now; calls = 0; faults = 0 }) }
    {
        Ok(MemSink {
            text: Vec::with_capacity(alloc, room)?,
            room,
            step,
            failing: Vec::from_slice(alloc, failing)?,
            calls: 0,
            faults: 0,
        })
    }

    /// What was written.
    pub fn text(&self) -> &[u8]
        ensures { result.now ≡ self.now.written }
    {
        self.text.as_slice()
    }

    /// How many calls have failed, by their number or for want of room.
    pub fn faults(&self) -> u64
        ensures { result ≡ self.now.faults }
    {
        self.faults
    }
}

impl Sink for MemSink {
    ghost written = { λ s. Some s.written };

    ghost faults = { λ s. s.faults };

    fn write(&mut self, piece: &[u8]) -> Result<usize, Failed>
        ensures bound { WritesAtMost result piece.now }
        ensures moves { IfOk result (λ k. 0 < length piece.now → 0 < k) }
        ensures bytes { WriteAppends (Some self.old.written) (Some self.new.written) result piece.now }
        ensures cause { HasCause self.old.faults self.new.faults result }
        ensures after { self.new ≡ after_write piece.now self.old }
        ensures exact { result ≡ (if is_refused piece.now self.old then Err record {} else Ok (taken_count piece.now self.old)) }
    {
        let call = self.calls;
        self.calls = call.saturating_add(1);
        let is_full = !piece.is_empty() && self.room == self.text.len();
        if self.failing.as_slice().contains(&call) || is_full {
            self.faults = self.faults.saturating_add(1);
            return Err(Failed);
        }
        let count = piece.len().min(self.step).min(self.room - self.text.len());
        self.text.extend_from_slice(&piece[..count]).unwrap();
        Ok(count)
    }
}

/// A sink that keeps the number of bytes alone, up to the last `u64`, and never fails.
#[derive(Debug, Drop)]
pub struct CountSink {
    bytes: u64,
}

impl Model for CountSink {
    ghost use Rattle.std.specs.Prelude.{ℕ};

    ghost Value = { ℕ };

    ghost view = { λ s. s.bytes };
}

impl CountSink {
    /// No bytes yet.
    pub fn new() -> CountSink
        ensures { result ≡ 0 }
    {
        CountSink { bytes: 0 }
    }

    /// How many bytes it took.
    pub fn bytes(&self) -> u64
        ensures { result ≡ self.now }
    {
        self.bytes
    }
}

impl Sink for CountSink {
    ghost written = { λ _. None };

    ghost faults = { λ _. 0 };

    fn write(&mut self, piece: &[u8]) -> Result<usize, Failed>
        ensures bound { WritesAtMost result piece.now }
        ensures moves { IfOk result (λ k. 0 < length piece.now → 0 < k) }
        ensures bytes { WriteAppends None None result piece.now }
        ensures cause { HasCause 0 0 result }
        ensures exact { result ≡ Ok (length piece.now) }
        ensures counts { self.new ≡ min (self.old + length piece.now) (2 ^ 64 - 1) }
    {
        self.bytes = self.bytes.saturating_add(piece.len() as u64);
        Ok(piece.len())
    }
}
