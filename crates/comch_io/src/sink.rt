ghost use Rattle.std.specs.Prelude.{◌≡◌, ℕ, ◌<◌, List, length, is_some, IfOk};
ghost use Rattle.std.specs.declared.option.Option.{Option};
ghost use Rattle.std.specs.Io.{WritesAtMost};
ghost use Rattle.std.specs.Io.KnownBytes.{WriteAppends};
ghost use Rattle.comch_io.specs.Causes.{HasCause};

use crate::Failed;

/// Bytes that go somewhere.
pub trait Sink {
    /// The bytes that were written, where the sink tells them. No call changes whether it does.
    ghost written: { Self → Option (List ℕ) };

    /// How often it has failed: a count that never falls, and that stays at `2^64 - 1` once it is there.
    ghost faults: { Self → ℕ };

    /// Writes a front of `piece`, and answers how many bytes that are: at least one where there is one.
    ///
    /// `Failed` comes only where the count of faults rose; then what was written is as before.
    fn write(&mut self, piece: &[u8]) -> Result<usize, Failed>
        ensures bound { WritesAtMost result piece.now }
        ensures moves { IfOk result (λ k. 0 < length piece.now → 0 < k) }
        ensures bytes { WriteAppends (written self.old) (written self.new) result piece.now }
        ensures tells { is_some (written self.new) ≡ is_some (written self.old) }
        ensures cause { HasCause (faults self.old) (faults self.new) result };
}
