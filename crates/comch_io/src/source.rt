ghost use Rattle.std.specs.Prelude.{◌≡◌, ℕ, List, is_some};
ghost use Rattle.std.specs.declared.option.Option.{Option};
ghost use Rattle.std.specs.Io.{ReadsAtMost};
ghost use Rattle.std.specs.Io.KnownBytes.{ReadConsumes};
ghost use Rattle.comch_io.specs.Causes.{CountsGiven, HasCause};

/// A device did not do what was asked of it.
#[derive(Clone, Copy, Debug, PartialEq, Eq)]
pub struct Failed;

/// Bytes that come from somewhere.
pub trait Source {
    /// The bytes that are not yet read, where the source tells them. No call changes whether it does.
    ghost left: { Self → Option (List ℕ) };

    /// How many bytes it has given: a count that stays at `2^64 - 1` once it is there.
    ghost given: { Self → ℕ };

    /// How often it has failed: a count that never falls, and that stays at `2^64 - 1` once it is there.
    ghost faults: { Self → ℕ };

    /// Reads into the front of `into`, and answers how many bytes it put there.
    ///
    /// `Ok(0)` is the end of the input, where `into` is not empty. `Failed` comes only where the count
    /// of faults rose; then what is left is as before, and `into` may hold any bytes.
    fn read(&mut self, into: &mut [u8]) -> Result<usize, Failed>
        ensures bound { ReadsAtMost result into.new }
        ensures bytes { ReadConsumes (left self.old) (left self.new) result into.new }
        ensures given { CountsGiven (given self.old) (given self.new) result }
        ensures tells { is_some (left self.new) ≡ is_some (left self.old) }
        ensures cause { HasCause (faults self.old) (faults self.new) result };
}
