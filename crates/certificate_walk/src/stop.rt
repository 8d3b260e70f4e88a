//! Where a walk of lines stops.
ghost use Rattle.std.specs.Prelude.{◌≡◌, ◌+◌, ◌<◌, ◌^◌, Ok, Err, if◌then◌else◌};
ghost use Rattle.certificate_walk.specs.Names.{Fails, OutOfMemory};

use std::alloc::{AllocError, AllocFailed};

/// Why a walk of lines stops: at the first line that is not as asked, by its number from 1, or for want of memory.
#[derive(Clone, Copy, Debug, PartialEq, Eq)]
pub enum Stop {
    Fails { line: u64 },
    OutOfMemory,
}

impl From<AllocError> for Stop {
    ghost from_gives = { λ _ e. e ≡ OutOfMemory };

    fn from(_: AllocError) -> Self {
        Stop::OutOfMemory
    }
}

impl<T: Drop> From<AllocFailed<T>> for Stop {
    ghost from_gives = { λ _ e. e ≡ OutOfMemory };

    fn from(_: AllocFailed<T>) -> Self {
        Stop::OutOfMemory
    }
}

/// The walk of one line, behind `before` others: whether it is as asked is told.
pub fn ask(is_as_asked: bool, before: u64) -> Result<u64, Stop>
    requires { before + 1 < 2 ^ 64 }
    ensures { result ≡ (if is_as_asked then Ok (before + 1) else Err (Fails (before + 1))) }
{
    let line = before + 1;
    if is_as_asked {
        Ok(line)
    } else {
        Err(Stop::Fails { line })
    }
}
