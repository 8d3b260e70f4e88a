ghost use Rattle.std.specs.Prelude.{◌≡◌};
ghost use Rattle.complex_file.specs.Names.{Memory, OutOfMemory};

use crate::InputKind;
use std::alloc::{AllocError, AllocFailed};

/// Why an input spells no job: the kind of its first fault, and its line, counted from 1. A text that is too long has line 0.
#[derive(Clone, Copy)]
pub enum JobRefused {
    InputRefused { kind: InputKind, line: u64 },
    OutOfMemory,
}

impl From<AllocError> for JobRefused {
    ghost from_gives = { λ _ e. e ≡ OutOfMemory };

    fn from(_: AllocError) -> Self {
        JobRefused::OutOfMemory
    }
}

/// The first fault of a block: its kind, and the place of the facet or send at fault, counted from 0.
#[derive(Clone, Copy, Debug, PartialEq, Eq)]
pub struct BlockFault {
    pub kind: InputKind,
    pub at: u64,
}

/// Why a line was not read.
#[derive(Clone, Copy)]
pub enum LineFault {
    Memory,
    Kind(InputKind),
}

impl From<AllocError> for LineFault {
    ghost from_gives = { λ _ e. e ≡ Memory };

    fn from(_: AllocError) -> Self {
        LineFault::Memory
    }
}

impl<T: Drop> From<AllocFailed<T>> for LineFault {
    ghost from_gives = { λ _ e. e ≡ Memory };

    fn from(_: AllocFailed<T>) -> Self {
        LineFault::Memory
    }
}
