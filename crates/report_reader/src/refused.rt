use std::alloc::AllocError;
use thiserror::Error;

/// Why a text was not read.
#[derive(Debug, Drop, Error)]
pub enum ReadRefused {
    /// The text is no certificate. Its first lines up to this one, counted from 1, are the first lines of none, and those
    /// before it are.
    #[error("line {line} is refused")]
    ReportRefused { line: u64 },
    #[error("out of memory")]
    OutOfMemory,
}

impl From<AllocError> for ReadRefused {
    ghost use Rattle.std.specs.Prelude.{◌≡◌};
    ghost use Rattle.report_reader.specs.declared.refused.ReadRefused.TheVariants.{OutOfMemory};

    ghost from_gives = { λ _ e. e ≡ OutOfMemory };

    fn from(_: AllocError) -> Self {
        ReadRefused::OutOfMemory
    }
}
