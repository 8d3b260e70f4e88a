use std::alloc::AllocError;
use thiserror::Error;

/// Why no report was made.
#[derive(Debug, Drop, Error)]
pub enum MakeRefused {
    #[error("{count} terms, where the limit is {limit}")]
    TooManyTerms { count: u64, limit: u64 },
    #[error("out of memory")]
    OutOfMemory,
}

impl From<AllocError> for MakeRefused {
    ghost use Rattle.std.specs.Prelude.{◌≡◌};
    ghost use Rattle.job_report.specs.declared.refused.MakeRefused.TheVariants.{OutOfMemory};

    ghost from_gives = { λ _ e. e ≡ OutOfMemory };

    fn from(_: AllocError) -> Self {
        MakeRefused::OutOfMemory
    }
}
