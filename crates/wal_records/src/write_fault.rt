//! Why a record isn't appended.

use std::alloc::AllocError;
use thiserror::Error;

/// Why a record isn't appended to a log.
#[derive(Clone, Copy, Debug, PartialEq, Eq, Error)]
pub enum LogWriteFault {
    /// The record would have so many bytes, more than 1020 MiB.
    #[error("a record of {0} bytes is too long")]
    TooLong(u64),
    /// There was no memory.
    #[error("out of memory")]
    OutOfMemory,
}

impl From<AllocError> for LogWriteFault {
    ghost use Rattle.std.specs.Prelude.{◌≡◌};
    ghost use Rattle.wal_records.specs.declared.write_fault.LogWriteFault.TheVariants as fault;

    ghost from_gives = { λ _ e. e ≡ fault.OutOfMemory };

    fn from(_error: AllocError) -> LogWriteFault {
        LogWriteFault::OutOfMemory
    }
}
