//! What keeps a log from being read.

ghost use Rattle.std.specs.Prelude.{◌≡◌};
ghost use Rattle.wal_records.specs.declared.fault.LogFault.TheVariants as fault;

use std::alloc::AllocError;
use thiserror::Error;

/// What keeps a log from being read: nothing that the log holds.
#[derive(Clone, Copy, Debug, PartialEq, Eq, Error)]
pub enum LogFault {
    /// A read of the device failed.
    #[error("a read failed")]
    ReadFault,
    /// There was no memory.
    #[error("out of memory")]
    OutOfMemory,
}

impl From<AllocError> for LogFault {
    ghost from_gives = { λ _ e. e ≡ fault.OutOfMemory };

    fn from(_error: AllocError) -> LogFault {
        LogFault::OutOfMemory
    }
}
