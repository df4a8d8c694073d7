//! Why a history could not be read.

ghost use Rattle.std.specs.Prelude.{◌≡◌};
ghost use Rattle.timeline_history.specs.declared.fault.HistoryFault.TheVariants as faults;

use std::alloc::{AllocError, AllocFailed};
use thiserror::Error;

/// What is wrong with a history file: its least line with a fault, counted from 1.
#[derive(Clone, Copy, Debug, PartialEq, Eq, Error)]
pub enum HistoryFault {
    /// The line is no entry, no comment and not empty.
    #[error("line {0} is no entry of a history")]
    BadLine(u64),
    /// The line's timeline is 0, not above the one before it or not below the file's own, or its position is 0 or
    /// below the one before it.
    #[error("line {0} doesn't rise above the one before it")]
    NotRising(u64),
    /// The allocator gave no memory.
    #[error("out of memory")]
    OutOfMemory,
}

impl From<AllocError> for HistoryFault {
    ghost from_gives = { λ _ e. e ≡ faults.OutOfMemory };

    fn from(_error: AllocError) -> HistoryFault {
        HistoryFault::OutOfMemory
    }
}

impl<T: Drop> From<AllocFailed<T>> for HistoryFault {
    ghost from_gives = { λ _ e. e ≡ faults.OutOfMemory };

    fn from(_error: AllocFailed<T>) -> HistoryFault {
        HistoryFault::OutOfMemory
    }
}

impl From<wal_base::OutOfMemory> for HistoryFault {
    ghost from_gives = { λ _ e. e ≡ faults.OutOfMemory };

    fn from(_error: wal_base::OutOfMemory) -> HistoryFault {
        HistoryFault::OutOfMemory
    }
}
