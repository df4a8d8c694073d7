//! The one refusal that no argument decides.

ghost use Rattle.std.specs.Prelude.{◌≡◌};
ghost use Rattle.wal_base.specs.Memory.{out_of_memory};

use std::alloc::{AllocError, AllocFailed};
use thiserror::Error;

/// The allocator gave no memory.
#[derive(Clone, Copy, Debug, PartialEq, Eq, Error)]
#[error("out of memory")]
pub struct OutOfMemory;

impl From<AllocError> for OutOfMemory {
    ghost from_gives = { λ _ e. e ≡ out_of_memory };

    fn from(_error: AllocError) -> OutOfMemory {
        OutOfMemory
    }
}

impl<T: Drop> From<AllocFailed<T>> for OutOfMemory {
    ghost from_gives = { λ _ e. e ≡ out_of_memory };

    fn from(_error: AllocFailed<T>) -> OutOfMemory {
        OutOfMemory
    }
}
