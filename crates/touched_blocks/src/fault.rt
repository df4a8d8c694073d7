//! Why a record isn't added.

use std::alloc::AllocError;
use thiserror::Error;
use wal_base::Lsn;

/// Why the names of a record aren't added to a set.
#[derive(Clone, Copy, Debug, PartialEq, Eq, Error)]
pub enum TouchFault {
    /// The record changes relations in a way that its references don't tell, and that isn't known
    /// here, or its fields aren't whole: its start, its resource manager and its `info`.
    #[error("a record changes relations in an unknown way")]
    UnknownSpecial(Lsn, u8, u8),
    /// There was no memory.
    #[error("out of memory")]
    OutOfMemory,
}

impl From<AllocError> for TouchFault {
    ghost use Rattle.std.specs.Prelude.{◌≡◌};
    ghost use Rattle.touched_blocks.specs.declared.fault.TouchFault.TheVariants as fault;

    ghost from_gives = { λ _ e. e ≡ fault.OutOfMemory };

    fn from(_error: AllocError) -> TouchFault {
        TouchFault::OutOfMemory
    }
}
