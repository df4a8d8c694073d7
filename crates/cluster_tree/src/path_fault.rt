// Why a text is no path.
ghost use Rattle.std.specs.Prelude.{◌≡◌};
ghost use Rattle.cluster_tree.specs.declared.path_fault.PathFault.TheVariants.{OutOfMemory as out_of_memory};

use crate::OutOfMemory;
use std::alloc::{AllocError, AllocFailed};
use thiserror::Error;

/// Why a text is no path, in the order in which it is looked for.
#[derive(Clone, Copy, Debug, PartialEq, Eq, Error)]
pub enum PathFault {
    /// The text is empty.
    #[error("a path is empty")]
    Empty,
    /// A part is `..`.
    #[error("a path has a part `..`")]
    DotDot,
    /// More than 64 parts would remain.
    #[error("a path has more than 64 parts")]
    TooDeep,
    /// There was no memory for the path.
    #[error("out of memory")]
    OutOfMemory,
}

impl From<AllocError> for PathFault {
    ghost from_gives = { λ _ e. e ≡ out_of_memory };

    fn from(_: AllocError) -> PathFault {
        PathFault::OutOfMemory
    }
}

impl<T: Drop> From<AllocFailed<T>> for PathFault {
    ghost from_gives = { λ _ e. e ≡ out_of_memory };

    fn from(_: AllocFailed<T>) -> PathFault {
        PathFault::OutOfMemory
    }
}

impl From<OutOfMemory> for PathFault {
    ghost from_gives = { λ _ e. e ≡ out_of_memory };

    fn from(_: OutOfMemory) -> PathFault {
        PathFault::OutOfMemory
    }
}
