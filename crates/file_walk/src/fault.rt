// Why a walk is refused.
use cluster_tree::{FileFault, OutOfMemory, Path};
use std::alloc::{AllocError, AllocFailed};
use thiserror::Error;

/// Why there is no list of what lies below a root. Paths are those from the root on, but for that of
/// `File`.
#[derive(Debug, Drop, Error)]
pub enum WalkFault {
    /// A link or a special file stands there.
    #[error("{0} is a link or a special file")]
    Link(Path),
    /// The folder holds a name that isn't UTF-8.
    #[error("{0} holds a name that is not UTF-8")]
    NameNotText(Path),
    /// The first 64 parts of a path that has more than 64 with those of the root.
    #[error("{0} has more than 64 parts")]
    TooDeep(Path),
    /// A file of a main fork and its size in bytes, which makes no whole blocks.
    #[error("{0} has {1} bytes, which are no whole blocks")]
    OddSize(Path, u64),
    /// The root is no folder, a read failed, the tree contradicted itself, or memory was wanting.
    #[error("{0}")]
    File(FileFault),
}

impl From<OutOfMemory> for WalkFault {
    ghost use Rattle.std.specs.Prelude.{◌≡◌};
    ghost use Rattle.cluster_tree.specs.declared.file_fault.FileFault.TheVariants as file;
    ghost use Rattle.file_walk.specs.declared.fault.WalkFault.TheVariants as fault;

    ghost from_gives = { λ _ e. e ≡ fault.File file.OutOfMemory };

    fn from(_: OutOfMemory) -> WalkFault {
        WalkFault::File(FileFault::OutOfMemory)
    }
}

impl From<AllocError> for WalkFault {
    ghost use Rattle.std.specs.Prelude.{◌≡◌};
    ghost use Rattle.cluster_tree.specs.declared.file_fault.FileFault.TheVariants as file;
    ghost use Rattle.file_walk.specs.declared.fault.WalkFault.TheVariants as fault;

    ghost from_gives = { λ _ e. e ≡ fault.File file.OutOfMemory };

    fn from(_: AllocError) -> WalkFault {
        WalkFault::File(FileFault::OutOfMemory)
    }
}

impl<T: Drop> From<AllocFailed<T>> for WalkFault {
    ghost use Rattle.std.specs.Prelude.{◌≡◌};
    ghost use Rattle.cluster_tree.specs.declared.file_fault.FileFault.TheVariants as file;
    ghost use Rattle.file_walk.specs.declared.fault.WalkFault.TheVariants as fault;

    ghost from_gives = { λ _ e. e ≡ fault.File file.OutOfMemory };

    fn from(_: AllocFailed<T>) -> WalkFault {
        WalkFault::File(FileFault::OutOfMemory)
    }
}
