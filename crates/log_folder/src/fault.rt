// Why no log is found.
use cluster_tree::{OutOfMemory, Path};
use thiserror::Error;

/// Why no log is found, in the order in which it is looked for.
#[derive(Debug, Drop, Error)]
pub enum FolderFault {
    /// No folder stands at this path, nor a link.
    #[error("{0} is not a folder")]
    NotFolder(Path),
    /// A link or special file stands at this path, where a folder is needed.
    #[error("{0} is a link or a special file")]
    Link(Path),
    /// This folder holds a name that isn't UTF-8.
    #[error("{0} holds a name that isn't UTF-8")]
    NameNotText(Path),
    /// This folder has no file with a segment's name, nor has its folder pg_wal, which may be a link
    /// or a file; or it is the one of these two that is taken, and STARTSEG is no file in it.
    #[error("{0} has no log")]
    NoWal(Path),
    /// The first 40 bytes of this file don't tell the size of a segment.
    #[error("{0} is not a segment of a log")]
    BadSegment(Path),
    /// The words break a rule: a start or an end doesn't fit the segments.
    #[error("the words break a rule")]
    Usage,
    /// A read of the device failed.
    #[error("a read failed")]
    ReadFault,
    /// Memory is wanting.
    #[error("out of memory")]
    OutOfMemory,
}

impl From<OutOfMemory> for FolderFault {
    ghost use Rattle.std.specs.Prelude.{◌≡◌};
    ghost use Rattle.log_folder.specs.declared.fault.FolderFault.TheVariants as fault;

    ghost from_gives = { λ _ e. e ≡ fault.OutOfMemory };

    fn from(_: OutOfMemory) -> FolderFault {
        FolderFault::OutOfMemory
    }
}

impl From<wal_base::OutOfMemory> for FolderFault {
    ghost use Rattle.std.specs.Prelude.{◌≡◌};
    ghost use Rattle.log_folder.specs.declared.fault.FolderFault.TheVariants as fault;

    ghost from_gives = { λ _ e. e ≡ fault.OutOfMemory };

    fn from(_: wal_base::OutOfMemory) -> FolderFault {
        FolderFault::OutOfMemory
    }
}
