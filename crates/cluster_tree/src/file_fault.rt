// The common fault of whatever works on files.
use crate::{OutOfMemory, Path};
use thiserror::Error;

/// Why work on files stopped.
#[derive(Debug, Drop, Error)]
pub enum FileFault {
    /// A read of the device failed.
    #[error("a read failed")]
    ReadFault,
    /// A changing call of the device failed.
    #[error("a write failed")]
    WriteFault,
    /// A link or a special file stands at this path.
    #[error("{0} is a link or a special file")]
    Link(Path),
    /// A file or nothing stands at this path, where a folder is needed.
    #[error("{0} is not a folder")]
    NotFolder(Path),
    /// A folder stands at this path, where a file is needed.
    #[error("{0} is a folder")]
    IsFolder(Path),
    /// The folder at this path holds a name that isn't UTF-8.
    #[error("{0} holds a name that is not UTF-8")]
    NameNotText(Path),
    /// Below this path lies one of more than 64 parts.
    #[error("{0} holds a path of more than 64 parts")]
    TooDeep(Path),
    /// The tree contradicted, about this path, what it had answered earlier in the run.
    #[error("{0} was changed meanwhile")]
    Changed(Path),
    /// There was no memory.
    #[error("out of memory")]
    OutOfMemory,
}

impl From<OutOfMemory> for FileFault {
    ghost use Rattle.std.specs.Prelude.{◌≡◌};
    ghost use Rattle.cluster_tree.specs.declared.file_fault.FileFault.TheVariants as fault;

    ghost from_gives = { λ _ e. e ≡ fault.OutOfMemory };

    fn from(_: OutOfMemory) -> FileFault {
        FileFault::OutOfMemory
    }
}
