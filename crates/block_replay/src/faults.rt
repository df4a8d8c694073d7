//! Why a record isn't replayed.

use block_refs::BlockName;
use cluster_tree::{FileFault, OutOfMemory};
use page_layout::RedoWhy;
use thiserror::Error;
use wal_base::Lsn;

/// Why a record isn't replayed.
#[derive(Debug, Drop, Error)]
pub enum RecordFault {
    /// The record that starts here can't be redone on a block: its name, and why.
    #[error("the record at {0} cannot be redone on {1}: {2}")]
    RedoFailed(Lsn, BlockName, RedoWhy),
    /// Work on the files stopped.
    #[error("{0}")]
    File(FileFault),
}

impl From<FileFault> for RecordFault {
    ghost use Rattle.std.specs.Prelude.{◌≡◌};
    ghost use Rattle.block_replay.specs.declared.faults.RecordFault.TheVariants as fault;

    ghost from_gives = { λ cause e. e ≡ fault.File cause };

    fn from(cause: FileFault) -> RecordFault {
        RecordFault::File(cause)
    }
}

impl From<OutOfMemory> for RecordFault {
    ghost use Rattle.std.specs.Prelude.{◌≡◌};
    ghost use Rattle.cluster_tree.specs.declared.file_fault.FileFault.TheVariants as file;
    ghost use Rattle.block_replay.specs.declared.faults.RecordFault.TheVariants as fault;

    ghost from_gives = { λ _ e. e ≡ fault.File file.OutOfMemory };

    fn from(_: OutOfMemory) -> RecordFault {
        RecordFault::File(FileFault::OutOfMemory)
    }
}
