// Why nothing was replayed, or not all.
use block_refs::BlockName;
use cluster_tree::{OutOfMemory, Path};
use clusters::ClusterFault;
use page_layout::RedoWhy;
use replay_profile::ProfileFault;
use thiserror::Error;
use wal_base::Lsn;
use wal_records::LogFault;

/// Why a replay ended before its end, but for `Cluster` in the order in which it is looked for. Up to
/// `EndsTooSoon` and a label's second line nothing was changed, nor where a mark, the control file or
/// a history is refused; from `RedoFailed` on the cluster has the mark of an unfinished run, but where
/// the device or memory failed before that.
#[derive(Debug, Drop, Error)]
pub enum ReplayFault {
    /// What the root has: a mark, a control file or a history that is refused; or a read failed, the
    /// tree contradicted itself, or memory was wanting.
    #[error("{0}")]
    Cluster(ClusterFault),
    /// The root of a cluster whose pages have checksums.
    #[error("the pages of {0} have checksums")]
    ChecksumsOn(Path),
    /// The root of a cluster that did not log hints.
    #[error("{0} did not log hints")]
    NoHints(Path),
    /// The root, below which `backup_label` is not a file.
    #[error("{0} has no backup_label")]
    NoLabel(Path),
    /// The root, and the number of the line of its label that isn't of its form, or of which the log
    /// has no checkpoint.
    #[error("line {1} of the backup_label of {0} is not to be used")]
    BadLabel(Path, u64),
    /// The start of a record without parts, and the offset in its body at which no rule fits.
    #[error("the record at {0} has no parts from offset {1} on")]
    BadParts(Lsn, u32),
    /// The start of a record with a compressed image, and the id of its block reference.
    #[error("the record at {0} has a compressed image of block {1}")]
    Compressed(Lsn, u8),
    /// The start of a record that replay doesn't take, its resource manager and its info byte.
    #[error("the record at {0} of manager {1} with info {2:02X} is not replayed")]
    NotInProfile(Lsn, u8, u8),
    /// Where the log ends, and the position that the cluster needs to be consistent.
    #[error("the log ends at {0}, and the cluster is consistent from {1} on")]
    EndsTooSoon(Lsn, Lsn),
    /// The start of a record, a block, and why the record isn't redone on it.
    #[error("the record at {0} is not redone on {1}: {2:?}")]
    RedoFailed(Lsn, BlockName, RedoWhy),
    /// A block that a record changes, and that wasn't there to the end of the log.
    #[error("{0} is changed and is not there")]
    MissingPage(BlockName),
    /// A link or a special file stands at this path.
    #[error("{0} is a link or a special file")]
    Link(Path),
    /// Something else stands at this path, where a folder is needed.
    #[error("{0} is not a folder")]
    NotFolder(Path),
    /// A folder stands at this path, where a file is needed.
    #[error("{0} is a folder")]
    KindsDiffer(Path),
    /// The folder at this path holds a name that isn't UTF-8.
    #[error("{0} holds a name that is not UTF-8")]
    NameNotText(Path),
    /// This folder holds a path of more than 64 parts.
    #[error("{0} holds a path of more than 64 parts")]
    TooDeep(Path),
    /// A changing call of the device failed.
    #[error("a write failed")]
    WriteFault,
}

impl From<ClusterFault> for ReplayFault {
    ghost use Rattle.std.specs.Prelude.{◌≡◌};
    ghost use Rattle.replay_start.specs.declared.fault.ReplayFault.TheVariants as fault;

    ghost from_gives = { λ cause e. e ≡ fault.Cluster cause };

    fn from(cause: ClusterFault) -> ReplayFault {
        ReplayFault::Cluster(cause)
    }
}

impl From<OutOfMemory> for ReplayFault {
    ghost use Rattle.std.specs.Prelude.{◌≡◌};
    ghost use Rattle.clusters.specs.declared.fault.ClusterFault.TheVariants as cluster;
    ghost use Rattle.replay_start.specs.declared.fault.ReplayFault.TheVariants as fault;

    ghost from_gives = { λ _ e. e ≡ fault.Cluster cluster.OutOfMemory };

    fn from(_: OutOfMemory) -> ReplayFault {
        ReplayFault::Cluster(ClusterFault::OutOfMemory)
    }
}

impl From<wal_base::OutOfMemory> for ReplayFault {
    ghost use Rattle.std.specs.Prelude.{◌≡◌};
    ghost use Rattle.clusters.specs.declared.fault.ClusterFault.TheVariants as cluster;
    ghost use Rattle.replay_start.specs.declared.fault.ReplayFault.TheVariants as fault;

    ghost from_gives = { λ _ e. e ≡ fault.Cluster cluster.OutOfMemory };

    fn from(_: wal_base::OutOfMemory) -> ReplayFault {
        ReplayFault::Cluster(ClusterFault::OutOfMemory)
    }
}

impl From<LogFault> for ReplayFault {
    ghost use Rattle.std.specs.Prelude.{◌≡◌};
    ghost use Rattle.replay_start.specs.Faults.{of_log};

    ghost from_gives = { λ fault e. e ≡ of_log fault };

    fn from(fault: LogFault) -> ReplayFault {
        match fault {
            LogFault::ReadFault => ReplayFault::Cluster(ClusterFault::ReadFault),
            LogFault::OutOfMemory => ReplayFault::Cluster(ClusterFault::OutOfMemory),
        }
    }
}

impl From<ProfileFault> for ReplayFault {
    ghost use Rattle.std.specs.Prelude.{◌≡◌};
    ghost use Rattle.replay_start.specs.Faults.{of_profile};

    ghost from_gives = { λ fault e. e ≡ of_profile fault };

    fn from(fault: ProfileFault) -> ReplayFault {
        match fault {
            ProfileFault::BadParts(start, offset) => ReplayFault::BadParts(start, offset),
            ProfileFault::Compressed(start, id) => ReplayFault::Compressed(start, id),
            ProfileFault::NotInProfile(start, manager, info) => {
                ReplayFault::NotInProfile(start, manager, info)
            }
        }
    }
}
