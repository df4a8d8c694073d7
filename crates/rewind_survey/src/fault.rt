// Why nothing was rewound.
use cluster_tree::{OutOfMemory, Path};
use clusters::ClusterFault;
use thiserror::Error;
use wal_base::Lsn;
use wal_records::Why;

/// Why nothing was rewound, but for `Cluster` in the order in which it is looked for. A root is the
/// target's or the source's.
#[derive(Debug, Drop, Error)]
pub enum RewindFault {
    /// What a root has: a mark, a control file or a history that is refused, with segments or files of
    /// another size too; or a read failed, the tree contradicted itself, or memory was wanting.
    #[error("{0}")]
    Cluster(ClusterFault),
    /// The system identifiers of the target and of the source, which differ.
    #[error("the target is of system {0} and the source of system {1}")]
    SystemsDiffer(u64, u64),
    /// The target, whose log has neither its hints nor checksums that have hints logged.
    #[error("{0} did not log hints")]
    NoHints(Path),
    /// The root of a cluster that was not shut down, and its state.
    #[error("{0} was not shut down cleanly: its state is {1}")]
    NotClean(Path, u32),
    /// The histories of target and source have nothing in common.
    #[error("the histories of target and source have nothing in common")]
    NoCommonAncestor,
    /// Where the target's log ends before a position that is needed, and why.
    #[error("the target's log ends at {0}: {1:?}")]
    LogEnds(Lsn, Why),
    /// The start of a record without parts, and the offset in its body at which no rule fits.
    #[error("the record at {0} has no parts from offset {1} on")]
    BadParts(Lsn, u32),
    /// The start of a record with a compressed image, and the id of its block reference.
    #[error("the record at {0} has a compressed image of block {1}")]
    Compressed(Lsn, u8),
    /// The start of a record without one before it, up to which there is no checkpoint.
    #[error("no checkpoint before the fork lies between it and {0}")]
    NoCommonCheckpoint(Lsn),
    /// The start of a record that changes relations in a way that isn't known, its resource manager
    /// and its info byte.
    #[error("the record at {0} of manager {1} with info {2:02X} is not known")]
    UnknownSpecial(Lsn, u8, u8),
    /// The end of the target's log, and the end of a record that starts below it and ends past it.
    #[error("the target's log is to end at {0}, and a record goes on to {1}")]
    EndNotRecord(Lsn, Lsn),
    /// A link or a special file stands at this path below a root.
    #[error("{0} is a link or a special file")]
    Link(Path),
    /// The root, which is no folder.
    #[error("{0} is not a folder")]
    NotFolder(Path),
    /// The folder at this path below a root holds a name that isn't UTF-8.
    #[error("{0} holds a name that is not UTF-8")]
    NameNotText(Path),
    /// The first 64 parts of a path below a root that has more with those of its root, or would have
    /// with those of the target.
    #[error("{0} has more than 64 parts")]
    TooDeep(Path),
    /// A file of a main fork below a root, and its size in bytes, which makes no whole blocks.
    #[error("{0} has {1} bytes, which are no whole blocks")]
    OddSize(Path, u64),
    /// At this path below the roots a file stands on one side and a folder on the other.
    #[error("{0} is a file on one side and a folder on the other")]
    KindsDiffer(Path),
    /// A changing call of the device failed.
    #[error("a write failed")]
    WriteFault,
}

impl From<ClusterFault> for RewindFault {
    ghost use Rattle.std.specs.Prelude.{◌≡◌};
    ghost use Rattle.rewind_survey.specs.declared.fault.RewindFault.TheVariants as fault;

    ghost from_gives = { λ cause e. e ≡ fault.Cluster cause };

    fn from(cause: ClusterFault) -> RewindFault {
        RewindFault::Cluster(cause)
    }
}

impl From<OutOfMemory> for RewindFault {
    ghost use Rattle.std.specs.Prelude.{◌≡◌};
    ghost use Rattle.clusters.specs.declared.fault.ClusterFault.TheVariants as cluster;
    ghost use Rattle.rewind_survey.specs.declared.fault.RewindFault.TheVariants as fault;

    ghost from_gives = { λ _ e. e ≡ fault.Cluster cluster.OutOfMemory };

    fn from(_: OutOfMemory) -> RewindFault {
        RewindFault::Cluster(ClusterFault::OutOfMemory)
    }
}

impl From<wal_base::OutOfMemory> for RewindFault {
    ghost use Rattle.std.specs.Prelude.{◌≡◌};
    ghost use Rattle.clusters.specs.declared.fault.ClusterFault.TheVariants as cluster;
    ghost use Rattle.rewind_survey.specs.declared.fault.RewindFault.TheVariants as fault;

    ghost from_gives = { λ _ e. e ≡ fault.Cluster cluster.OutOfMemory };

    fn from(_: wal_base::OutOfMemory) -> RewindFault {
        RewindFault::Cluster(ClusterFault::OutOfMemory)
    }
}
