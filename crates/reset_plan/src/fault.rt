// Why a log wasn't reset.
use cluster_tree::{OutOfMemory, Path};
use clusters::ClusterFault;
use thiserror::Error;

/// Why a log wasn't reset, in the order in which it is looked for. Each path begins with the root.
#[derive(Debug, Drop, Error)]
pub enum ResetFault {
    /// The mark of an unfinished run stands at the root, or its control file is refused; and at any
    /// point a failed read, a contradiction of the tree, or want of memory before the first change.
    #[error("{0}")]
    Cluster(ClusterFault),
    /// `pg_wal`, or `archive_status` in it, is there and is no folder, or `pg_wal` isn't there.
    #[error("{0} is not a folder")]
    NotFolder(Path),
    /// `pg_wal`, where no new segment can be: the one that is given has no such number, or it would
    /// reach the position 2^63.
    #[error("no new segment can be in {0}")]
    BadSegment(Path),
    /// The root of a cluster that was not shut down, and its state.
    #[error("{0} was not shut down cleanly: its state is {1}")]
    NotClean(Path, u32),
    /// A link or a special file stands at this path.
    #[error("{0} is a link or a special file")]
    Link(Path),
    /// A folder stands at this path, where a file is to be removed.
    #[error("{0} is a folder")]
    KindsDiffer(Path),
    /// The folder at this path holds a name that isn't UTF-8.
    #[error("{0} holds a name that is not UTF-8")]
    NameNotText(Path),
    /// A changing call of the device failed.
    #[error("a write failed")]
    WriteFault,
}

impl From<OutOfMemory> for ResetFault {
    ghost use Rattle.std.specs.Prelude.{◌≡◌};
    ghost use Rattle.clusters.specs.declared.fault.ClusterFault.TheVariants as cluster;
    ghost use Rattle.reset_plan.specs.declared.fault.ResetFault.TheVariants as fault;

    ghost from_gives = { λ _ e. e ≡ fault.Cluster cluster.OutOfMemory };

    fn from(_: OutOfMemory) -> ResetFault {
        ResetFault::Cluster(ClusterFault::OutOfMemory)
    }
}

impl From<wal_base::OutOfMemory> for ResetFault {
    ghost use Rattle.std.specs.Prelude.{◌≡◌};
    ghost use Rattle.clusters.specs.declared.fault.ClusterFault.TheVariants as cluster;
    ghost use Rattle.reset_plan.specs.declared.fault.ResetFault.TheVariants as fault;

    ghost from_gives = { λ _ e. e ≡ fault.Cluster cluster.OutOfMemory };

    fn from(_: wal_base::OutOfMemory) -> ResetFault {
        ResetFault::Cluster(ClusterFault::OutOfMemory)
    }
}
