// Why what a mark tells isn't taken up.
use cluster_tree::{OutOfMemory, Path};
use clusters::ClusterFault;
use thiserror::Error;

/// Why a replay isn't begun, nor begun again, for what its mark tells.
#[derive(Debug, Drop, Error)]
pub enum StoredReplayFault {
    /// A mark of an unfinished run that isn't to be taken up; or a read failed, the tree contradicted
    /// itself, or memory was wanting.
    #[error("{0}")]
    Cluster(ClusterFault),
    /// The root, and the number, from 1, of the first line of the list in its mark that isn't of its
    /// form or at its place, or of the line behind the last where the list doesn't end.
    #[error("line {1} of the list in the mark of {0} is at fault")]
    BadPlan(Path, u64),
    /// The copy of a file, which isn't there with the size that the list tells.
    #[error("{0} is not the copy that the mark tells of")]
    ShadowDiffers(Path),
}

impl From<ClusterFault> for StoredReplayFault {
    ghost use Rattle.std.specs.Prelude.{◌≡◌};
    ghost use Rattle.stored_replay.specs.declared.fault.StoredReplayFault.TheVariants as fault;

    ghost from_gives = { λ cause e. e ≡ fault.Cluster cause };

    fn from(cause: ClusterFault) -> StoredReplayFault {
        StoredReplayFault::Cluster(cause)
    }
}

impl From<OutOfMemory> for StoredReplayFault {
    ghost use Rattle.std.specs.Prelude.{◌≡◌};
    ghost use Rattle.clusters.specs.declared.fault.ClusterFault.TheVariants as cluster;
    ghost use Rattle.stored_replay.specs.declared.fault.StoredReplayFault.TheVariants as fault;

    ghost from_gives = { λ _ e. e ≡ fault.Cluster cluster.OutOfMemory };

    fn from(_: OutOfMemory) -> StoredReplayFault {
        StoredReplayFault::Cluster(ClusterFault::OutOfMemory)
    }
}
