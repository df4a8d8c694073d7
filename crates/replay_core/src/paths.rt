// The paths that a replay needs, made before its first change.
ghost use Rattle.std.specs.Prelude.{◌≡◌, ◌≤◌, length, IfErr, IfOk};
ghost use Rattle.replay_core.specs.Replayed.{control_path};
ghost use Rattle.replay_core.specs.Stages.{ArePaths};
ghost use Rattle.clusters.specs.declared.fault.ClusterFault.TheVariants as cluster;

use cluster_tree::Path;
use clusters::{ClusterFault, path_in};
use replay_start::ReplayFault;
use std::alloc::Global;

/// The paths that a replay needs of its own.
#[derive(Drop)]
pub(crate) struct Paths {
    pub(crate) mark: Path,
    pub(crate) control: Path,
    pub(crate) label: Path,
    pub(crate) log: Path,
}

impl Paths {
    /// Those below a root. Answers `OutOfMemory` only for want of memory.
    pub(crate) fn of(alloc: Global, root: &Path) -> Result<Paths, ReplayFault>
        requires { length root.now.parts ≤ 61 }
        ensures paths { IfOk result (ArePaths root.now) }
        ensures memory { IfErr result (λ e. e ≡ ReplayFault.Cluster cluster.OutOfMemory) }
    {
        Ok(Paths {
            mark: root.below(alloc, "pg_walreplay.unfinished")?,
            control: control_path(alloc, root)?,
            label: root.below(alloc, "backup_label")?,
            log: root.below(alloc, "pg_wal")?,
        })
    }
}

// The path of the control file.
#[tactic(auto, using(clusters::proofs::RoomLemmas::room_steps))]
fn control_path(alloc: Global, root: &Path) -> Result<Path, ReplayFault>
    requires { length root.now.parts ≤ 61 }
    ensures is { IfOk result (λ path. path ≡ control_path root.now) }
    ensures memory { IfErr result (λ e. e ≡ ReplayFault.Cluster cluster.OutOfMemory) }
{
    match path_in(alloc, root, "global/pg_control") {
        Ok(path) => Ok(path),
        Err(_) => Err(ReplayFault::Cluster(ClusterFault::OutOfMemory)),
    }
}
