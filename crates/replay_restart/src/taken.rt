// What the mark tells, where it is taken up.
ghost use Rattle.std.specs.Prelude.{◌≡◌, ◌≢◌, ◌≤◌, ◌⊎◌, length, Err, IfOk, IsErrOf, IsTrue, MatchResult, None, Ok};
ghost use Rattle.cluster_tree.specs.Causes.{Rose};
ghost use Rattle.cluster_tree.specs.Frame.{Reads};
ghost use Rattle.cluster_tree.specs.PathValue.{PathValue};
ghost use Rattle.cluster_tree.specs.declared.file_fault.FileFault.TheVariants as file;
ghost use Rattle.clusters.specs.declared.fault.ClusterFault.TheVariants as cluster;
ghost use Rattle.file_walk.specs.declared.fault.WalkFault.TheVariants as walk;
ghost use Rattle.replay_restart.specs.Faults.{IsFree};
ghost use Rattle.replay_restart.specs.Meant.{CanGoOn, or_loose, taken_of};
ghost use Rattle.replay_restore.specs.Loose.{loose_line};
ghost use Rattle.replay_start.specs.declared.fault.ReplayFault.TheVariants as replay;
ghost use Rattle.stored_replay.specs.Stored.{told};

use crate::fault::RestartFault;
use cluster_tree::{Path, Tree};
use replay_list::Listed;
use replay_restore::loose_line;
use std::alloc::Global;
use stored_replay::{StoredReplay, stored_replay};

// What was begun, where each line of its list is at its place.
fn at_place(alloc: Global, root: &Path, listed: Vec<Listed>) -> Result<StoredReplay, RestartFault>
    requires room { length root.now.parts ≤ 61 }
    ensures value { MatchResult result
        (λ t. (t ≡ StoredReplay.Begun listed) × (loose_line root.now listed.items ≡ None))
        (λ e. IsFree e ⊎ (or_loose root.now listed.items (loose_line root.now listed.items) ≡ Err e)) }
    ensures never { (result ≢ Err (RestartFault.Replay (replay.Cluster cluster.ReadFault)))
        × (result ≢ Err (RestartFault.Walk (walk.File file.ReadFault)))
        × (result ≢ Err (RestartFault.Replay replay.WriteFault)) }
    // a walk only reads
    ensures walk_reads { result ≢ Err (RestartFault.Walk (walk.File file.WriteFault)) }
    ensures changed { (p : PathValue) →
        (result ≢ Err (RestartFault.Replay (replay.Cluster (cluster.Changed p))))
        × (result ≢ Err (RestartFault.Walk (walk.File (file.Changed p)))) }
{
    match loose_line(alloc, root, &listed)? {
        None => Ok(StoredReplay::Begun(listed)),
        Some(number) => Err(RestartFault::BadPlan(root.copy(alloc)?, number)),
    }
}

/// What the mark at a root tells, or the first point for which it isn't taken up.
pub(crate) fn taken<F: Tree>(
    alloc: Global,
    tree: &mut F,
    root: &Path,
) -> Result<StoredReplay, RestartFault>
    requires room { length root.now.parts ≤ 61 }
    ensures exact { IsTrue F.tells → MatchResult result
        (λ t. taken_of (F.contents tree.old) root.now ≡ Ok (told t))
        (λ e. IsFree e ⊎ (taken_of (F.contents tree.old) root.now ≡ Err e)) }
    ensures on { IsTrue F.tells → IfOk result (CanGoOn root.now (F.contents tree.old)) }
    ensures reads { Reads F.Tree tree.old tree.new }
    ensures read_fault { IsErrOf result (RestartFault.Replay (replay.Cluster cluster.ReadFault)) →
        Rose (F.failed_reads tree.old) (F.failed_reads tree.new) }
    ensures never { (result ≢ Err (RestartFault.Walk (walk.File file.ReadFault)))
        × (result ≢ Err (RestartFault.Replay replay.WriteFault)) }
    // a walk only reads
    ensures walk_reads { result ≢ Err (RestartFault.Walk (walk.File file.WriteFault)) }
    ensures changed { IsTrue F.tells → (p : PathValue) →
        (result ≢ Err (RestartFault.Replay (replay.Cluster (cluster.Changed p))))
        × (result ≢ Err (RestartFault.Walk (walk.File (file.Changed p)))) }
{
    match stored_replay(alloc, tree, root)? {
        StoredReplay::NotBegun => Ok(StoredReplay::NotBegun),
        StoredReplay::Begun(listed) => at_place(alloc, root, listed),
        StoredReplay::HadEnded => Ok(StoredReplay::HadEnded),
    }
}
