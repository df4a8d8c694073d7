// What the mark of a replay tells.
ghost use Rattle.std.specs.Prelude.{◌≡◌, ◌≢◌, ◌⊎◌, ◌≤◌, IfOk, IsErrOf, IsTrue, Err, MatchResult, Ok, Some, length};
ghost use Rattle.cluster_tree.specs.Causes.{Rose};
ghost use Rattle.cluster_tree.specs.Contents.{Contents};
ghost use Rattle.cluster_tree.specs.Frame.{Reads};
ghost use Rattle.cluster_tree.specs.PathValue.{PathValue};
ghost use Rattle.clusters.specs.declared.fault.ClusterFault.TheVariants as cluster;
ghost use Rattle.replay_list.specs.Laws.{IsListOf};
ghost use Rattle.replay_list.specs.Mark.{mark_told};
ghost use Rattle.replay_list.specs.declared.mark.ReplayMark.TheVariants as mark;
ghost use Rattle.stored_replay.specs.Faults.{IsFree};
ghost use Rattle.stored_replay.specs.Stored.{IsTold, Tells, list_in, told_as, told_in, told_of};

use crate::fault::StoredReplayFault;
use crate::marks::mark_at;
use crate::shadows::check_copies;
use cluster_tree::{Path, Tree};
use clusters::ClusterFault;
use replay_list::{ListFault, Listed, ReplayMark, replay_mark, stored_list};
use std::alloc::Global;

/// What the mark of a replay tells.
#[derive(Debug, Drop)]
pub enum StoredReplay {
    /// No replay was begun, or only the laying of its mark: nothing else was changed.
    NotBegun,
    /// One was begun, before which this stood, and the copies of its files are there.
    Begun(Vec<Listed>),
    /// One had ended: what is left to do is to remove its copies and its mark.
    HadEnded,
}

// What the list in a whole mark says.
fn list_in(alloc: Global, root: &Path, bytes: &[u8]) -> Result<Vec<Listed>, StoredReplayFault>
    requires whole { 18 ≤ length bytes.now }
    ensures said { MatchResult result (λ listed. list_in root.now bytes.now ≡ Ok listed.items)
        (λ e. IsFree e ⊎ (list_in root.now bytes.now ≡ Err e)) }
    ensures listed { IfOk result (λ listed. IsListOf root.now listed.items) }
    ensures read { result ≢ Err (StoredReplayFault.Cluster cluster.ReadFault) }
    ensures changed { (p : PathValue) → result ≢ Err (StoredReplayFault.Cluster (cluster.Changed p)) }
{
    match stored_list(alloc, root, &bytes[18..]) {
        Ok(listed) => Ok(listed),
        Err(ListFault::BadLine(number)) => {
            Err(StoredReplayFault::BadPlan(root.copy(alloc)?, number))
        }
        Err(ListFault::OutOfMemory) => Err(StoredReplayFault::from(ClusterFault::OutOfMemory)),
    }
}

// What a replay was begun from, where the copies of its files are there.
fn begun_in<F: Tree>(
    alloc: Global,
    tree: &mut F,
    root: &Path,
    bytes: &[u8],
) -> Result<StoredReplay, StoredReplayFault>
    requires room { length root.now.parts ≤ 61 }
    requires complete { mark_told bytes.now ≡ mark.Complete }
    ensures tells { IsTrue F.tells → Tells (told_as (F.contents tree.old) root.now bytes.now mark.Complete) result }
    ensures made { IfOk result (IsTold root.now) }
    ensures reads { Reads F.Tree tree.old tree.new }
    ensures read_fault { IsErrOf result (StoredReplayFault.Cluster cluster.ReadFault) →
        Rose (F.failed_reads tree.old) (F.failed_reads tree.new) }
    ensures changed { (p : PathValue) → result ≢ Err (StoredReplayFault.Cluster (cluster.Changed p)) }
{
    let listed = list_in(alloc, root, bytes)?;
    check_copies(alloc, tree, root, &listed)?;
    Ok(StoredReplay::Begun(listed))
}

// That a replay had ended, where its list is one.
fn ended_in(alloc: Global, root: &Path, bytes: &[u8]) -> Result<StoredReplay, StoredReplayFault>
    requires ended { mark_told bytes.now ≡ mark.Ended }
    ensures tells { (c : Contents) → Tells (told_as c root.now bytes.now mark.Ended) result }
    ensures made { IfOk result (IsTold root.now) }
    ensures read { result ≢ Err (StoredReplayFault.Cluster cluster.ReadFault) }
    ensures changed { (p : PathValue) → result ≢ Err (StoredReplayFault.Cluster (cluster.Changed p)) }
{
    let _listed = list_in(alloc, root, bytes)?;
    Ok(StoredReplay::HadEnded)
}

// What a mark of these bytes tells.
fn told_in<F: Tree>(
    alloc: Global,
    tree: &mut F,
    root: &Path,
    bytes: &[u8],
) -> Result<StoredReplay, StoredReplayFault>
    requires room { length root.now.parts ≤ 61 }
    ensures tells { IsTrue F.tells → Tells (told_in (F.contents tree.old) root.now (Some bytes.now)) result }
    ensures made { IfOk result (IsTold root.now) }
    ensures reads { Reads F.Tree tree.old tree.new }
    ensures read_fault { IsErrOf result (StoredReplayFault.Cluster cluster.ReadFault) →
        Rose (F.failed_reads tree.old) (F.failed_reads tree.new) }
    ensures changed { (p : PathValue) → result ≢ Err (StoredReplayFault.Cluster (cluster.Changed p)) }
{
    match replay_mark(bytes) {
        ReplayMark::Version1 | ReplayMark::NotComplete => Ok(StoredReplay::NotBegun),
        ReplayMark::Complete => begun_in(alloc, tree, root, bytes),
        ReplayMark::Ended => ended_in(alloc, root, bytes),
    }
}

/// What the mark of a replay at a cluster's root tells. It changes nothing.
///
/// Refuses with the first of these: the first mark of an unfinished run that stands at the root, but for a
/// file at a replay's own mark that isn't of version 1 (`Unfinished`); of a whole mark the first line of the
/// list that isn't of its form or place (`BadPlan`); and where it isn't ended the first copy that isn't a
/// file of the size that the list tells (`ShadowDiffers`). `ReadFault`, `Changed` where the tree contradicted
/// itself, and `OutOfMemory` may come at any point.
pub fn stored_replay<F: Tree>(
    alloc: Global,
    tree: &mut F,
    root: &Path,
) -> Result<StoredReplay, StoredReplayFault>
    requires room { length root.now.parts ≤ 61 }
    // the answer is that of the first point that refuses, or what the mark tells; or a fault of the device,
    // or want of memory
    ensures exact { IsTrue F.tells → Tells (told_of (F.contents tree.old) root.now) result }
    // over every tree what stood before is a list below the root
    ensures made { IfOk result (IsTold root.now) }
    ensures reads { Reads F.Tree tree.old tree.new }
    ensures read_fault { IsErrOf result (StoredReplayFault.Cluster cluster.ReadFault) →
        Rose (F.failed_reads tree.old) (F.failed_reads tree.new) }
    ensures changed { IsTrue F.tells → (p : PathValue) →
        result ≢ Err (StoredReplayFault.Cluster (cluster.Changed p)) }
{
    match mark_at(alloc, tree, root)? {
        None => Ok(StoredReplay::NotBegun),
        Some(bytes) => told_in(alloc, tree, root, &bytes),
    }
}
