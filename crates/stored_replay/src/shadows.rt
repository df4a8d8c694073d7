// The copies of files that a replay keeps until it has ended.
ghost use Rattle.std.specs.Prelude.{◌≡◌, ◌≢◌, ◌+◌, ◌<◌, ◌≤◌, ◌^◌, IfErr, IfOk, IsErrOf, IsTrue, Err, length, option_map};
ghost use Rattle.cluster_tree.specs.Causes.{Passes, Rose};
ghost use Rattle.cluster_tree.specs.Contents.{entry_at};
ghost use Rattle.cluster_tree.specs.Frame.{Reads};
ghost use Rattle.cluster_tree.specs.PathValue.{PathValue};
ghost use Rattle.clusters.specs.declared.fault.ClusterFault.TheVariants as cluster;
ghost use Rattle.replay_list.specs.Lines.{files_behind};
ghost use Rattle.stored_replay.specs.Faults.{IsFree};
ghost use Rattle.stored_replay.specs.Shadows.{first_lost, is_sized, lost_copy, lost_of, shadow_at, shadow_folder};

use crate::fault::StoredReplayFault;
use cluster_tree::{OutOfMemory, Path, Tree, TreeFault};
use clusters::ClusterFault;
use replay_list::Listed;
use std::alloc::Global;

/// The folder at a root in which a replay keeps copies of files: `pg_walreplay.shadow`. Answers
/// `OutOfMemory` only for want of memory.
pub fn shadow_folder(alloc: Global, root: &Path) -> Result<Path, OutOfMemory>
    requires room { length root.now.parts ≤ 61 }
    ensures value { IfOk result (λ path. path ≡ shadow_folder root.now) }
{
    root.below(alloc, "pg_walreplay.shadow")
}

/// The copy of a number, in that folder: of the listed file of no main fork before which so many such
/// files are listed. Answers `OutOfMemory` only for want of memory.
pub fn shadow_path(alloc: Global, root: &Path, number: u64) -> Result<Path, OutOfMemory>
    requires room { length root.now.parts ≤ 61 }
    ensures value { IfOk result (λ path. path ≡ shadow_at root.now number) }
{
    let folder = shadow_folder(alloc, root)?;
    let name = format!(in alloc; "{number}")?;
    let path = folder.below(alloc, &name)?;
    Ok(path)
}

// Whether a file of so many bytes stands at a path.
fn is_sized<F: Tree>(tree: &mut F, path: &Path, size: u64) -> Result<bool, ClusterFault>
    ensures value { IsTrue F.tells → IfOk result (λ is. is
        ≡ is_sized size (entry_at (F.contents tree.old) path.now)) }
    ensures only { IfErr result (λ e. e ≡ ClusterFault.ReadFault) }
    ensures reads { Reads F.Tree tree.old tree.new }
    ensures read_fault { IsErrOf result ClusterFault.ReadFault →
        Rose (F.failed_reads tree.old) (F.failed_reads tree.new) }
{
    match tree.size(path) {
        Ok(found) => Ok(found == size),
        Err(TreeFault::Failed) => Err(ClusterFault::ReadFault),
        Err(_) => Ok(false),
    }
}

// Refuses the copy of a number, unless it is a file of so many bytes.
fn check_copy<F: Tree>(
    alloc: Global,
    tree: &mut F,
    root: &Path,
    number: u64,
    size: u64,
) -> Result<(), StoredReplayFault>
    requires room { length root.now.parts ≤ 61 }
    ensures answer { IsTrue F.tells → Passes IsFree (option_map StoredReplayFault.ShadowDiffers
        (lost_copy (F.contents tree.old) (shadow_at root.now number) size)) result }
    ensures reads { Reads F.Tree tree.old tree.new }
    ensures read_fault { IsErrOf result (StoredReplayFault.Cluster cluster.ReadFault) →
        Rose (F.failed_reads tree.old) (F.failed_reads tree.new) }
    ensures changed { (p : PathValue) → result ≢ Err (StoredReplayFault.Cluster (cluster.Changed p)) }
{
    let path = shadow_path(alloc, root, number)?;
    if is_sized(tree, &path, size)? {
        Ok(())
    } else {
        Err(StoredReplayFault::ShadowDiffers(path))
    }
}

// Refuses the copy of what is listed, where it isn't as the list tells.
fn check_listed<F: Tree>(
    alloc: Global,
    tree: &mut F,
    root: &Path,
    files: u64,
    listed: &Listed,
) -> Result<(), StoredReplayFault>
    requires room { length root.now.parts ≤ 61 }
    ensures answer { IsTrue F.tells → Passes IsFree (option_map StoredReplayFault.ShadowDiffers
        (lost_of (F.contents tree.old) root.now files listed.now)) result }
    ensures reads { Reads F.Tree tree.old tree.new }
    ensures read_fault { IsErrOf result (StoredReplayFault.Cluster cluster.ReadFault) →
        Rose (F.failed_reads tree.old) (F.failed_reads tree.new) }
    ensures changed { (p : PathValue) → result ≢ Err (StoredReplayFault.Cluster (cluster.Changed p)) }
{
    match listed {
        Listed::Folder(_) | Listed::Page(..) => Ok(()),
        Listed::File(_, size) => check_copy(alloc, tree, root, files, *size),
    }
}

// How many files of no main fork are listed behind this one.
fn files_behind(files: u64, listed: &Listed) -> u64
    requires room { files + 1 < 2 ^ 64 }
    ensures value { result ≡ files_behind files listed.now }
{
    match listed {
        Listed::Folder(_) | Listed::Page(..) => files,
        Listed::File(..) => files + 1,
    }
}

/// Refuses the first copy of a list that isn't a file of its size.
pub(crate) fn check_copies<F: Tree>(
    alloc: Global,
    tree: &mut F,
    root: &Path,
    listed: &[Listed],
) -> Result<(), StoredReplayFault>
    requires room { length root.now.parts ≤ 61 }
    ensures answer { IsTrue F.tells → Passes IsFree (option_map StoredReplayFault.ShadowDiffers
        (first_lost (F.contents tree.old) root.now 0 listed.now)) result }
    ensures reads { Reads F.Tree tree.old tree.new }
    ensures read_fault { IsErrOf result (StoredReplayFault.Cluster cluster.ReadFault) →
        Rose (F.failed_reads tree.old) (F.failed_reads tree.new) }
    ensures changed { (p : PathValue) → result ≢ Err (StoredReplayFault.Cluster (cluster.Changed p)) }
{
    let mut files = 0;
    for one in listed {
        check_listed(alloc, tree, root, files, one)?;
        files = files_behind(files, one);
    }
    Ok(())
}
