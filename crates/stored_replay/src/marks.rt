// The marks at the root of a cluster.
ghost use Rattle.std.specs.Prelude.{◌≡◌, ◌≢◌, ◌<◌, ◌≤◌, IsErrOf, IsTrue, Err, cond, length, option_map};
ghost use Rattle.cluster_tree.specs.Causes.{Passes, Rose};
ghost use Rattle.cluster_tree.specs.Frame.{Reads};
ghost use Rattle.cluster_tree.specs.PathValue.{PathValue};
ghost use Rattle.clusters.specs.Faults.{IsFree};
ghost use Rattle.clusters.specs.Marks.{unfinished};
ghost use Rattle.stored_replay.specs.Marks.{Finds, is_old_file, mark_at};
ghost use Rattle.without_file.specs.Without.{without_file};

use cluster_tree::{Path, Tree};
use clusters::{ClusterFault, check_marks, path_in, read_all};
use replay_list::{ReplayMark, replay_mark};
use std::alloc::Global;
use without_file::WithoutFile;

// Whether the bytes of a file, if there is one, are a mark that can't be taken up.
fn is_old(bytes: &Option<Vec<u8>>) -> bool
    ensures { result ≡ is_old_file (option_map (λ b. b.items) bytes.now) }
{
    match bytes {
        None => false,
        Some(bytes) => replay_mark(bytes) == ReplayMark::Version1,
    }
}

// Refuses the first mark at a root, but for a file at this path.
fn check_others<F: Tree>(
    alloc: Global,
    tree: &mut F,
    root: &Path,
    mark: &Path,
) -> Result<(), ClusterFault>
    requires deep { 0 < length mark.now.parts }
    requires room { length root.now.parts ≤ 61 }
    ensures answer { IsTrue F.tells → Passes IsFree
        (unfinished (without_file (F.contents tree.old) mark.now) root.now) result }
    ensures reads { Reads F.Tree tree.old tree.new }
    ensures read_fault { IsErrOf result ClusterFault.ReadFault →
        Rose (F.failed_reads tree.old) (F.failed_reads tree.new) }
    ensures changed { IsTrue F.tells → (p : PathValue) → result ≢ Err (ClusterFault.Changed p) }
{
    let mut seen = WithoutFile { tree, file: mark };
    check_marks(alloc, &mut seen, root)
}

// Refuses the first mark at a root: a file that is a replay's own is none, unless it is of version 1.
fn check_seen<F: Tree>(
    alloc: Global,
    tree: &mut F,
    root: &Path,
    mark: &Path,
    is_old: bool,
) -> Result<(), ClusterFault>
    requires deep { 0 < length mark.now.parts }
    requires room { length root.now.parts ≤ 61 }
    ensures answer { IsTrue F.tells → Passes IsFree (unfinished
        (cond is_old (F.contents tree.old) (without_file (F.contents tree.old) mark.now)) root.now) result }
    ensures reads { Reads F.Tree tree.old tree.new }
    ensures read_fault { IsErrOf result ClusterFault.ReadFault →
        Rose (F.failed_reads tree.old) (F.failed_reads tree.new) }
    ensures changed { IsTrue F.tells → (p : PathValue) → result ≢ Err (ClusterFault.Changed p) }
{
    if is_old {
        check_marks(alloc, tree, root)
    } else {
        check_others(alloc, tree, root, mark)
    }
}

/// The bytes of the file at the mark of a replay, if there is one. Refuses the first mark at the root that
/// isn't to be taken up.
pub(crate) fn mark_at<F: Tree>(
    alloc: Global,
    tree: &mut F,
    root: &Path,
) -> Result<Option<Vec<u8>>, ClusterFault>
    requires { length root.now.parts ≤ 61 }
    ensures found { IsTrue F.tells → Finds (mark_at (F.contents tree.old) root.now) result }
    ensures reads { Reads F.Tree tree.old tree.new }
    ensures read_fault { IsErrOf result ClusterFault.ReadFault →
        Rose (F.failed_reads tree.old) (F.failed_reads tree.new) }
    ensures changed { IsTrue F.tells → (p : PathValue) → result ≢ Err (ClusterFault.Changed p) }
{
    let mark = path_in(alloc, root, "pg_walreplay.unfinished")?;
    let bytes = read_all(alloc, tree, mark.copy(alloc)?)?;
    check_seen(alloc, tree, root, &mark, is_old(&bytes))?;
    Ok(bytes)
}
