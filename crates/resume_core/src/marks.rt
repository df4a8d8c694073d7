// The marks at a target's root.
ghost use Rattle.std.specs.Prelude.{◌≡◌, ◌≢◌, ◌≤◌, IfOk, IfSome, IsErrOf, IsTrue, Err, length};
ghost use Rattle.cluster_tree.specs.Causes.{Passes, Rose};
ghost use Rattle.cluster_tree.specs.Contents.{entry_at, is_file};
ghost use Rattle.cluster_tree.specs.Frame.{Reads};
ghost use Rattle.cluster_tree.specs.Marks.{marks_of};
ghost use Rattle.cluster_tree.specs.PathValue.{PathValue};
ghost use Rattle.clusters.specs.Faults.{IsFree};
ghost use Rattle.plan_text.specs.Mark.{mark_told};
ghost use Rattle.plan_text.specs.declared.mark.MarkText.TheVariants as told;
ghost use Rattle.resume_core.specs.Marks.{Finds, mark_at, other_mark, other_marks, own_mark};

use cluster_tree::{Kind, Path, Tree, TreeFault};
use clusters::{ClusterFault, path_in, read_all};
use plan_text::{MarkText, mark_text};
use std::alloc::Global;

// The bytes of a file that stands at a rewind's mark, where they are a complete one.
fn file_mark<F: Tree>(
    alloc: Global,
    tree: &mut F,
    mark: &Path,
) -> Result<Option<Vec<u8>>, ClusterFault>
    requires file { IsTrue F.tells → IsTrue (is_file (entry_at (F.contents tree.old) mark.now)) }
    ensures found { IsTrue F.tells →
        Finds (own_mark mark.now (entry_at (F.contents tree.old) mark.now)) result }
    ensures complete { IfOk result (λ found. IfSome found (λ bytes. mark_told bytes.items ≡ told.Complete)) }
    ensures reads { Reads F.Tree tree.old tree.new }
    ensures read_fault { IsErrOf result ClusterFault.ReadFault →
        Rose (F.failed_reads tree.old) (F.failed_reads tree.new) }
    ensures changed { IsTrue F.tells → (p : PathValue) → result ≢ Err (ClusterFault.Changed p) }
{
    match read_all(alloc, tree, mark.copy(alloc)?)? {
        None => Err(ClusterFault::Changed(mark.copy(alloc)?)),
        Some(bytes) => match mark_text(&bytes) {
            MarkText::Version1 => Err(ClusterFault::Unfinished(mark.copy(alloc)?)),
            MarkText::NotComplete => Ok(None),
            MarkText::Complete => Ok(Some(bytes)),
        },
    }
}

// The bytes of the complete mark that stands there, if there is one.
fn own_mark<F: Tree>(
    alloc: Global,
    tree: &mut F,
    mark: &Path,
) -> Result<Option<Vec<u8>>, ClusterFault>
    ensures found { IsTrue F.tells →
        Finds (own_mark mark.now (entry_at (F.contents tree.old) mark.now)) result }
    ensures complete { IfOk result (λ found. IfSome found (λ bytes. mark_told bytes.items ≡ told.Complete)) }
    ensures reads { Reads F.Tree tree.old tree.new }
    ensures read_fault { IsErrOf result ClusterFault.ReadFault →
        Rose (F.failed_reads tree.old) (F.failed_reads tree.new) }
    ensures changed { IsTrue F.tells → (p : PathValue) → result ≢ Err (ClusterFault.Changed p) }
{
    match tree.kind(mark) {
        Ok(Kind::Absent) => Ok(None),
        Ok(Kind::File) => file_mark(alloc, tree, mark),
        Ok(Kind::Folder) | Err(TreeFault::Link) => Err(ClusterFault::Unfinished(mark.copy(alloc)?)),
        Err(_) => Err(ClusterFault::ReadFault),
    }
}

// Refuses the mark of another command.
fn check_other<F: Tree>(alloc: Global, tree: &mut F, mark: &Path) -> Result<(), ClusterFault>
    ensures answer { IsTrue F.tells →
        Passes IsFree (other_mark (F.contents tree.old) mark.now) result }
    ensures reads { Reads F.Tree tree.old tree.new }
    ensures read_fault { IsErrOf result ClusterFault.ReadFault →
        Rose (F.failed_reads tree.old) (F.failed_reads tree.new) }
    ensures changed { (p : PathValue) → result ≢ Err (ClusterFault.Changed p) }
{
    match tree.kind(mark) {
        Ok(Kind::Absent) => Ok(()),
        Ok(Kind::File | Kind::Folder) | Err(TreeFault::Link) => {
            Err(ClusterFault::Unfinished(mark.copy(alloc)?))
        }
        Err(_) => Err(ClusterFault::ReadFault),
    }
}

// Refuses a root at which another command's mark stands, with the first of them.
fn check_others<F: Tree>(alloc: Global, tree: &mut F, root: &Path) -> Result<(), ClusterFault>
    requires { length root.now.parts ≤ 61 }
    ensures answer { IsTrue F.tells →
        Passes IsFree (other_marks (F.contents tree.old) (marks_of root.now)) result }
    ensures reads { Reads F.Tree tree.old tree.new }
    ensures read_fault { IsErrOf result ClusterFault.ReadFault →
        Rose (F.failed_reads tree.old) (F.failed_reads tree.new) }
    ensures changed { (p : PathValue) → result ≢ Err (ClusterFault.Changed p) }
{
    let replay = path_in(alloc, root, "pg_walreplay.unfinished")?;
    check_other(alloc, tree, &replay)?;
    let reset = path_in(alloc, root, "pg_resetwal.unfinished")?;
    check_other(alloc, tree, &reset)
}

/// The bytes of the complete mark of a rewind at a target's root, if there is one. Refuses the first
/// mark that isn't to be taken up: a rewind's of version 1 or no file, and each of another command.
pub(crate) fn mark_at<F: Tree>(
    alloc: Global,
    tree: &mut F,
    root: &Path,
) -> Result<Option<Vec<u8>>, ClusterFault>
    requires { length root.now.parts ≤ 61 }
    ensures found { IsTrue F.tells → Finds (mark_at (F.contents tree.old) root.now) result }
    ensures complete { IfOk result (λ found. IfSome found (λ bytes. mark_told bytes.items ≡ told.Complete)) }
    ensures reads { Reads F.Tree tree.old tree.new }
    ensures read_fault { IsErrOf result ClusterFault.ReadFault →
        Rose (F.failed_reads tree.old) (F.failed_reads tree.new) }
    ensures changed { IsTrue F.tells → (p : PathValue) → result ≢ Err (ClusterFault.Changed p) }
{
    let mark = path_in(alloc, root, "pg_rewind.unfinished")?;
    let bytes = own_mark(alloc, tree, &mark)?;
    check_others(alloc, tree, root)?;
    Ok(bytes)
}
