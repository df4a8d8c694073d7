// The folder of copies, made anew with the copies in it.
ghost use Rattle.std.specs.Prelude.{◌≡◌, ◌≢◌, ◌≤◌, length, true, IsTrue, OnOk, Err, IfErr, IsErrOf};
ghost use Rattle.cluster_tree.specs.Apart.{is_held};
ghost use Rattle.cluster_tree.specs.Causes.{Rose};
ghost use Rattle.cluster_tree.specs.Contents.{entry_at, is_folder};
ghost use Rattle.cluster_tree.specs.Frame.{Came};
ghost use Rattle.cluster_tree.specs.PathValue.{PathValue};
ghost use Rattle.file_edits.specs.Own.{OnOwn};
ghost use Rattle.replay_copies.specs.Copying.{CanCopy, IsEmptied};
ghost use Rattle.replay_copies.specs.Left.{IsKept};
ghost use Rattle.replay_copies.specs.Laid.{HasCopies};
ghost use Rattle.stored_replay.specs.Shadows.{shadow_folder};

use crate::copying::copy_all;
use cluster_tree::{FileFault, Path, Tree};
use file_edits::{make_way, remove_tree};
use replay_list::Listed;
use std::alloc::Global;
use stored_replay::{shadow_folder, shadow_path};

// Removes the folder of copies with all that it holds, and makes it anew.
fn make_anew<F: Tree>(alloc: Global, tree: &mut F, root: &Path) -> Result<(), FileFault>
    requires room { length root.now.parts ≤ 61 }
    ensures emptied { IsTrue F.tells → is_folder (entry_at (F.contents tree.old) root.now) ≡ true →
        OnOk result (IsEmptied root.now (F.contents tree.new)) }
    ensures refused { IsTrue F.tells → is_folder (entry_at (F.contents tree.old) root.now) ≡ true →
        IfErr result (IsKept root.now (F.contents tree.old)) }
    ensures frame { Came F.Tree tree.old tree.new }
    ensures own { IsTrue F.tells → OnOwn F.calls (is_held (shadow_folder root.now)) tree.old
        tree.new }
    ensures read_fault { IsErrOf result FileFault.ReadFault →
        Rose (F.failed_reads tree.old) (F.failed_reads tree.new) }
    ensures write_fault { IsErrOf result FileFault.WriteFault →
        Rose (F.failed_changes tree.old) (F.failed_changes tree.new) }
    ensures changed { IsTrue F.tells → (p : PathValue) → result ≢ Err (FileFault.Changed p) }
{
    let folder = shadow_folder(alloc, root)?;
    let first = shadow_path(alloc, root, 0)?;
    remove_tree(alloc, tree, &folder)?;
    make_way(alloc, tree, root, &first)
}

/// Makes the folder of copies anew, with the copies of all listed files of no main fork.
pub(crate) fn lay_copies<F: Tree>(
    alloc: Global,
    tree: &mut F,
    root: &Path,
    listed: &[Listed],
) -> Result<(), FileFault>
    requires room { length root.now.parts ≤ 61 }
    ensures copied { IsTrue F.tells → CanCopy root.now listed.now (F.contents tree.old) →
        OnOk result (HasCopies root.now listed.now (F.contents tree.old) (F.contents tree.new)) }
    ensures refused { IsTrue F.tells → CanCopy root.now listed.now (F.contents tree.old) →
        IfErr result (IsKept root.now (F.contents tree.old)) }
    ensures frame { Came F.Tree tree.old tree.new }
    ensures own { IsTrue F.tells → OnOwn F.calls (is_held (shadow_folder root.now)) tree.old
        tree.new }
    ensures read_fault { IsErrOf result FileFault.ReadFault →
        Rose (F.failed_reads tree.old) (F.failed_reads tree.new) }
    ensures write_fault { IsErrOf result FileFault.WriteFault →
        Rose (F.failed_changes tree.old) (F.failed_changes tree.new) }
{
    make_anew(alloc, tree, root)?;
    copy_all(alloc, tree, root, listed)
}
