// The folders on the way from a root to a path below it.
ghost use Rattle.std.specs.Prelude.{◌≡◌, ◌≢◌, ◌-◌, ◌<◌, ◌≤◌, length, true, IsTrue, Err, IsErrOf};
ghost use Rattle.cluster_tree.specs.PathValue.{PathValue, Holds, front};
ghost use Rattle.cluster_tree.specs.PathOrder.{path_eq};
ghost use Rattle.cluster_tree.specs.Contents.{entry_at, is_folder};
ghost use Rattle.cluster_tree.specs.Causes.{Passes, Rose};
ghost use Rattle.cluster_tree.specs.Frame.{Reads, Came};
ghost use Rattle.file_edits.specs.Answers.{IsFree, Does};
ghost use Rattle.file_edits.specs.Asking.{root_refusal};
ghost use Rattle.file_edits.specs.Edits.{folder_made, way_made, on_way};
ghost use Rattle.file_edits.specs.Own.{OnOwn};
ghost use Rattle.file_edits.specs.Sparing.{Piece, Spares};

use crate::asking::is_folder;
use crate::calls::make_folder;
use cluster_tree::{FileFault, Path, Tree};
use std::alloc::Global;

// Refuses a root where no folder stands.
#[tactic(auto, using(crate::proofs::WayLemmas::root_steps))]
fn check_root<F: Tree>(alloc: Global, tree: &mut F, root: &Path) -> Result<(), FileFault>
    ensures exact { IsTrue F.tells → Passes IsFree
        (root_refusal root.now (entry_at (F.contents tree.old) root.now)) result }
    ensures frame { Reads F.Tree tree.old tree.new }
    ensures read_fault { IsErrOf result FileFault.ReadFault →
        Rose (F.failed_reads tree.old) (F.failed_reads tree.new) }
    ensures write_fault { result ≢ Err FileFault.WriteFault }
    ensures changed { (p : PathValue) → result ≢ Err (FileFault.Changed p) }
{
    if is_folder(alloc, tree, root)? {
        return Ok(());
    }
    Err(FileFault::NotFolder(root.copy(alloc)?))
}

// Makes the folder of a path's first parts, where nothing stands.
#[tactic(auto, using(crate::proofs::WayLemmas::front_steps))]
fn make_front<F: Tree>(
    alloc: Global,
    tree: &mut F,
    path: &Path,
    parts: usize,
) -> Result<(), FileFault>
    requires some { 0 < parts }
    requires within { parts ≤ length path.now.parts }
    ensures exact { IsTrue F.tells →
        is_folder (entry_at (F.contents tree.old) (front (parts - 1) path.now)) ≡ true →
        Does (folder_made (front parts path.now) (F.contents tree.old)) (F.contents tree.new) result }
    ensures frame { Came F.Tree tree.old tree.new }
    ensures own { IsTrue F.tells →
        OnOwn F.calls (λ q. path_eq q (front parts path.now)) tree.old tree.new }
    ensures spares { IsTrue F.tells → (piece : Piece) → Spares F.Tree piece tree.old tree.new }
    ensures read_fault { IsErrOf result FileFault.ReadFault →
        Rose (F.failed_reads tree.old) (F.failed_reads tree.new) }
    ensures write_fault { IsErrOf result FileFault.WriteFault →
        Rose (F.failed_changes tree.old) (F.failed_changes tree.new) }
{
    let folder = path.front(alloc, parts)?;
    if is_folder(alloc, tree, &folder)? {
        return Ok(());
    }
    make_folder(alloc, tree, &folder)
}

/// Makes the folders between a root and a path below it, each where nothing stands. Answers
/// `NotFolder` or `Link` with the first of them, the root before them, that is something else; a
/// root that isn't there is `NotFolder` too.
pub fn make_way<F: Tree>(
    alloc: Global,
    tree: &mut F,
    root: &Path,
    path: &Path,
) -> Result<(), FileFault>
    requires held { Holds root.now path.now }
    ensures exact { IsTrue F.tells →
        Does (way_made root.now path.now (F.contents tree.old)) (F.contents tree.new) result }
    ensures frame { Came F.Tree tree.old tree.new }
    ensures own { IsTrue F.tells → OnOwn F.calls (on_way root.now path.now) tree.old tree.new }
    ensures spares { IsTrue F.tells → (piece : Piece) → Spares F.Tree piece tree.old tree.new }
    ensures read_fault { IsErrOf result FileFault.ReadFault →
        Rose (F.failed_reads tree.old) (F.failed_reads tree.new) }
    ensures write_fault { IsErrOf result FileFault.WriteFault →
        Rose (F.failed_changes tree.old) (F.failed_changes tree.new) }
    ensures changed { IsTrue F.tells → (p : PathValue) → result ≢ Err (FileFault.Changed p) }
{
    check_root(alloc, tree, root)?;
    for parts in root.len() + 1..path.len() {
        make_front(alloc, tree, path, parts)?;
    }
    Ok(())
}
