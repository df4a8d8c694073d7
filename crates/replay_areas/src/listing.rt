// The list of a cluster.
ghost use Rattle.std.specs.Prelude.{◌≡◌, ◌≢◌, ◌≤◌, [], length, Err, IfErr, IfOk, IsErrOf, IsTrue};
ghost use Rattle.std.specs.List.{cons_option};
ghost use Rattle.cluster_tree.specs.Causes.{Meets, Rose};
ghost use Rattle.cluster_tree.specs.Frame.{Reads};
ghost use Rattle.cluster_tree.specs.PathValue.{PathValue};
ghost use Rattle.cluster_tree.specs.declared.file_fault.FileFault.TheVariants as file;
ghost use Rattle.file_walk.specs.Faults.{IsFree, IsRowOf};
ghost use Rattle.file_walk.specs.Walk.{HasParts, walk_of};
ghost use Rattle.replay_list.specs.Laws.{IsListOf};
ghost use Rattle.replay_list.specs.Text.{IsHeld};
ghost use Rattle.areas_alone.specs.Alone.{areas_of};
ghost use Rattle.replay_areas.specs.Listing.{areas_listed, label_in};

use crate::below::{listed_below, listed_by};
use crate::list::AreaList;
use areas_alone::AreasAlone;
use cluster_tree::{FileFault, Path, Tree, TreeFault};
use file_walk::{Entries, EntryKind, WalkFault, walk};
use replay_list::Listed;
use std::alloc::Global;

// What lies below the root at or below the folders that replay changes.
fn walk_areas<F: Tree>(alloc: Global, tree: &mut F, root: &Path) -> Result<Entries, WalkFault>
    requires room { length root.now.parts ≤ 63 }
    ensures exact { IsTrue F.tells → Meets IsFree
        (walk_of (areas_of (F.contents tree.old) root.now) root.now) result }
    ensures parts { IsTrue F.tells → IfOk result (λ _.
        HasParts (areas_of (F.contents tree.old) root.now) root.now) }
    ensures reads { Reads F.Tree tree.old tree.new }
    ensures read_fault { IsErrOf result (WalkFault.File file.ReadFault) →
        Rose (F.failed_reads tree.old) (F.failed_reads tree.new) }
    ensures changed { IsTrue F.tells → (p : PathValue) →
        result ≢ Err (WalkFault.File (file.Changed p)) }
    ensures row { IfErr result (IsRowOf root.now) }
{
    let mut areas = AreasAlone { tree, root };
    walk(alloc, &mut areas, root)
}

// The label, where a file stands there.
fn label_in<F: Tree>(alloc: Global, tree: &mut F, root: &Path) -> Result<Option<Listed>, WalkFault>
    requires room { length root.now.parts ≤ 63 }
    ensures value { IsTrue F.tells →
        IfOk result (λ label. label ≡ label_in (F.contents tree.old) root.now) }
    ensures held { IfOk result (λ label. IsHeld root.now (cons_option label [])) }
    ensures free { IfErr result IsFree }
    ensures reads { Reads F.Tree tree.old tree.new }
    ensures read_fault { IsErrOf result (WalkFault.File file.ReadFault) →
        Rose (F.failed_reads tree.old) (F.failed_reads tree.new) }
{
    let path = root.below(alloc, "backup_label")?;
    match tree.size(&path) {
        Ok(size) => Ok(Some(listed_by(false, path, EntryKind::File(size)))),
        Err(TreeFault::Failed) => Err(WalkFault::File(FileFault::ReadFault)),
        Err(_) => Ok(None),
    }
}

/// What stands in a cluster at or below `base`, `global`, `pg_multixact` and `pg_xact`, and its `backup_label`, where that is
/// a file, in ascending order of the texts of their paths from the root on. What else lies below the root doesn't matter. It
/// changes nothing.
///
/// Answers as `walk` of `file_walk` does, of what lies at or below these folders: `File` with `NotFolder` and the root where
/// that is no folder; and of the paths there the fault of the least: `TooDeep`, `Link`, `NameNotText` or `OddSize` with the
/// path from the root on. `File` else holds `ReadFault` where a read of the device failed, `Changed` where the tree contradicted
/// itself, and `OutOfMemory`.
pub fn list_areas<F: Tree>(alloc: Global, tree: &mut F, root: &Path) -> Result<AreaList, WalkFault>
    requires room { length root.now.parts ≤ 63 }
    ensures exact { IsTrue F.tells →
        Meets IsFree (areas_listed (F.contents tree.old) root.now) result }
    ensures listed { IsTrue F.tells → IfOk result (IsListOf root.now) }
    ensures parts { IsTrue F.tells → IfOk result (λ _.
        HasParts (areas_of (F.contents tree.old) root.now) root.now) }
    ensures reads { Reads F.Tree tree.old tree.new }
    ensures read_fault { IsErrOf result (WalkFault.File file.ReadFault) →
        Rose (F.failed_reads tree.old) (F.failed_reads tree.new) }
    ensures changed { IsTrue F.tells → (p : PathValue) →
        result ≢ Err (WalkFault.File (file.Changed p)) }
    ensures row { IfErr result (IsRowOf root.now) }
{
    let entries = walk_areas(alloc, tree, root)?;
    let label = label_in(alloc, tree, root)?;
    Ok(AreaList::of(listed_below(alloc, root, label, &entries)?))
}
