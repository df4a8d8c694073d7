// Folders that are removed with all that they hold.
ghost use Rattle.std.specs.Prelude.{◌≡◌, ◌≢◌, ◌⊎◌, ◌+◌, ◌<◌, ◌∷◌, [], length, true, IsTrue, IfOk, IfErr, Err, IsErrOf};
ghost use Rattle.std.specs.List.{list_all};
ghost use Rattle.cluster_tree.specs.Apart.{is_held};
ghost use Rattle.cluster_tree.specs.PathValue.{PathValue, below, is_part};
ghost use Rattle.cluster_tree.specs.Contents.{entry_at, is_folder};
ghost use Rattle.cluster_tree.specs.Causes.{Meets, Rose};
ghost use Rattle.cluster_tree.specs.Frame.{Reads, Came};
ghost use Rattle.file_edits.specs.Answers.{IsFree, Does};
ghost use Rattle.file_edits.specs.Clearing.{entry_cleared, folder_cleared, full_asked, in_turn, tree_removed};
ghost use Rattle.file_edits.specs.Own.{OnOwn};

use crate::asking::{is_folder, name_at, names_of};
use crate::calls::remove;
use crate::removing::remove_file;
use cluster_tree::{FileFault, Kind, Names, Path, Tree, TreeFault};
use std::alloc::Global;

// How many parts a path has at most.
const PARTS: usize = 64;

// Whether an entry that is to go is a folder.
#[tactic(auto, using(crate::proofs::ClearLemmas::full_steps))]
fn is_full<F: Tree>(alloc: Global, tree: &mut F, path: &Path) -> Result<bool, FileFault>
    ensures exact { IsTrue F.tells → Meets IsFree
        (full_asked path.now (entry_at (F.contents tree.old) path.now)) result }
    ensures frame { Reads F.Tree tree.old tree.new }
    ensures read_fault { IsErrOf result FileFault.ReadFault →
        Rose (F.failed_reads tree.old) (F.failed_reads tree.new) }
    ensures write_fault { result ≢ Err FileFault.WriteFault }
    ensures changed { (p : PathValue) → result ≢ Err (FileFault.Changed p) }
{
    match tree.kind(path) {
        Ok(Kind::Absent | Kind::File) => Ok(false),
        Ok(Kind::Folder) => Ok(true),
        Err(TreeFault::Link) => Err(FileFault::Link(path.copy(alloc)?)),
        Err(_) => Err(FileFault::ReadFault),
    }
}

// The path of a name in a folder.
fn entry_path(alloc: Global, folder: &Path, name: &str) -> Result<Path, FileFault>
    requires part { is_part name.now ≡ true }
    ensures value { IfOk result (λ path. path ≡ below folder.now (name.now ∷ [])) }
    ensures room { IfOk result (λ path. length folder.now.parts < 64) }
    ensures refused { IfErr result (λ e. (e ≡ FileFault.OutOfMemory)
        ⊎ ((length folder.now.parts ≡ 64) × (e ≡ FileFault.TooDeep folder.now))) }
{
    if folder.len() == PARTS {
        return Err(FileFault::TooDeep(folder.copy(alloc)?));
    }
    let path = folder.below(alloc, name)?;
    Ok(path)
}

// Removes an entry of a folder with all that it holds. Paths below the folder may have `deeper` parts
// more than it.
#[cycle(clearing)]
fn clear_entry<F: Tree>(
    alloc: Global,
    tree: &mut F,
    folder: &Path,
    deeper: usize,
    name: &str,
) -> Result<(), FileFault>
    requires part { is_part name.now ≡ true }
    requires depth { length folder.now.parts + deeper ≡ 64 }
    ensures exact { IsTrue F.tells → Does (entry_cleared deeper folder.now name.now
        (F.contents tree.old)) (F.contents tree.new) result }
    ensures frame { Came F.Tree tree.old tree.new }
    ensures own { IsTrue F.tells → OnOwn F.calls (is_held folder.now) tree.old tree.new }
    ensures read_fault { IsErrOf result FileFault.ReadFault →
        Rose (F.failed_reads tree.old) (F.failed_reads tree.new) }
    ensures write_fault { IsErrOf result FileFault.WriteFault →
        Rose (F.failed_changes tree.old) (F.failed_changes tree.new) }
{
    let path = entry_path(alloc, folder, name)?;
    if is_full(alloc, tree, &path)? {
        clear(alloc, tree, &path, deeper - 1)
    } else {
        remove_file(alloc, tree, &path)
    }
}

// Removes the entries of these names.
#[cycle(clearing)]
fn clear_names<F: Tree>(
    alloc: Global,
    tree: &mut F,
    folder: &Path,
    deeper: usize,
    names: &Names,
) -> Result<(), FileFault>
    requires parts { list_all is_part names.now ≡ true }
    requires depth { length folder.now.parts + deeper ≡ 64 }
    ensures exact { IsTrue F.tells → Does (in_turn (entry_cleared deeper folder.now) names.now
        (F.contents tree.old)) (F.contents tree.new) result }
    ensures frame { Came F.Tree tree.old tree.new }
    ensures own { IsTrue F.tells → OnOwn F.calls (is_held folder.now) tree.old tree.new }
    ensures read_fault { IsErrOf result FileFault.ReadFault →
        Rose (F.failed_reads tree.old) (F.failed_reads tree.new) }
    ensures write_fault { IsErrOf result FileFault.WriteFault →
        Rose (F.failed_changes tree.old) (F.failed_changes tree.new) }
{
    for at in 0..names.len() {
        clear_entry(alloc, tree, folder, deeper, name_at(names, at))?;
    }
    Ok(())
}

// Removes what lies in a folder, and then the folder.
#[cycle(clearing)]
fn clear<F: Tree>(
    alloc: Global,
    tree: &mut F,
    folder: &Path,
    deeper: usize,
) -> Result<(), FileFault>
    requires some { 0 < length folder.now.parts }
    requires depth { length folder.now.parts + deeper ≡ 64 }
    ensures exact { IsTrue F.tells →
        is_folder (entry_at (F.contents tree.old) folder.now) ≡ true →
        Does (folder_cleared deeper folder.now (F.contents tree.old)) (F.contents tree.new) result }
    ensures frame { Came F.Tree tree.old tree.new }
    ensures own { IsTrue F.tells → OnOwn F.calls (is_held folder.now) tree.old tree.new }
    ensures read_fault { IsErrOf result FileFault.ReadFault →
        Rose (F.failed_reads tree.old) (F.failed_reads tree.new) }
    ensures write_fault { IsErrOf result FileFault.WriteFault →
        Rose (F.failed_changes tree.old) (F.failed_changes tree.new) }
{
    let names = names_of(alloc, tree, folder)?;
    clear_names(alloc, tree, folder, deeper, &names)?;
    remove(alloc, tree, folder)
}

/// Removes a folder with all that it holds, where one stands: its entries in the order of their
/// names, and before each what that holds. The current folder and the root are none to be removed.
///
/// Answers `NotFolder` or `Link` where something else stands, and as the first that it meets `Link`
/// with an entry's path, `NameNotText` with a folder's, or `TooDeep` with that of a folder of 64 parts
/// that isn't empty. What is left of the folder then is open.
#[tactic(auto, using(crate::proofs::ClearLemmas::tree_steps))]
pub fn remove_tree<F: Tree>(alloc: Global, tree: &mut F, path: &Path) -> Result<(), FileFault>
    requires some { 0 < length path.now.parts }
    ensures exact { IsTrue F.tells →
        Does (tree_removed path.now (F.contents tree.old)) (F.contents tree.new) result }
    ensures frame { Came F.Tree tree.old tree.new }
    ensures own { IsTrue F.tells → OnOwn F.calls (is_held path.now) tree.old tree.new }
    ensures read_fault { IsErrOf result FileFault.ReadFault →
        Rose (F.failed_reads tree.old) (F.failed_reads tree.new) }
    ensures write_fault { IsErrOf result FileFault.WriteFault →
        Rose (F.failed_changes tree.old) (F.failed_changes tree.new) }
    ensures changed { IsTrue F.tells → (p : PathValue) → result ≢ Err (FileFault.Changed p) }
{
    if !is_folder(alloc, tree, path)? {
        return Ok(());
    }
    clear(alloc, tree, path, PARTS - path.len())
}
