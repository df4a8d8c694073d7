// Places that are freed of what isn't listed.
ghost use Rattle.std.specs.Prelude.{◌≡◌, ◌≢◌, ◌⊎◌, ◌+◌, ◌<◌, ◌∷◌, [], length, false, true, Some, IsTrue, IfOk, IfErr, OnOk, Err, IsErrOf};
ghost use Rattle.std.specs.List.{list_all};
ghost use Rattle.cluster_tree.specs.Causes.{Meets, Rose};
ghost use Rattle.cluster_tree.specs.Contents.{FolderEntry, entry_at, is_file, is_folder};
ghost use Rattle.cluster_tree.specs.Folders.{IsListing};
ghost use Rattle.cluster_tree.specs.Frame.{Came, Reads};
ghost use Rattle.cluster_tree.specs.PathValue.{PathValue, below, is_part};
ghost use Rattle.file_edits.specs.Answers.{IsFree};
ghost use Rattle.file_edits.specs.Own.{OnOwn};
ghost use Rattle.replay_restore.specs.Freed.{HasFolders, IsFreed, IsHindered, IsHinderedIn, goes, kind_asked};
ghost use Rattle.replay_restore.specs.Listing.{has_folder};

use crate::listing::{has_file, has_folder};
use cluster_tree::{FileFault, Kind, Names, Path, Tree, TreeFault};
use file_edits::{name_at, names_of, remove_file, remove_tree};
use replay_list::Listed;
use std::alloc::Global;

// How many parts a path has at most.
const PARTS: usize = 64;

// What stands at a path. Answers `Link` for a link.
#[tactic(auto, using(crate::proofs::KindLemmas::kind_steps))]
pub(crate) fn standing<F: Tree>(alloc: Global, tree: &mut F, path: &Path) -> Result<Kind, FileFault>
    ensures exact { IsTrue F.tells → Meets IsFree
        (kind_asked path.now (entry_at (F.contents tree.old) path.now)) result }
    ensures frame { Reads F.Tree tree.old tree.new }
    ensures read_fault { IsErrOf result FileFault.ReadFault →
        Rose (F.failed_reads tree.old) (F.failed_reads tree.new) }
    ensures write_fault { result ≢ Err FileFault.WriteFault }
{
    match tree.kind(path) {
        Ok(kind) => Ok(kind),
        Err(TreeFault::Link) => Err(FileFault::Link(path.copy(alloc)?)),
        Err(_) => Err(FileFault::ReadFault),
    }
}

// The path of a name in a folder.
pub(crate) fn entry_path(alloc: Global, folder: &Path, name: &str) -> Result<Path, FileFault>
    requires part { is_part name.now ≡ true }
    ensures value { IfOk result (λ path. path ≡ below folder.now (name.now ∷ [])) }
    ensures room { IfOk result (λ path. length folder.now.parts < 64) }
    ensures refused { IfErr result (λ e. (e ≡ FileFault.OutOfMemory)
        ⊎ ((length folder.now.parts ≡ 64) × (e ≡ FileFault.TooDeep folder.now))) }
{
    if folder.len() == PARTS {
        return Err(FileFault::TooDeep(folder.copy(alloc)?));
    }
    let path = folder.below(alloc, name)?;
    Ok(path)
}

// Frees a place at which a file stands.
fn free_file<F: Tree>(
    alloc: Global,
    tree: &mut F,
    path: &Path,
    listed: &[Listed],
) -> Result<(), FileFault>
    ensures done { IsTrue F.tells → is_file (entry_at (F.contents tree.old) path.now) ≡ true →
        0 < length path.now.parts →
        OnOk result (IsFreed listed.now path.now (F.contents tree.old) (F.contents tree.new)) }
    ensures refused { IsTrue F.tells → is_file (entry_at (F.contents tree.old) path.now) ≡ true →
        IfErr result IsFree }
    ensures own { IsTrue F.tells → is_file (entry_at (F.contents tree.old) path.now) ≡ true →
        OnOwn F.calls (goes listed.now (F.contents tree.old) path.now) tree.old tree.new }
    ensures frame { Came F.Tree tree.old tree.new }
    ensures read_fault { IsErrOf result FileFault.ReadFault →
        Rose (F.failed_reads tree.old) (F.failed_reads tree.new) }
    ensures write_fault { IsErrOf result FileFault.WriteFault →
        Rose (F.failed_changes tree.old) (F.failed_changes tree.new) }
{
    if has_file(listed, path) {
        Ok(())
    } else {
        remove_file(alloc, tree, path)
    }
}

/// Frees a name in a folder, with all below it. Paths below the folder may have `deeper` parts more
/// than it.
#[cycle(freeing)]
pub(crate) fn free_entry<F: Tree>(
    alloc: Global,
    tree: &mut F,
    folder: &Path,
    deeper: usize,
    name: &str,
    listed: &[Listed],
) -> Result<(), FileFault>
    requires part { is_part name.now ≡ true }
    requires depth { length folder.now.parts + deeper ≡ 64 }
    ensures done { IsTrue F.tells → HasFolders listed.now (below folder.now (name.now ∷ [])) →
        OnOk result (IsFreed listed.now (below folder.now (name.now ∷ [])) (F.contents tree.old)
        (F.contents tree.new)) }
    ensures refused { IsTrue F.tells → HasFolders listed.now (below folder.now (name.now ∷ [])) →
        IfErr result (IsHinderedIn folder.now name.now (F.contents tree.old)) }
    ensures own { IsTrue F.tells → HasFolders listed.now (below folder.now (name.now ∷ [])) →
        OnOwn F.calls (goes listed.now (F.contents tree.old) (below folder.now (name.now ∷ [])))
        tree.old tree.new }
    ensures frame { Came F.Tree tree.old tree.new }
    ensures read_fault { IsErrOf result FileFault.ReadFault →
        Rose (F.failed_reads tree.old) (F.failed_reads tree.new) }
    ensures write_fault { IsErrOf result FileFault.WriteFault →
        Rose (F.failed_changes tree.old) (F.failed_changes tree.new) }
{
    let path = entry_path(alloc, folder, name)?;
    match standing(alloc, tree, &path)? {
        Kind::Absent => Ok(()),
        Kind::File => free_file(alloc, tree, &path, listed),
        Kind::Folder => free_folder(alloc, tree, &path, deeper - 1, listed),
    }
}

// Frees a place at which a folder stands.
#[cycle(freeing)]
fn free_folder<F: Tree>(
    alloc: Global,
    tree: &mut F,
    path: &Path,
    deeper: usize,
    listed: &[Listed],
) -> Result<(), FileFault>
    requires some { 0 < length path.now.parts }
    requires depth { length path.now.parts + deeper ≡ 64 }
    ensures done { IsTrue F.tells → HasFolders listed.now path.now →
        is_folder (entry_at (F.contents tree.old) path.now) ≡ true →
        OnOk result (IsFreed listed.now path.now (F.contents tree.old) (F.contents tree.new)) }
    ensures refused { IsTrue F.tells → HasFolders listed.now path.now →
        is_folder (entry_at (F.contents tree.old) path.now) ≡ true →
        IfErr result (IsHindered path.now (F.contents tree.old)) }
    ensures own { IsTrue F.tells → HasFolders listed.now path.now →
        is_folder (entry_at (F.contents tree.old) path.now) ≡ true →
        OnOwn F.calls (goes listed.now (F.contents tree.old) path.now) tree.old tree.new }
    ensures frame { Came F.Tree tree.old tree.new }
    ensures read_fault { IsErrOf result FileFault.ReadFault →
        Rose (F.failed_reads tree.old) (F.failed_reads tree.new) }
    ensures write_fault { IsErrOf result FileFault.WriteFault →
        Rose (F.failed_changes tree.old) (F.failed_changes tree.new) }
{
    if has_folder(listed, path) {
        free_inside(alloc, tree, path, deeper, listed)
    } else {
        remove_tree(alloc, tree, path)
    }
}

// Frees what lies in a folder that is listed, the last name first.
#[cycle(freeing)]
fn free_inside<F: Tree>(
    alloc: Global,
    tree: &mut F,
    path: &Path,
    deeper: usize,
    listed: &[Listed],
) -> Result<(), FileFault>
    requires some { 0 < length path.now.parts }
    requires depth { length path.now.parts + deeper ≡ 64 }
    ensures done { IsTrue F.tells → HasFolders listed.now path.now →
        has_folder listed.now path.now ≡ true →
        is_folder (entry_at (F.contents tree.old) path.now) ≡ true →
        OnOk result (IsFreed listed.now path.now (F.contents tree.old) (F.contents tree.new)) }
    ensures refused { IsTrue F.tells → HasFolders listed.now path.now →
        is_folder (entry_at (F.contents tree.old) path.now) ≡ true →
        IfErr result (IsHindered path.now (F.contents tree.old)) }
    ensures own { IsTrue F.tells → HasFolders listed.now path.now →
        is_folder (entry_at (F.contents tree.old) path.now) ≡ true →
        OnOwn F.calls (goes listed.now (F.contents tree.old) path.now) tree.old tree.new }
    ensures frame { Came F.Tree tree.old tree.new }
    ensures read_fault { IsErrOf result FileFault.ReadFault →
        Rose (F.failed_reads tree.old) (F.failed_reads tree.new) }
    ensures write_fault { IsErrOf result FileFault.WriteFault →
        Rose (F.failed_changes tree.old) (F.failed_changes tree.new) }
{
    let names = names_of(alloc, tree, path)?;
    free_names(alloc, tree, path, deeper, &names, listed)
}

// Frees these names of a folder, the last one first.
#[cycle(freeing)]
fn free_names<F: Tree>(
    alloc: Global,
    tree: &mut F,
    path: &Path,
    deeper: usize,
    names: &Names,
    listed: &[Listed],
) -> Result<(), FileFault>
    requires parts { list_all is_part names.now ≡ true }
    requires some { 0 < length path.now.parts }
    requires depth { length path.now.parts + deeper ≡ 64 }
    ensures done { IsTrue F.tells → HasFolders listed.now path.now →
        IsListing (F.contents tree.old) path.now names.now →
        has_folder listed.now path.now ≡ true →
        entry_at (F.contents tree.old) path.now ≡ Some (FolderEntry false) →
        OnOk result (IsFreed listed.now path.now (F.contents tree.old) (F.contents tree.new)) }
    ensures refused { IsTrue F.tells → HasFolders listed.now path.now →
        IsListing (F.contents tree.old) path.now names.now →
        is_folder (entry_at (F.contents tree.old) path.now) ≡ true →
        IfErr result (IsHindered path.now (F.contents tree.old)) }
    ensures own { IsTrue F.tells → HasFolders listed.now path.now →
        IsListing (F.contents tree.old) path.now names.now →
        OnOwn F.calls (goes listed.now (F.contents tree.old) path.now) tree.old tree.new }
    ensures frame { Came F.Tree tree.old tree.new }
    ensures read_fault { IsErrOf result FileFault.ReadFault →
        Rose (F.failed_reads tree.old) (F.failed_reads tree.new) }
    ensures write_fault { IsErrOf result FileFault.WriteFault →
        Rose (F.failed_changes tree.old) (F.failed_changes tree.new) }
{
    let mut at = names.len();
    while at > 0 {
        free_entry(alloc, tree, path, deeper, name_at(names, at - 1), listed)?;
        at -= 1;
    }
    Ok(())
}
