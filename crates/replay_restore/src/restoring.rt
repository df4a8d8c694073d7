// All that is listed is brought back.
ghost use Rattle.std.specs.Prelude.{◌≡◌, ◌≢◌, ◌∷◌, ◌≤◌, [], bytes_eq, codes, false, length, true, IsTrue, IfErr, OnOk, Err, IsErrOf, List, ℕ};
ghost use Rattle.std.specs.List.{list_all, list_any};
ghost use Rattle.cluster_tree.specs.Causes.{Rose};
ghost use Rattle.cluster_tree.specs.Contents.{Contents, entry_at, is_folder};
ghost use Rattle.cluster_tree.specs.Frame.{Came};
ghost use Rattle.cluster_tree.specs.PathValue.{PathValue, is_part};
ghost use Rattle.cluster_tree.specs.Stops.{LeavesOnly, MayBeLeft};
ghost use Rattle.file_edits.specs.Own.{OnOwn};
ghost use Rattle.file_edits.specs.Sparing.{Piece, Shows, Spares};
ghost use Rattle.replay_restore.specs.Filled.{is_spared};
ghost use Rattle.replay_restore.specs.Freed.{AreFreed, IsFreeing, IsRefusal, goes_in, label_path};
ghost use Rattle.replay_restore.specs.Listing.{has_file, is_closed, is_named, is_restored_at};
ghost use Rattle.replay_restore.specs.Restored.{CanRestore, IsRestored};

use crate::filling::fill_all;
use crate::freeing::{entry_path, free_entry, standing};
use crate::listing::has_file;
use cluster_tree::{FileFault, Kind, Path, Tree};
use replay_list::Listed;
use std::alloc::Global;

// How many parts a path has at most.
const PARTS: usize = 64;

// Frees an area, or the label. Before it these names were freed, from the first contents on.
fn free_area<F: Tree>(
    alloc: Global,
    tree: &mut F,
    root: &Path,
    name: &str,
    listed: &[Listed],
) -> Result<(), FileFault>
    requires room { length root.now.parts ≤ 61 }
    requires part { is_part name.now ≡ true }
    ensures done { IsTrue F.tells → is_closed root.now [] listed.now ≡ true →
        (done : List (List ℕ)) (first : Contents) → list_any (bytes_eq name.now) done ≡ false →
        IsFreeing listed.now root.now done first (F.contents tree.old) →
        OnOk result (IsFreeing listed.now root.now (name.now ∷ done) first (F.contents tree.new)) }
    ensures refused { IsTrue F.tells → is_closed root.now [] listed.now ≡ true →
        is_named (name.now ∷ []) ≡ true →
        (done : List (List ℕ)) (first : Contents) → list_any (bytes_eq name.now) done ≡ false →
        IsFreeing listed.now root.now done first (F.contents tree.old) →
        IfErr result (IsRefusal root.now first) }
    ensures own { IsTrue F.tells → is_closed root.now [] listed.now ≡ true →
        is_named (name.now ∷ []) ≡ true →
        (done : List (List ℕ)) (first : Contents) → list_any (bytes_eq name.now) done ≡ false →
        IsFreeing listed.now root.now done first (F.contents tree.old) →
        OnOwn F.calls (goes_in listed.now first root.now) tree.old tree.new }
    ensures frame { Came F.Tree tree.old tree.new }
    ensures read_fault { IsErrOf result FileFault.ReadFault →
        Rose (F.failed_reads tree.old) (F.failed_reads tree.new) }
    ensures write_fault { IsErrOf result FileFault.WriteFault →
        Rose (F.failed_changes tree.old) (F.failed_changes tree.new) }
{
    free_entry(alloc, tree, root, PARTS - root.len(), name, listed)
}

// Looks at the label: where it is listed, nothing but a file stands there. Answers `IsFolder` for a folder.
fn free_label<F: Tree>(
    alloc: Global,
    tree: &mut F,
    root: &Path,
    listed: &[Listed],
) -> Result<(), FileFault>
    requires room { length root.now.parts ≤ 61 }
    ensures done { IsTrue F.tells → is_closed root.now [] listed.now ≡ true →
        has_file listed.now (label_path root.now) ≡ true →
        (done : List (List ℕ)) (first : Contents) → list_any (bytes_eq (codes "backup_label")) done ≡ false →
        IsFreeing listed.now root.now done first (F.contents tree.old) →
        OnOk result (IsFreeing listed.now root.now (codes "backup_label" ∷ done) first (F.contents tree.new)) }
    ensures refused { IsTrue F.tells → is_closed root.now [] listed.now ≡ true →
        (done : List (List ℕ)) (first : Contents) → list_any (bytes_eq (codes "backup_label")) done ≡ false →
        IsFreeing listed.now root.now done first (F.contents tree.old) →
        IfErr result (IsRefusal root.now first) }
    ensures label { IsTrue F.tells → has_file listed.now (label_path root.now) ≡ true →
        is_folder (entry_at (F.contents tree.old) (label_path root.now)) ≡ true → OnOk result ⊥ }
    ensures own { IsTrue F.tells → is_closed root.now [] listed.now ≡ true →
        (done : List (List ℕ)) (first : Contents) → list_any (bytes_eq (codes "backup_label")) done ≡ false →
        IsFreeing listed.now root.now done first (F.contents tree.old) →
        OnOwn F.calls (goes_in listed.now first root.now) tree.old tree.new }
    ensures frame { Came F.Tree tree.old tree.new }
    ensures read_fault { IsErrOf result FileFault.ReadFault →
        Rose (F.failed_reads tree.old) (F.failed_reads tree.new) }
    ensures write_fault { IsErrOf result FileFault.WriteFault →
        Rose (F.failed_changes tree.old) (F.failed_changes tree.new) }
{
    let path = entry_path(alloc, root, "backup_label")?;
    if !has_file(listed, &path) {
        return Ok(());
    }
    match standing(alloc, tree, &path)? {
        Kind::Folder => Err(FileFault::IsFolder(path)),
        Kind::Absent | Kind::File => free_area(alloc, tree, root, "backup_label", listed),
    }
}

// Frees the areas of what isn't listed, the last name first, and looks at the label.
fn free_areas<F: Tree>(
    alloc: Global,
    tree: &mut F,
    root: &Path,
    listed: &[Listed],
) -> Result<(), FileFault>
    requires room { length root.now.parts ≤ 61 }
    ensures done { IsTrue F.tells → is_closed root.now [] listed.now ≡ true →
        has_file listed.now (label_path root.now) ≡ true →
        OnOk result (AreFreed listed.now root.now (F.contents tree.old) (F.contents tree.new)) }
    ensures refused { IsTrue F.tells → is_closed root.now [] listed.now ≡ true →
        IfErr result (IsRefusal root.now (F.contents tree.old)) }
    ensures label { IsTrue F.tells → is_closed root.now [] listed.now ≡ true →
        has_file listed.now (label_path root.now) ≡ true →
        is_folder (entry_at (F.contents tree.old) (label_path root.now)) ≡ true → OnOk result ⊥ }
    ensures own { IsTrue F.tells → is_closed root.now [] listed.now ≡ true →
        OnOwn F.calls (goes_in listed.now (F.contents tree.old) root.now) tree.old tree.new }
    ensures frame { Came F.Tree tree.old tree.new }
    ensures read_fault { IsErrOf result FileFault.ReadFault →
        Rose (F.failed_reads tree.old) (F.failed_reads tree.new) }
    ensures write_fault { IsErrOf result FileFault.WriteFault →
        Rose (F.failed_changes tree.old) (F.failed_changes tree.new) }
{
    free_area(alloc, tree, root, "pg_xact", listed)?;
    free_area(alloc, tree, root, "pg_multixact", listed)?;
    free_area(alloc, tree, root, "global", listed)?;
    free_area(alloc, tree, root, "base", listed)?;
    free_label(alloc, tree, root, listed)
}

/// Brings back, at and below the folders `pg_xact`, `pg_multixact`, `global` and `base` of a root and
/// at its `backup_label`, what a replay's mark lists: what isn't listed in those folders in its kind is
/// removed, the last name first; then each listed folder is made where nothing stands, each file of no main
/// fork gets the bytes of its copy, and each file of a main fork is made, cut or lengthened by zeros
/// to its size. It isn't synced.
///
/// Answers `Link` with the path of a link that stands there, `NameNotText` with that of a folder
/// that has a name that isn't text, `TooDeep` with that of a folder of 64 parts, and `IsFolder` where a
/// folder stands at the label: that is never removed. `ReadFault`,
/// `WriteFault` and `OutOfMemory` may come at any point, and where the list isn't one of the root,
/// or copies are missing, the other faults too. What is left then is open.
pub fn restore_areas<F: Tree>(
    alloc: Global,
    tree: &mut F,
    root: &Path,
    listed: &[Listed],
) -> Result<(), FileFault>
    requires room { length root.now.parts ≤ 61 }
    ensures done { IsTrue F.tells → CanRestore root.now listed.now (F.contents tree.old) →
        OnOk result (IsRestored root.now listed.now (F.contents tree.old) (F.contents tree.new)) }
    ensures refused { IsTrue F.tells → CanRestore root.now listed.now (F.contents tree.old) →
        IfErr result (IsRefusal root.now (F.contents tree.old)) }
    // a folder at the label refuses
    ensures label { IsTrue F.tells → CanRestore root.now listed.now (F.contents tree.old) →
        is_folder (entry_at (F.contents tree.old) (label_path root.now)) ≡ true → OnOk result ⊥ }
    // no call is elsewhere
    ensures own { IsTrue F.tells → CanRestore root.now listed.now (F.contents tree.old) →
        OnOwn F.calls (is_restored_at root.now) tree.old tree.new }
    // a piece of a listed file of a main fork, up to its listed size, keeps its bytes
    ensures spares { IsTrue F.tells → CanRestore root.now listed.now (F.contents tree.old) →
        (piece : Piece) → has_file listed.now piece.path ≡ true →
        list_all (is_spared piece) listed.now ≡ true → Spares F.Tree piece tree.old tree.new }
    // also in all that a stop at any moment leaves, where all that one could leave before had them
    ensures keeps { IsTrue F.tells → CanRestore root.now listed.now (F.contents tree.old) →
        (piece : Piece) (bytes : List ℕ) → has_file listed.now piece.path ≡ true →
        list_all (is_spared piece) listed.now ≡ true → Shows piece bytes (F.contents tree.old) →
        ((c : Contents) → MayBeLeft (F.stops tree.old) c → Shows piece bytes c) →
        LeavesOnly (Shows piece bytes) (F.stops tree.old) (F.stops tree.new) }
    ensures frame { Came F.Tree tree.old tree.new }
    ensures read_fault { IsErrOf result FileFault.ReadFault →
        Rose (F.failed_reads tree.old) (F.failed_reads tree.new) }
    ensures write_fault { IsErrOf result FileFault.WriteFault →
        Rose (F.failed_changes tree.old) (F.failed_changes tree.new) }
    ensures changed { IsTrue F.tells → CanRestore root.now listed.now (F.contents tree.old) →
        (p : PathValue) → result ≢ Err (FileFault.Changed p) }
{
    free_areas(alloc, tree, root, listed)?;
    fill_all(alloc, tree, root, listed)
}
