// The folders and files that are listed, brought back one after another.
ghost use Rattle.std.specs.Prelude.{◌≡◌, ◌≢◌, ◌+◌, ◌<◌, ◌≤◌, ◌^◌, ℕ, List, [], length, false, true, None, Some, IsTrue, Ok, Err, IsErrOf};
ghost use Rattle.std.specs.FinMap.{insert};
ghost use Rattle.std.specs.List.{list_all};
ghost use Rattle.cluster_tree.specs.Causes.{Rose};
ghost use Rattle.cluster_tree.specs.Contents.{FileEntry, FolderEntry, entry_at, is_folder, parent};
ghost use Rattle.cluster_tree.specs.Frame.{Came};
ghost use Rattle.cluster_tree.specs.PathOrder.{path_eq};
ghost use Rattle.file_edits.specs.Answers.{Does};
ghost use Rattle.file_edits.specs.Own.{OnOwn};
ghost use Rattle.file_edits.specs.Sparing.{Piece, Spares};
ghost use Rattle.replay_list.specs.Lines.{files_behind, path_at};
ghost use Rattle.replay_restore.specs.Filled.{CanBring, CanBringAll, FitsFile, FitsFolder, has_path, is_spared, with_all, with_one};
ghost use Rattle.stored_replay.specs.Shadows.{shadow_at};

use crate::pages::fill_page;
use cluster_tree::{FileFault, Path, Tree};
use file_edits::{file_size, is_folder};
use piece_copies::{copy_bytes, cut, make_file, make_folder};
use replay_list::Listed;
use std::alloc::Global;
use stored_replay::shadow_path;

// The bytes of a piece.
const PIECE: usize = 65536;

// Makes a folder, where nothing stands.
#[tactic(auto, using(crate::proofs::FillLemmas::folder_steps))]
fn fill_folder<F: Tree>(alloc: Global, tree: &mut F, path: &Path) -> Result<(), FileFault>
    ensures exact { IsTrue F.tells → 0 < length path.now.parts →
        FitsFolder (entry_at (F.contents tree.old) path.now) →
        is_folder (entry_at (F.contents tree.old) (parent path.now)) ≡ true →
        Does (Ok (insert (F.contents tree.old) path.now (FolderEntry false))) (F.contents tree.new)
        result }
    ensures frame { Came F.Tree tree.old tree.new }
    ensures own { IsTrue F.tells → OnOwn F.calls (λ q. path_eq q path.now) tree.old tree.new }
    ensures spares { IsTrue F.tells → (piece : Piece) → Spares F.Tree piece tree.old tree.new }
    ensures read_fault { IsErrOf result FileFault.ReadFault →
        Rose (F.failed_reads tree.old) (F.failed_reads tree.new) }
    ensures write_fault { IsErrOf result FileFault.WriteFault →
        Rose (F.failed_changes tree.old) (F.failed_changes tree.new) }
{
    if is_folder(alloc, tree, path)? {
        return Ok(());
    }
    make_folder(alloc, tree, path)
}

// Makes an empty file, or cuts the one that stands there to nothing.
fn empty_file<F: Tree>(alloc: Global, tree: &mut F, path: &Path) -> Result<(), FileFault>
    ensures exact { IsTrue F.tells → FitsFile (entry_at (F.contents tree.old) path.now) →
        is_folder (entry_at (F.contents tree.old) (parent path.now)) ≡ true →
        Does (Ok (insert (F.contents tree.old) path.now (FileEntry []))) (F.contents tree.new)
        result }
    ensures frame { Came F.Tree tree.old tree.new }
    ensures own { IsTrue F.tells → OnOwn F.calls (λ q. path_eq q path.now) tree.old tree.new }
    ensures read_fault { IsErrOf result FileFault.ReadFault →
        Rose (F.failed_reads tree.old) (F.failed_reads tree.new) }
    ensures write_fault { IsErrOf result FileFault.WriteFault →
        Rose (F.failed_changes tree.old) (F.failed_changes tree.new) }
{
    match file_size(alloc, tree, path)? {
        None => make_file(alloc, tree, path),
        Some(_) => cut(alloc, tree, path, 0),
    }
}

// Gives a file the bytes of the copy of a number.
fn fill_file<F: Tree>(
    alloc: Global,
    tree: &mut F,
    root: &Path,
    files: u64,
    file: (&Path, u64),
    buffer: &mut [u8],
) -> Result<(), FileFault>
    requires room { length root.now.parts ≤ 61 }
    requires some { 0 < length buffer.old }
    ensures exact { IsTrue F.tells → (bytes : List ℕ) →
        entry_at (F.contents tree.old) (shadow_at root.now files) ≡ Some (FileEntry bytes) →
        length bytes ≡ file.entry.1 → shadow_at root.now files ≢ file.entry.0.now →
        FitsFile (entry_at (F.contents tree.old) file.entry.0.now) →
        is_folder (entry_at (F.contents tree.old) (parent file.entry.0.now)) ≡ true →
        Does (Ok (insert (F.contents tree.old) file.entry.0.now (FileEntry bytes))) (F.contents
        tree.new) result }
    ensures frame { Came F.Tree tree.old tree.new }
    ensures own { IsTrue F.tells →
        OnOwn F.calls (λ q. path_eq q file.entry.0.now) tree.old tree.new }
    ensures read_fault { IsErrOf result FileFault.ReadFault →
        Rose (F.failed_reads tree.old) (F.failed_reads tree.new) }
    ensures write_fault { IsErrOf result FileFault.WriteFault →
        Rose (F.failed_changes tree.old) (F.failed_changes tree.new) }
{
    let (path, size) = file;
    let from = shadow_path(alloc, root, files)?;
    empty_file(alloc, tree, path)?;
    copy_bytes(alloc, tree, &from, path, size, buffer)
}

// Brings back what is listed, before which so many files are.
fn fill_one<F: Tree>(
    alloc: Global,
    tree: &mut F,
    root: &Path,
    files: u64,
    listed: &Listed,
    buffer: &mut [u8],
) -> Result<(), FileFault>
    requires room { length root.now.parts ≤ 61 }
    requires some { 0 < length buffer.old }
    ensures exact { IsTrue F.tells → CanBring root.now files listed.now (F.contents tree.old) →
        Does (Ok (with_one root.now files listed.now (F.contents tree.old))) (F.contents tree.new)
        result }
    ensures frame { Came F.Tree tree.old tree.new }
    ensures own { IsTrue F.tells →
        OnOwn F.calls (λ q. path_eq q (path_at listed.now)) tree.old tree.new }
    ensures spares { IsTrue F.tells → CanBring root.now files listed.now (F.contents tree.old) →
        (piece : Piece) → is_spared piece listed.now ≡ true → Spares F.Tree piece tree.old tree.new }
    ensures read_fault { IsErrOf result FileFault.ReadFault →
        Rose (F.failed_reads tree.old) (F.failed_reads tree.new) }
    ensures write_fault { IsErrOf result FileFault.WriteFault →
        Rose (F.failed_changes tree.old) (F.failed_changes tree.new) }
{
    match listed {
        Listed::Folder(path) => fill_folder(alloc, tree, path),
        Listed::Page(path, size) => fill_page(alloc, tree, path, *size),
        Listed::File(path, size) => fill_file(alloc, tree, root, files, (path, *size), buffer),
    }
}

// How many files of no main fork are listed behind this one.
fn files_behind(files: u64, listed: &Listed) -> u64
    requires room { files + 1 < 2 ^ 64 }
    ensures value { result ≡ files_behind files listed.now }
{
    match listed {
        Listed::Folder(_) | Listed::Page(..) => files,
        Listed::File(..) => files + 1,
    }
}

/// Brings back all that is listed: makes each folder where nothing stands, gives each file of no
/// main fork the bytes of its copy, and each file of a main fork its size, by pieces of at most
/// 65536 bytes.
pub(crate) fn fill_all<F: Tree>(
    alloc: Global,
    tree: &mut F,
    root: &Path,
    listed: &[Listed],
) -> Result<(), FileFault>
    requires room { length root.now.parts ≤ 61 }
    ensures exact { IsTrue F.tells → CanBringAll root.now 0 listed.now (F.contents tree.old) →
        Does (Ok (with_all root.now 0 listed.now (F.contents tree.old))) (F.contents tree.new)
        result }
    ensures frame { Came F.Tree tree.old tree.new }
    ensures own { IsTrue F.tells → OnOwn F.calls (has_path listed.now) tree.old tree.new }
    ensures spares { IsTrue F.tells → CanBringAll root.now 0 listed.now (F.contents tree.old) →
        (piece : Piece) → list_all (is_spared piece) listed.now ≡ true → Spares F.Tree piece
        tree.old tree.new }
    ensures read_fault { IsErrOf result FileFault.ReadFault →
        Rose (F.failed_reads tree.old) (F.failed_reads tree.new) }
    ensures write_fault { IsErrOf result FileFault.WriteFault →
        Rose (F.failed_changes tree.old) (F.failed_changes tree.new) }
{
    let mut buffer = [0; PIECE];
    let mut files = 0;
    for one in listed {
        fill_one(alloc, tree, root, files, one, &mut buffer)?;
        files = files_behind(files, one);
    }
    Ok(())
}
