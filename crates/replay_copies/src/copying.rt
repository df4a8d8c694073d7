// The copies of the files that are listed.
ghost use Rattle.std.specs.Prelude.{◌≡◌, ◌+◌, ◌<◌, ◌≤◌, ◌^◌, ℕ, List, length, Some, IsTrue, Ok, Err, IsErrOf};
ghost use Rattle.std.specs.FinMap.{insert};
ghost use Rattle.std.specs.List.{All};
ghost use Rattle.cluster_tree.specs.Apart.{is_held};
ghost use Rattle.cluster_tree.specs.Causes.{Rose};
ghost use Rattle.cluster_tree.specs.Contents.{FileEntry, entry_at};
ghost use Rattle.cluster_tree.specs.Frame.{Came};
ghost use Rattle.file_edits.specs.Answers.{Does};
ghost use Rattle.file_edits.specs.Own.{OnOwn};
ghost use Rattle.replay_list.specs.Lines.{files_behind};
ghost use Rattle.replay_copies.specs.Copying.{IsOpen, with_copies, with_copy};
ghost use Rattle.replay_copies.specs.Laid.{IsFound};
ghost use Rattle.stored_replay.specs.Shadows.{shadow_at, shadow_folder};

use cluster_tree::{FileFault, Path, Tree};
use file_edits::ensure_file;
use piece_copies::copy_bytes;
use replay_list::Listed;
use std::alloc::Global;
use stored_replay::{shadow_folder, shadow_path};

// The bytes of a piece.
const PIECE: usize = 65536;

// Copies a file of so many bytes, before which so many files are listed.
fn copy_file<F: Tree>(
    alloc: Global,
    tree: &mut F,
    root: &Path,
    files: u64,
    file: (&Path, u64),
    buffer: &mut [u8],
) -> Result<(), FileFault>
    requires room { length root.now.parts ≤ 61 }
    requires some { 0 < length buffer.old }
    ensures exact { IsTrue F.tells → (bytes : List ℕ) → IsOpen root.now files (F.contents tree.old)
        → entry_at (F.contents tree.old) file.entry.0.now ≡ Some (FileEntry bytes) → length bytes ≡
        file.entry.1 → Does (Ok (insert (F.contents tree.old) (shadow_at root.now files) (FileEntry
        bytes))) (F.contents tree.new) result }
    ensures frame { Came F.Tree tree.old tree.new }
    ensures own { IsTrue F.tells → OnOwn F.calls (is_held (shadow_folder root.now)) tree.old
        tree.new }
    ensures read_fault { IsErrOf result FileFault.ReadFault →
        Rose (F.failed_reads tree.old) (F.failed_reads tree.new) }
    ensures write_fault { IsErrOf result FileFault.WriteFault →
        Rose (F.failed_changes tree.old) (F.failed_changes tree.new) }
{
    let (from, size) = file;
    let folder = shadow_folder(alloc, root)?;
    let to = shadow_path(alloc, root, files)?;
    ensure_file(alloc, tree, &folder, &to)?;
    copy_bytes(alloc, tree, from, &to, size, buffer)
}

// Copies what is listed, before which so many files are, where it is a file of no main fork.
fn copy_one<F: Tree>(
    alloc: Global,
    tree: &mut F,
    root: &Path,
    files: u64,
    listed: &Listed,
    buffer: &mut [u8],
) -> Result<(), FileFault>
    requires room { length root.now.parts ≤ 61 }
    requires some { 0 < length buffer.old }
    ensures exact { IsTrue F.tells → IsOpen root.now files (F.contents tree.old) → IsFound
        (F.contents tree.old) listed.now → Does (Ok (with_copy root.now files listed.now (F.contents
        tree.old))) (F.contents tree.new) result }
    ensures frame { Came F.Tree tree.old tree.new }
    ensures own { IsTrue F.tells → OnOwn F.calls (is_held (shadow_folder root.now)) tree.old
        tree.new }
    ensures read_fault { IsErrOf result FileFault.ReadFault →
        Rose (F.failed_reads tree.old) (F.failed_reads tree.new) }
    ensures write_fault { IsErrOf result FileFault.WriteFault →
        Rose (F.failed_changes tree.old) (F.failed_changes tree.new) }
{
    match listed {
        Listed::Folder(_) | Listed::Page(..) => Ok(()),
        Listed::File(path, size) => copy_file(alloc, tree, root, files, (path, *size), buffer),
    }
}

// How many files of no main fork are listed behind this one.
fn files_behind(files: u64, listed: &Listed) -> u64
    requires room { files + 1 < 2 ^ 64 }
    ensures value { result ≡ files_behind files listed.now }
{
    match listed {
        Listed::Folder(_) | Listed::Page(..) => files,
        Listed::File(..) => files + 1,
    }
}

/// Copies each listed file of no main fork, by pieces of at most 65536 bytes.
pub(crate) fn copy_all<F: Tree>(
    alloc: Global,
    tree: &mut F,
    root: &Path,
    listed: &[Listed],
) -> Result<(), FileFault>
    requires room { length root.now.parts ≤ 61 }
    ensures exact { IsTrue F.tells → IsOpen root.now 0 (F.contents tree.old) → All (IsFound
        (F.contents tree.old)) listed.now → Does (Ok (with_copies root.now 0 listed.now (F.contents
        tree.old))) (F.contents tree.new) result }
    ensures frame { Came F.Tree tree.old tree.new }
    ensures own { IsTrue F.tells → OnOwn F.calls (is_held (shadow_folder root.now)) tree.old
        tree.new }
    ensures read_fault { IsErrOf result FileFault.ReadFault →
        Rose (F.failed_reads tree.old) (F.failed_reads tree.new) }
    ensures write_fault { IsErrOf result FileFault.WriteFault →
        Rose (F.failed_changes tree.old) (F.failed_changes tree.new) }
{
    let mut buffer = [0; PIECE];
    let mut files = 0;
    for one in listed {
        copy_one(alloc, tree, root, files, one, &mut buffer)?;
        files = files_behind(files, one);
    }
    Ok(())
}
