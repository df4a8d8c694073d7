// Forks that are made and cut, and relations that are dropped.
ghost use Rattle.std.specs.Prelude.{◌≡◌, ◌≢◌, ◌≤◌, ◌||◌, not, false, true, length, IsTrue, Err, IsErrOf};
ghost use Rattle.cluster_tree.specs.PathValue.{PathValue};
ghost use Rattle.cluster_tree.specs.Causes.{Rose};
ghost use Rattle.cluster_tree.specs.Frame.{Came};
ghost use Rattle.file_edits.specs.Answers.{Does};
ghost use Rattle.file_edits.specs.Own.{OnOwn};
ghost use Rattle.file_edits.specs.Sparing.{Piece, Spares};
ghost use Rattle.storage_replay.specs.Changes.{created, cuts_main, cuts_map, main_by, relation_dropped, truncated};
ghost use Rattle.storage_replay.specs.Sparing.{is_of_fork, is_swept, keeps_piece};
ghost use Rattle.storage_replay.specs.Files.{AreFit, is_of_relation};

use crate::cutting::{cut_fork, sweep_files};
use crate::files::Files;
use crate::sweep::Sweep;
use crate::visibility::cut_map;
use block_refs::{Fork, RelName};
use cluster_tree::{FileFault, Tree};
use file_edits::ensure_file;
use relation_files::relation_file;
use std::alloc::Global;

/// Makes the first file of a fork, with the folders on its way, where nothing stands.
///
/// Answers `IsFolder` or `Link` with the file's path, and `NotFolder` or `Link` with that of a folder
/// on its way which would have to be made or gone through for that, the root first.
pub fn create<F: Tree>(
    alloc: Global,
    tree: &mut F,
    at: &Files,
    rel: RelName,
    fork: Fork,
) -> Result<(), FileFault>
    requires fit { AreFit at.now }
    ensures exact { IsTrue F.tells →
        Does (created at.now.root rel fork (F.contents tree.old)) (F.contents tree.new) result }
    ensures frame { Came F.Tree tree.old tree.new }
    ensures own { IsTrue F.tells →
        OnOwn F.calls (is_of_relation at.now.root rel) tree.old tree.new }
    ensures spares { IsTrue F.tells → (piece : Piece) → Spares F.Tree piece tree.old tree.new }
    ensures read_fault { IsErrOf result FileFault.ReadFault →
        Rose (F.failed_reads tree.old) (F.failed_reads tree.new) }
    ensures write_fault { IsErrOf result FileFault.WriteFault →
        Rose (F.failed_changes tree.old) (F.failed_changes tree.new) }
    ensures changed { IsTrue F.tells → (p : PathValue) → result ≢ Err (FileFault.Changed p) }
{
    let path = relation_file(alloc, &at.root, rel, fork, 0)?;
    ensure_file(alloc, tree, &at.root, &path)?;
    Ok(())
}

// Whether the flags of a truncation say that the main fork is cut.
fn cuts_main(flags: u32) -> bool
    ensures { result ≡ cuts_main flags }
{
    flags % 2 == 1
}

// Whether they say so of the map.
fn cuts_map(flags: u32) -> bool
    ensures { result ≡ cuts_map flags }
{
    flags / 2 % 2 == 1
}

// Makes and cuts the main fork where the flags say it.
fn cut_main<F: Tree>(
    alloc: Global,
    tree: &mut F,
    at: &Files,
    rel: RelName,
    blocks: u32,
    flags: u32,
) -> Result<(), FileFault>
    requires fit { AreFit at.now }
    ensures exact { IsTrue F.tells → Does (main_by at.now.root at.now.per_file rel blocks flags
        (F.contents tree.old)) (F.contents tree.new) result }
    ensures frame { Came F.Tree tree.old tree.new }
    ensures own { IsTrue F.tells →
        OnOwn F.calls (is_of_relation at.now.root rel) tree.old tree.new }
    ensures spares { IsTrue F.tells → (piece : Piece) →
        (not (cuts_main flags) || keeps_piece at.now.root at.now.per_file rel
        (Fork.Main) blocks piece) ≡ true →
        Spares F.Tree piece tree.old tree.new }
    ensures read_fault { IsErrOf result FileFault.ReadFault →
        Rose (F.failed_reads tree.old) (F.failed_reads tree.new) }
    ensures write_fault { IsErrOf result FileFault.WriteFault →
        Rose (F.failed_changes tree.old) (F.failed_changes tree.new) }
    ensures changed { IsTrue F.tells → (p : PathValue) → result ≢ Err (FileFault.Changed p) }
{
    if !cuts_main(flags) {
        return Ok(());
    }
    create(alloc, tree, at, rel, Fork::Main)?;
    cut_fork(alloc, tree, at, rel, Fork::Main, blocks)
}

/// Cuts a relation to so many blocks. With flag 1 the main fork's first file is made where nothing
/// stands; a fork that has more blocks is cut, and its files behind the cut become empty, all that the
/// folder lists. With flag 2 the visibility map is cut to the pages that are still needed, if it has
/// more; where the last of these is left in part, the bits at and past the cut are cleared. Other
/// flags change nothing.
///
/// Answers `IsFolder` or `Link` with a file that is something else, in the order in which files are
/// asked: those that tell the length, the one that is cut, and those behind it by their names; and
/// `NotFolder`, `Link` or `NameNotText` with a folder.
pub fn truncate<F: Tree>(
    alloc: Global,
    tree: &mut F,
    at: &Files,
    rel: RelName,
    blocks: u32,
    flags: u32,
) -> Result<(), FileFault>
    requires fit { AreFit at.now }
    ensures exact { IsTrue F.tells → Does (truncated at.now.root at.now.per_file rel blocks flags
        (F.contents tree.old)) (F.contents tree.new) result }
    ensures frame { Came F.Tree tree.old tree.new }
    ensures own { IsTrue F.tells →
        OnOwn F.calls (is_of_relation at.now.root rel) tree.old tree.new }
    ensures spares { IsTrue F.tells → (piece : Piece) →
        (not (cuts_main flags) || keeps_piece at.now.root at.now.per_file rel
        (Fork.Main) blocks piece) ≡ true →
        is_of_fork at.now.root rel (Fork.Visibility) piece.path ≡ false →
        Spares F.Tree piece tree.old tree.new }
    ensures read_fault { IsErrOf result FileFault.ReadFault →
        Rose (F.failed_reads tree.old) (F.failed_reads tree.new) }
    ensures write_fault { IsErrOf result FileFault.WriteFault →
        Rose (F.failed_changes tree.old) (F.failed_changes tree.new) }
    ensures changed { IsTrue F.tells → (p : PathValue) → result ≢ Err (FileFault.Changed p) }
{
    cut_main(alloc, tree, at, rel, blocks, flags)?;
    if !cuts_map(flags) {
        return Ok(());
    }
    cut_map(alloc, tree, at, rel, blocks)
}

/// Removes every file of every fork of a relation that its folder lists.
///
/// Answers `NotFolder`, `Link` or `NameNotText` with the folder's path, and `IsFolder` or `Link` with
/// the first name that is to go and is no file.
pub fn drop_relation<F: Tree>(
    alloc: Global,
    tree: &mut F,
    at: &Files,
    rel: RelName,
) -> Result<(), FileFault>
    requires fit { AreFit at.now }
    ensures exact { IsTrue F.tells →
        Does (relation_dropped at.now.root rel (F.contents tree.old)) (F.contents tree.new) result }
    ensures frame { Came F.Tree tree.old tree.new }
    ensures own { IsTrue F.tells →
        OnOwn F.calls (is_of_relation at.now.root rel) tree.old tree.new }
    ensures spares { IsTrue F.tells → (piece : Piece) →
        is_swept at.now.root (Sweep.Remove) rel piece.path ≡ false →
        Spares F.Tree piece tree.old tree.new }
    ensures read_fault { IsErrOf result FileFault.ReadFault →
        Rose (F.failed_reads tree.old) (F.failed_reads tree.new) }
    ensures write_fault { IsErrOf result FileFault.WriteFault →
        Rose (F.failed_changes tree.old) (F.failed_changes tree.new) }
    ensures changed { IsTrue F.tells → (p : PathValue) → result ≢ Err (FileFault.Changed p) }
{
    sweep_files(alloc, tree, &at.root, Sweep::Remove, rel)
}
