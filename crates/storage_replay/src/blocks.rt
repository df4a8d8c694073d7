// Blocks that are read and written.
ghost use Rattle.std.specs.Prelude.{◌≡◌, ◌≢◌, ◌≤◌, ◌<◌, ◌*◌, ◌/◌, ◌%◌, ◌^◌, ◌-◌, true, length, replicate, IsTrue, Err, IsErrOf};
ghost use Rattle.std.specs.List.{list_all};
ghost use Rattle.cluster_tree.specs.PathValue.{PathValue, Holds};
ghost use Rattle.cluster_tree.specs.Causes.{MeetsInto, Rose};
ghost use Rattle.cluster_tree.specs.Frame.{Reads, Came};
ghost use Rattle.file_edits.specs.Answers.{Does, IsFree};
ghost use Rattle.file_edits.specs.Asking.{read_asked};
ghost use Rattle.file_edits.specs.Edits.{file_edited, laid, on_way};
ghost use Rattle.file_edits.specs.Own.{OnOwn};
ghost use Rattle.file_edits.specs.Sparing.{Piece, Spares, spares};
ghost use Rattle.relation_files.specs.Paths.{relation_file};
ghost use Rattle.storage_replay.specs.Blocks.{block_in_file, block_laid, block_put, file_filled, files_filled, grown};
ghost use Rattle.storage_replay.specs.Files.{AreFit, is_of_relation};
ghost use Rattle.storage_replay.specs.Sparing.{EndsABlock, block_write};
ghost use Rattle.storage_replay.specs.Reading.{ReadsBlock, block_from_file, block_read, found_in};

use crate::files::Files;
use crate::found::Found;
use crate::lengths::{BLOCK, has_block};
use block_refs::{BlockName, Fork, RelName};
use cluster_tree::{ChangeCall, FileFault, Path, Tree};
use file_edits::{ensure_file, lay, read_or_zeros};
use page_layout::Page;
use relation_files::relation_file;
use std::alloc::Global;

// Whether a page is zeros.
fn found_in(page: &Page) -> Found
    ensures { result ≡ found_in page.now }
{
    if page.is_zero() {
        Found::Zero
    } else {
        Found::Page
    }
}

// Fills a page with the bytes of a file from an offset on.
fn read_page<F: Tree>(
    alloc: Global,
    tree: &mut F,
    path: &Path,
    at: u64,
    into: &mut Page,
) -> Result<(), FileFault>
    ensures exact { IsTrue F.tells → MeetsInto IsFree
        (read_asked (F.contents tree.old) path.now at 8192) into.new result }
    ensures frame { Reads F.Tree tree.old tree.new }
    ensures read_fault { IsErrOf result FileFault.ReadFault →
        Rose (F.failed_reads tree.old) (F.failed_reads tree.new) }
    ensures write_fault { result ≢ Err FileFault.WriteFault }
    ensures changed { IsTrue F.tells → (p : PathValue) → result ≢ Err (FileFault.Changed p) }
{
    read_or_zeros(alloc, tree, path, at, into.bytes_mut())
}

// Reads a block from its file into a page, and tells whether it is zeros.
fn read_in_file<F: Tree>(
    alloc: Global,
    tree: &mut F,
    at: &Files,
    name: BlockName,
    into: &mut Page,
) -> Result<Found, FileFault>
    requires fit { AreFit at.now }
    ensures exact { IsTrue F.tells → ReadsBlock (block_from_file at.now.root at.now.per_file name
        (F.contents tree.old)) into.new result }
    ensures frame { Reads F.Tree tree.old tree.new }
    ensures read_fault { IsErrOf result FileFault.ReadFault →
        Rose (F.failed_reads tree.old) (F.failed_reads tree.new) }
    ensures write_fault { result ≢ Err FileFault.WriteFault }
    ensures changed { IsTrue F.tells → (p : PathValue) → result ≢ Err (FileFault.Changed p) }
{
    let BlockName { rel, fork, block } = name;
    let path = relation_file(alloc, &at.root, rel, fork, block / at.per_file)?;
    let start = u64::from(block % at.per_file) * BLOCK;
    read_page(alloc, tree, &path, start, into)?;
    Ok(found_in(into))
}

/// Reads a block into a page, where the fork has one of that number by its length: only the files up
/// to the block's are asked. Answers whether it is zeros; `into` stays where it is absent, and is open
/// after a fault. The block's number is below 2^32 - 1.
///
/// Answers `IsFolder` or `Link` with the first of these files that is something else.
pub fn read_block<F: Tree>(
    alloc: Global,
    tree: &mut F,
    at: &Files,
    name: BlockName,
    into: &mut Page,
) -> Result<Found, FileFault>
    requires fit { AreFit at.now }
    requires block { name.block < 2 ^ 32 - 1 }
    ensures exact { IsTrue F.tells → ReadsBlock (block_read at.now.root at.now.per_file name
        (F.contents tree.old) into.old) into.new result }
    ensures frame { Reads F.Tree tree.old tree.new }
    ensures read_fault { IsErrOf result FileFault.ReadFault →
        Rose (F.failed_reads tree.old) (F.failed_reads tree.new) }
    ensures write_fault { result ≢ Err FileFault.WriteFault }
    ensures changed { IsTrue F.tells → (p : PathValue) → result ≢ Err (FileFault.Changed p) }
{
    if has_block(alloc, tree, at, name.rel, name.fork, name.block)? {
        read_in_file(alloc, tree, at, name, into)
    } else {
        Ok(Found::Absent)
    }
}

// Lays a block of zeros over a file, once it is lengthened by zeros to a size.
fn lay_zeros<F: Tree>(
    alloc: Global,
    tree: &mut F,
    root: &Path,
    path: &Path,
    size: u64,
    at: u64,
) -> Result<(), FileFault>
    requires held { Holds root.now path.now }
    requires deeper { length root.now.parts < length path.now.parts }
    requires within { at ≤ size }
    ensures exact { IsTrue F.tells →
        Does (file_edited root.now path.now (laid size at (replicate 8192 0)) (F.contents tree.old))
        (F.contents tree.new) result }
    ensures frame { Came F.Tree tree.old tree.new }
    ensures own { IsTrue F.tells → OnOwn F.calls (on_way root.now path.now) tree.old tree.new }
    ensures spares { IsTrue F.tells → (piece : Piece) →
        spares piece (ChangeCall.Write path.now at 8192) ≡ true →
        Spares F.Tree piece tree.old tree.new }
    ensures read_fault { IsErrOf result FileFault.ReadFault →
        Rose (F.failed_reads tree.old) (F.failed_reads tree.new) }
    ensures write_fault { IsErrOf result FileFault.WriteFault →
        Rose (F.failed_changes tree.old) (F.failed_changes tree.new) }
    ensures changed { IsTrue F.tells → (p : PathValue) → result ≢ Err (FileFault.Changed p) }
{
    lay(alloc, tree, root, path, size, at, &[0; 8192])
}

// Grows a file to so many blocks by zeros, from its last whole block on.
fn grow_file<F: Tree>(
    alloc: Global,
    tree: &mut F,
    root: &Path,
    path: &Path,
    blocks: u32,
) -> Result<(), FileFault>
    requires held { Holds root.now path.now }
    requires deeper { length root.now.parts < length path.now.parts }
    ensures exact { IsTrue F.tells →
        Does (file_edited root.now path.now (grown blocks) (F.contents tree.old))
        (F.contents tree.new) result }
    ensures frame { Came F.Tree tree.old tree.new }
    ensures own { IsTrue F.tells → OnOwn F.calls (on_way root.now path.now) tree.old tree.new }
    ensures spares { IsTrue F.tells → (piece : Piece) →
        EndsABlock piece →
        Spares F.Tree piece tree.old tree.new }
    ensures read_fault { IsErrOf result FileFault.ReadFault →
        Rose (F.failed_reads tree.old) (F.failed_reads tree.new) }
    ensures write_fault { IsErrOf result FileFault.WriteFault →
        Rose (F.failed_changes tree.old) (F.failed_changes tree.new) }
    ensures changed { IsTrue F.tells → (p : PathValue) → result ≢ Err (FileFault.Changed p) }
{
    let size = ensure_file(alloc, tree, root, path)?;
    let there = size / BLOCK;
    let wanted = u64::from(blocks);
    if there >= wanted {
        return Ok(());
    }
    lay_zeros(alloc, tree, root, path, wanted * BLOCK, there * BLOCK)
}

// Grows a file of a fork to a whole one.
fn fill_file<F: Tree>(
    alloc: Global,
    tree: &mut F,
    at: &Files,
    rel: RelName,
    fork: Fork,
    file: u32,
) -> Result<(), FileFault>
    requires fit { AreFit at.now }
    ensures exact { IsTrue F.tells → Does (file_filled at.now.root at.now.per_file rel fork file
        (F.contents tree.old)) (F.contents tree.new) result }
    ensures frame { Came F.Tree tree.old tree.new }
    ensures own { IsTrue F.tells →
        OnOwn F.calls (is_of_relation at.now.root rel) tree.old tree.new }
    ensures spares { IsTrue F.tells → (piece : Piece) →
        EndsABlock piece →
        Spares F.Tree piece tree.old tree.new }
    ensures read_fault { IsErrOf result FileFault.ReadFault →
        Rose (F.failed_reads tree.old) (F.failed_reads tree.new) }
    ensures write_fault { IsErrOf result FileFault.WriteFault →
        Rose (F.failed_changes tree.old) (F.failed_changes tree.new) }
    ensures changed { IsTrue F.tells → (p : PathValue) → result ≢ Err (FileFault.Changed p) }
{
    let path = relation_file(alloc, &at.root, rel, fork, file)?;
    grow_file(alloc, tree, &at.root, &path, at.per_file)
}

// Fills the first files of a fork, so many of them, up to whole ones.
fn fill_files<F: Tree>(
    alloc: Global,
    tree: &mut F,
    at: &Files,
    rel: RelName,
    fork: Fork,
    files: u32,
) -> Result<(), FileFault>
    requires fit { AreFit at.now }
    ensures exact { IsTrue F.tells →
        Does (files_filled at.now.root at.now.per_file rel fork files 0 (F.contents tree.old))
        (F.contents tree.new) result }
    ensures frame { Came F.Tree tree.old tree.new }
    ensures own { IsTrue F.tells →
        OnOwn F.calls (is_of_relation at.now.root rel) tree.old tree.new }
    ensures spares { IsTrue F.tells → (piece : Piece) →
        EndsABlock piece →
        Spares F.Tree piece tree.old tree.new }
    ensures read_fault { IsErrOf result FileFault.ReadFault →
        Rose (F.failed_reads tree.old) (F.failed_reads tree.new) }
    ensures write_fault { IsErrOf result FileFault.WriteFault →
        Rose (F.failed_changes tree.old) (F.failed_changes tree.new) }
    ensures changed { IsTrue F.tells → (p : PathValue) → result ≢ Err (FileFault.Changed p) }
{
    for file in 0..files {
        fill_file(alloc, tree, at, rel, fork, file)?;
    }
    Ok(())
}

// Lays a page over a file at a block's place, behind the blocks before it.
fn put_block<F: Tree>(
    alloc: Global,
    tree: &mut F,
    root: &Path,
    path: &Path,
    place: u32,
    page: &[u8],
) -> Result<(), FileFault>
    requires held { Holds root.now path.now }
    requires deeper { length root.now.parts < length path.now.parts }
    ensures exact { IsTrue F.tells →
        Does (file_edited root.now path.now (block_laid place page.now) (F.contents tree.old))
        (F.contents tree.new) result }
    ensures frame { Came F.Tree tree.old tree.new }
    ensures own { IsTrue F.tells → OnOwn F.calls (on_way root.now path.now) tree.old tree.new }
    ensures spares { IsTrue F.tells → (piece : Piece) →
        EndsABlock piece →
        spares piece (ChangeCall.Write path.now (place * 8192) (length page.now)) ≡ true →
        Spares F.Tree piece tree.old tree.new }
    ensures read_fault { IsErrOf result FileFault.ReadFault →
        Rose (F.failed_reads tree.old) (F.failed_reads tree.new) }
    ensures write_fault { IsErrOf result FileFault.WriteFault →
        Rose (F.failed_changes tree.old) (F.failed_changes tree.new) }
    ensures changed { IsTrue F.tells → (p : PathValue) → result ≢ Err (FileFault.Changed p) }
{
    grow_file(alloc, tree, root, path, place)?;
    let start = u64::from(place) * BLOCK;
    lay(alloc, tree, root, path, start, start, page)
}

// Lays a page over a file of a fork at a block's place.
fn put_in_file<F: Tree>(
    alloc: Global,
    tree: &mut F,
    at: &Files,
    name: BlockName,
    page: &[u8],
) -> Result<(), FileFault>
    requires fit { AreFit at.now }
    ensures exact { IsTrue F.tells → Does (block_in_file at.now.root at.now.per_file name page.now
        (F.contents tree.old)) (F.contents tree.new) result }
    ensures frame { Came F.Tree tree.old tree.new }
    ensures own { IsTrue F.tells →
        OnOwn F.calls (is_of_relation at.now.root name.rel) tree.old tree.new }
    ensures spares { IsTrue F.tells → (piece : Piece) →
        EndsABlock piece →
        spares piece (ChangeCall.Write (relation_file at.now.root name.rel name.fork
        (name.block / at.now.per_file)) (name.block % at.now.per_file * 8192)
        (length page.now)) ≡ true →
        Spares F.Tree piece tree.old tree.new }
    ensures read_fault { IsErrOf result FileFault.ReadFault →
        Rose (F.failed_reads tree.old) (F.failed_reads tree.new) }
    ensures write_fault { IsErrOf result FileFault.WriteFault →
        Rose (F.failed_changes tree.old) (F.failed_changes tree.new) }
    ensures changed { IsTrue F.tells → (p : PathValue) → result ≢ Err (FileFault.Changed p) }
{
    let BlockName { rel, fork, block } = name;
    let path = relation_file(alloc, &at.root, rel, fork, block / at.per_file)?;
    put_block(alloc, tree, &at.root, &path, block % at.per_file, page)
}

/// Writes a page as a block of a fork. Blocks that the fork hasn't before it become zeros: each file
/// before the block's is filled up to a whole one and the block's own up to the block, from its last
/// whole block on, so that a torn end becomes zeros too. A file is made, with the folders on its way,
/// where nothing stands. The block's number is below 2^32 - 1.
///
/// Answers `IsFolder` or `Link` with the first file up to the block's that is something else, and
/// `NotFolder` or `Link` with that of a folder on the way which would have to be made or gone through
/// for that, the root first.
pub fn write_block<F: Tree>(
    alloc: Global,
    tree: &mut F,
    at: &Files,
    name: BlockName,
    page: &Page,
) -> Result<(), FileFault>
    requires fit { AreFit at.now }
    requires block { name.block < 2 ^ 32 - 1 }
    ensures exact { IsTrue F.tells → Does (block_put at.now.root at.now.per_file name page.now
        (F.contents tree.old)) (F.contents tree.new) result }
    ensures frame { Came F.Tree tree.old tree.new }
    ensures own { IsTrue F.tells →
        OnOwn F.calls (is_of_relation at.now.root name.rel) tree.old tree.new }
    ensures spares { IsTrue F.tells → (piece : Piece) →
        EndsABlock piece →
        spares piece (block_write at.now.root at.now.per_file name) ≡ true →
        Spares F.Tree piece tree.old tree.new }
    ensures read_fault { IsErrOf result FileFault.ReadFault →
        Rose (F.failed_reads tree.old) (F.failed_reads tree.new) }
    ensures write_fault { IsErrOf result FileFault.WriteFault →
        Rose (F.failed_changes tree.old) (F.failed_changes tree.new) }
    ensures changed { IsTrue F.tells → (p : PathValue) → result ≢ Err (FileFault.Changed p) }
{
    let files = name.block / at.per_file;
    fill_files(alloc, tree, at, name.rel, name.fork, files)?;
    put_in_file(alloc, tree, at, name, page.bytes())
}
