// Forks that are cut, and files that are swept from a folder.
ghost use Rattle.std.specs.Prelude.{◌≡◌, ◌≢◌, ◌≤◌, ◌<◌, length, false, true, IsTrue, Err, IsErrOf};
ghost use Rattle.std.specs.List.{list_all};
ghost use Rattle.cluster_tree.specs.PathValue.{PathValue, is_part};
ghost use Rattle.cluster_tree.specs.PathOrder.{path_eq};
ghost use Rattle.cluster_tree.specs.Causes.{Rose};
ghost use Rattle.cluster_tree.specs.Frame.{Came};
ghost use Rattle.file_edits.specs.Answers.{Does};
ghost use Rattle.file_edits.specs.Clearing.{in_turn};
ghost use Rattle.file_edits.specs.Edits.{file_cut};
ghost use Rattle.file_edits.specs.Own.{OnOwn};
ghost use Rattle.file_edits.specs.Sparing.{Piece, Spares, spares};
ghost use Rattle.relation_files.specs.Paths.{relation_file};
ghost use Rattle.relation_files.specs.Reading.{file_named};
ghost use Rattle.storage_replay.specs.Cutting.{entry_swept, file_swept, files_cut, files_swept, fork_cut, is_longer, name_swept, same_fork, swept};
ghost use Rattle.storage_replay.specs.Sparing.{is_swept, is_swept_in, keeps_piece};
ghost use Rattle.storage_replay.specs.Files.{AreFit, is_file_in, is_of_relation};

use crate::files::Files;
use crate::lengths::{BLOCK, length};
use crate::sweep::Sweep;
use block_refs::{Fork, RelName};
use cluster_tree::{ChangeCall, FileFault, Names, Path, Tree};
use file_edits::{name_at, names_of, remove_file, shorten};
use relation_files::{FileName, relation_file, relation_folder};
use std::alloc::Global;

fn same_fork(a: Fork, b: Fork) -> bool
    ensures { result ≡ same_fork a b }
{
    a.number() == b.number()
}

// Whether a file is one that a sweep is about.
fn file_swept(sweep: Sweep, relation: u32, file: FileName) -> bool
    ensures { result ≡ file_swept sweep relation file }
{
    match sweep {
        Sweep::Remove => file.relation == relation,
        Sweep::Empty(fork, segment) => {
            file.relation == relation && same_fork(file.fork, fork) && segment < file.segment
        }
    }
}

// Whether a name is.
fn name_swept(sweep: Sweep, relation: u32, name: &str) -> bool
    ensures { result ≡ name_swept sweep relation (file_named name.now) }
{
    match FileName::read(name) {
        None => false,
        Some(file) => file_swept(sweep, relation, file),
    }
}

// Does to a file what a sweep does.
fn sweep_file<F: Tree>(
    alloc: Global,
    tree: &mut F,
    sweep: Sweep,
    path: &Path,
) -> Result<(), FileFault>
    ensures exact { IsTrue F.tells →
        Does (swept sweep path.now (F.contents tree.old)) (F.contents tree.new) result }
    ensures frame { Came F.Tree tree.old tree.new }
    ensures own { IsTrue F.tells → OnOwn F.calls (λ q. path_eq q path.now) tree.old tree.new }
    ensures read_fault { IsErrOf result FileFault.ReadFault →
        Rose (F.failed_reads tree.old) (F.failed_reads tree.new) }
    ensures write_fault { IsErrOf result FileFault.WriteFault →
        Rose (F.failed_changes tree.old) (F.failed_changes tree.new) }
    ensures changed { IsTrue F.tells → (p : PathValue) → result ≢ Err (FileFault.Changed p) }
{
    match sweep {
        Sweep::Remove => remove_file(alloc, tree, path),
        Sweep::Empty(_, _) => shorten(alloc, tree, path, 0),
    }
}

// Does it to the entry of a name in a folder, if that is a file which the sweep is about.
fn sweep_entry<F: Tree>(
    alloc: Global,
    tree: &mut F,
    folder: &Path,
    sweep: Sweep,
    relation: u32,
    name: &str,
) -> Result<(), FileFault>
    requires room { length folder.now.parts ≤ 63 }
    requires part { is_part name.now ≡ true }
    ensures exact { IsTrue F.tells → Does (entry_swept sweep relation folder.now name.now
        (F.contents tree.old)) (F.contents tree.new) result }
    ensures frame { Came F.Tree tree.old tree.new }
    ensures own { IsTrue F.tells → OnOwn F.calls (is_file_in folder.now relation) tree.old tree.new }
    ensures spares { IsTrue F.tells → (piece : Piece) →
        is_swept_in folder.now sweep relation piece.path ≡ false →
        Spares F.Tree piece tree.old tree.new }
    ensures read_fault { IsErrOf result FileFault.ReadFault →
        Rose (F.failed_reads tree.old) (F.failed_reads tree.new) }
    ensures write_fault { IsErrOf result FileFault.WriteFault →
        Rose (F.failed_changes tree.old) (F.failed_changes tree.new) }
    ensures changed { IsTrue F.tells → (p : PathValue) → result ≢ Err (FileFault.Changed p) }
{
    if !name_swept(sweep, relation, name) {
        return Ok(());
    }
    let path = folder.below(alloc, name)?;
    sweep_file(alloc, tree, sweep, &path)
}

// Does it to the entries of these names.
fn sweep_names<F: Tree>(
    alloc: Global,
    tree: &mut F,
    folder: &Path,
    sweep: Sweep,
    relation: u32,
    names: &Names,
) -> Result<(), FileFault>
    requires room { length folder.now.parts ≤ 63 }
    requires parts { list_all is_part names.now ≡ true }
    ensures exact { IsTrue F.tells → Does (in_turn (entry_swept sweep relation folder.now)
        names.now (F.contents tree.old)) (F.contents tree.new) result }
    ensures frame { Came F.Tree tree.old tree.new }
    ensures own { IsTrue F.tells → OnOwn F.calls (is_file_in folder.now relation) tree.old tree.new }
    ensures spares { IsTrue F.tells → (piece : Piece) →
        is_swept_in folder.now sweep relation piece.path ≡ false →
        Spares F.Tree piece tree.old tree.new }
    ensures read_fault { IsErrOf result FileFault.ReadFault →
        Rose (F.failed_reads tree.old) (F.failed_reads tree.new) }
    ensures write_fault { IsErrOf result FileFault.WriteFault →
        Rose (F.failed_changes tree.old) (F.failed_changes tree.new) }
    ensures changed { IsTrue F.tells → (p : PathValue) → result ≢ Err (FileFault.Changed p) }
{
    for at in 0..names.len() {
        sweep_entry(alloc, tree, folder, sweep, relation, name_at(names, at))?;
    }
    Ok(())
}

/// Sweeps the files of a relation's folder, in the order of their names.
pub(crate) fn sweep_files<F: Tree>(
    alloc: Global,
    tree: &mut F,
    root: &Path,
    sweep: Sweep,
    rel: RelName,
) -> Result<(), FileFault>
    requires room { length root.now.parts ≤ 61 }
    ensures exact { IsTrue F.tells → Does (files_swept root.now sweep rel
        (F.contents tree.old)) (F.contents tree.new) result }
    ensures frame { Came F.Tree tree.old tree.new }
    ensures own { IsTrue F.tells → OnOwn F.calls (is_of_relation root.now rel) tree.old tree.new }
    ensures spares { IsTrue F.tells → (piece : Piece) →
        is_swept root.now sweep rel piece.path ≡ false →
        Spares F.Tree piece tree.old tree.new }
    ensures read_fault { IsErrOf result FileFault.ReadFault →
        Rose (F.failed_reads tree.old) (F.failed_reads tree.new) }
    ensures write_fault { IsErrOf result FileFault.WriteFault →
        Rose (F.failed_changes tree.old) (F.failed_changes tree.new) }
    ensures changed { IsTrue F.tells → (p : PathValue) → result ≢ Err (FileFault.Changed p) }
{
    let folder = relation_folder(alloc, root, rel)?;
    let names = names_of(alloc, tree, &folder)?;
    sweep_names(alloc, tree, &folder, sweep, rel.relation, &names)
}

// Whether a fork is longer than so many blocks.
fn is_longer(blocks: u32, there: Option<u32>) -> bool
    ensures { result ≡ is_longer blocks there }
{
    match there {
        None => false,
        Some(there) => blocks < there,
    }
}

// Cuts a file of a fork to a size in bytes.
fn cut_file<F: Tree>(
    alloc: Global,
    tree: &mut F,
    at: &Files,
    rel: RelName,
    fork: Fork,
    file: u32,
    size: u64,
) -> Result<(), FileFault>
    requires fit { AreFit at.now }
    ensures exact { IsTrue F.tells → Does (file_cut (relation_file at.now.root rel fork file) size
        (F.contents tree.old)) (F.contents tree.new) result }
    ensures frame { Came F.Tree tree.old tree.new }
    ensures own { IsTrue F.tells →
        OnOwn F.calls (is_of_relation at.now.root rel) tree.old tree.new }
    ensures spares { IsTrue F.tells → (piece : Piece) →
        spares piece (ChangeCall.Cut (relation_file at.now.root rel fork file) size) ≡ true →
        Spares F.Tree piece tree.old tree.new }
    ensures read_fault { IsErrOf result FileFault.ReadFault →
        Rose (F.failed_reads tree.old) (F.failed_reads tree.new) }
    ensures write_fault { IsErrOf result FileFault.WriteFault →
        Rose (F.failed_changes tree.old) (F.failed_changes tree.new) }
    ensures changed { IsTrue F.tells → (p : PathValue) → result ≢ Err (FileFault.Changed p) }
{
    let path = relation_file(alloc, &at.root, rel, fork, file)?;
    shorten(alloc, tree, &path, size)
}

// Cuts the file of the first block that goes, and empties those behind it.
fn cut_files<F: Tree>(
    alloc: Global,
    tree: &mut F,
    at: &Files,
    rel: RelName,
    fork: Fork,
    blocks: u32,
) -> Result<(), FileFault>
    requires fit { AreFit at.now }
    ensures exact { IsTrue F.tells → Does (files_cut at.now.root at.now.per_file rel fork blocks
        (F.contents tree.old)) (F.contents tree.new) result }
    ensures frame { Came F.Tree tree.old tree.new }
    ensures own { IsTrue F.tells →
        OnOwn F.calls (is_of_relation at.now.root rel) tree.old tree.new }
    ensures spares { IsTrue F.tells → (piece : Piece) →
        keeps_piece at.now.root at.now.per_file rel fork blocks piece ≡ true →
        Spares F.Tree piece tree.old tree.new }
    ensures read_fault { IsErrOf result FileFault.ReadFault →
        Rose (F.failed_reads tree.old) (F.failed_reads tree.new) }
    ensures write_fault { IsErrOf result FileFault.WriteFault →
        Rose (F.failed_changes tree.old) (F.failed_changes tree.new) }
    ensures changed { IsTrue F.tells → (p : PathValue) → result ≢ Err (FileFault.Changed p) }
{
    let file = blocks / at.per_file;
    let size = u64::from(blocks % at.per_file) * BLOCK;
    cut_file(alloc, tree, at, rel, fork, file, size)?;
    sweep_files(alloc, tree, &at.root, Sweep::Empty(fork, file), rel)
}

/// Cuts a fork to so many blocks where it has more.
pub(crate) fn cut_fork<F: Tree>(
    alloc: Global,
    tree: &mut F,
    at: &Files,
    rel: RelName,
    fork: Fork,
    blocks: u32,
) -> Result<(), FileFault>
    requires fit { AreFit at.now }
    ensures exact { IsTrue F.tells → Does (fork_cut at.now.root at.now.per_file rel fork blocks
        (F.contents tree.old)) (F.contents tree.new) result }
    ensures frame { Came F.Tree tree.old tree.new }
    ensures own { IsTrue F.tells →
        OnOwn F.calls (is_of_relation at.now.root rel) tree.old tree.new }
    ensures spares { IsTrue F.tells → (piece : Piece) →
        keeps_piece at.now.root at.now.per_file rel fork blocks piece ≡ true →
        Spares F.Tree piece tree.old tree.new }
    ensures read_fault { IsErrOf result FileFault.ReadFault →
        Rose (F.failed_reads tree.old) (F.failed_reads tree.new) }
    ensures write_fault { IsErrOf result FileFault.WriteFault →
        Rose (F.failed_changes tree.old) (F.failed_changes tree.new) }
    ensures changed { IsTrue F.tells → (p : PathValue) → result ≢ Err (FileFault.Changed p) }
{
    let there = length(alloc, tree, at, rel, fork)?;
    if !is_longer(blocks, there) {
        return Ok(());
    }
    cut_files(alloc, tree, at, rel, fork, blocks)
}
