// The lengths of forks.
ghost use Rattle.std.specs.Prelude.{◌≡◌, ◌≢◌, ◌≤◌, ◌<◌, ◌^◌, IsTrue, Err, IsErrOf};
ghost use Rattle.cluster_tree.specs.PathValue.{PathValue};
ghost use Rattle.cluster_tree.specs.Causes.{Meets, Rose};
ghost use Rattle.cluster_tree.specs.Frame.{Reads};
ghost use Rattle.file_edits.specs.Answers.{IsFree};
ghost use Rattle.storage_replay.specs.Files.{AreFit};
ghost use Rattle.storage_replay.specs.Lengths.{all_files, blocks_of, counted, file_size, fork_length, has_block};

use crate::files::Files;
use block_refs::{Fork, RelName};
use cluster_tree::{FileFault, Tree};
use relation_files::relation_file;
use std::alloc::Global;

/// How many bytes a block has.
pub(crate) const BLOCK: u64 = 8192;

// The greatest length.
const MOST_BLOCKS: u64 = 0xFFFF_FFFF;

// How many blocks of a file count.
fn blocks_of(per_file: u32, size: Option<u64>) -> u32
    ensures { result ≡ blocks_of per_file size }
{
    match size {
        None => 0,
        Some(size) => u64::from(per_file).min(size / BLOCK) as u32,
    }
}

// The size of a file of a fork, if it is there.
fn file_size<F: Tree>(
    alloc: Global,
    tree: &mut F,
    at: &Files,
    rel: RelName,
    fork: Fork,
    file: u32,
) -> Result<Option<u64>, FileFault>
    requires fit { AreFit at.now }
    ensures exact { IsTrue F.tells → Meets IsFree
        (file_size at.now.root rel fork (F.contents tree.old) file) result }
    ensures frame { Reads F.Tree tree.old tree.new }
    ensures read_fault { IsErrOf result FileFault.ReadFault →
        Rose (F.failed_reads tree.old) (F.failed_reads tree.new) }
    ensures write_fault { result ≢ Err FileFault.WriteFault }
    ensures changed { (p : PathValue) → result ≢ Err (FileFault.Changed p) }
{
    let path = relation_file(alloc, &at.root, rel, fork, file)?;
    file_edits::file_size(alloc, tree, &path)
}

// How many blocks a fork has up to and with the first file that isn't full, of its first files.
fn counted<F: Tree>(
    alloc: Global,
    tree: &mut F,
    at: &Files,
    rel: RelName,
    fork: Fork,
    files: u64,
) -> Result<u64, FileFault>
    requires fit { AreFit at.now }
    requires few { files ≤ 2 ^ 32 }
    ensures exact { IsTrue F.tells → Meets IsFree
        (counted (file_size at.now.root rel fork (F.contents tree.old)) at.now.per_file files 0) result }
    ensures frame { Reads F.Tree tree.old tree.new }
    ensures read_fault { IsErrOf result FileFault.ReadFault →
        Rose (F.failed_reads tree.old) (F.failed_reads tree.new) }
    ensures write_fault { result ≢ Err FileFault.WriteFault }
    ensures changed { (p : PathValue) → result ≢ Err (FileFault.Changed p) }
{
    let full = u64::from(at.per_file);
    for file in 0..files {
        let size = file_size(alloc, tree, at, rel, fork, file as u32)?;
        let there = blocks_of(at.per_file, size);
        if there < at.per_file {
            return Ok(file * full + u64::from(there));
        }
    }
    Ok(files * full)
}

// How many files hold all blocks that a fork can have.
fn all_files(per_file: u32) -> u64
    requires { 0 < per_file }
    ensures value { result ≡ all_files per_file }
    ensures few { result ≤ 2 ^ 32 }
{
    MOST_BLOCKS / u64::from(per_file) + 1
}

/// The length of a fork in blocks, or `None` where its first file isn't there. Its files count in
/// turn, up to and with the first that has fewer blocks than a full one; of each file the whole
/// blocks count, and no more than a full one has. A length is at most 2^32 - 1.
///
/// Answers `IsFolder` or `Link` with the first of these files that is something else.
pub fn length<F: Tree>(
    alloc: Global,
    tree: &mut F,
    at: &Files,
    rel: RelName,
    fork: Fork,
) -> Result<Option<u32>, FileFault>
    requires fit { AreFit at.now }
    ensures exact { IsTrue F.tells → Meets IsFree
        (fork_length at.now.root at.now.per_file rel fork (F.contents tree.old)) result }
    ensures frame { Reads F.Tree tree.old tree.new }
    ensures read_fault { IsErrOf result FileFault.ReadFault →
        Rose (F.failed_reads tree.old) (F.failed_reads tree.new) }
    ensures write_fault { result ≢ Err FileFault.WriteFault }
    ensures changed { (p : PathValue) → result ≢ Err (FileFault.Changed p) }
{
    let first = file_size(alloc, tree, at, rel, fork, 0)?;
    if first.is_none() {
        return Ok(None);
    }
    let files = all_files(at.per_file);
    let blocks = counted(alloc, tree, at, rel, fork, files)?;
    Ok(Some(blocks.min(MOST_BLOCKS) as u32))
}

/// Whether a fork has a block of a number. Only the files up to the block's are asked.
pub(crate) fn has_block<F: Tree>(
    alloc: Global,
    tree: &mut F,
    at: &Files,
    rel: RelName,
    fork: Fork,
    block: u32,
) -> Result<bool, FileFault>
    requires fit { AreFit at.now }
    ensures exact { IsTrue F.tells → Meets IsFree
        (has_block at.now.root at.now.per_file rel fork block (F.contents tree.old)) result }
    ensures frame { Reads F.Tree tree.old tree.new }
    ensures read_fault { IsErrOf result FileFault.ReadFault →
        Rose (F.failed_reads tree.old) (F.failed_reads tree.new) }
    ensures write_fault { result ≢ Err FileFault.WriteFault }
    ensures changed { (p : PathValue) → result ≢ Err (FileFault.Changed p) }
{
    let files = u64::from(block / at.per_file) + 1;
    let blocks = counted(alloc, tree, at, rel, fork, files)?;
    Ok(u64::from(block) < blocks)
}
