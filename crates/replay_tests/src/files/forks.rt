// The calls of storage_replay, and what each answers.
ghost use Rattle.std.specs.Prelude.{◌≤◌, ◌<◌, length, IfOk};
ghost use Rattle.storage_replay.specs.Files.{AreFit};

use crate::fault::RowFault;
use crate::files::answers::{count, ended, word};
use crate::texts::{byte, cut_at, number};
use crate::trees::zero_page;
use block_refs::{BlockName, Fork, RelName};
use cluster_tree::{FileFault, Path, Tree};
use page_layout::Page;
use std::alloc::Global;
use storage_replay::{
    Files, Found, create, drop_relation, length, map_bits, read_block, truncate, write_block,
};

const REL: RelName = RelName {
    space: 1663,
    database: 5,
    relation: 16384,
};

fn fork_of(text: &str) -> Result<Fork, RowFault> {
    match text {
        "main" => Ok(Fork::Main),
        "fsm" => Ok(Fork::FreeSpace),
        "vm" => Ok(Fork::Visibility),
        "init" => Ok(Fork::Init),
        _ => Err(RowFault::NotAFork),
    }
}

// A block by its fork and its number.
fn block_of(fork: &str, block: &str) -> Result<BlockName, RowFault> {
    Ok(BlockName {
        rel: REL,
        fork: fork_of(fork)?,
        block: number(block)?,
    })
}

const fn shared_block(relation: u32) -> BlockName {
    BlockName {
        rel: RelName {
            space: 1664,
            database: 0,
            relation,
        },
        fork: Fork::Main,
        block: 0,
    }
}

// A page of one byte.
fn page_of(alloc: Global, byte: u8) -> Result<Page, RowFault> {
    let mut page = zero_page(alloc)?;
    page.bytes_mut().fill(byte);
    Ok(page)
}

// What is found, and the first and the last byte of the page.
fn told_found(
    alloc: Global,
    found: Result<Found, FileFault>,
    page: &[u8],
) -> Result<String, RowFault> {
    let found = match found {
        Ok(Found::Absent) => "absent",
        Ok(Found::Zero) => "zero",
        Ok(Found::Page) => "page",
        Err(fault) => return word(alloc, Err(fault)),
    };
    let first = page.first().copied().unwrap_or(0);
    let last = page.last().copied().unwrap_or(0);
    Ok(format!(in alloc; "{found} {first} {last}")?)
}

// What is found, and the first and the last byte of the buffer, which held 9 before.
fn read<F: Tree>(
    alloc: Global,
    tree: &mut F,
    at: &Files,
    name: BlockName,
) -> Result<String, RowFault>
    requires fit { AreFit at.now }
{
    if name.block == u32::MAX {
        return Err(RowFault::NotABlock);
    }
    let mut page = page_of(alloc, 9)?;
    let found = read_block(alloc, tree, at, name, &mut page);
    told_found(alloc, found, page.bytes())
}

// Writes a block of one byte.
fn write<F: Tree>(
    alloc: Global,
    tree: &mut F,
    at: &Files,
    name: BlockName,
    byte: u8,
) -> Result<String, RowFault>
    requires fit { AreFit at.now }
{
    if name.block == u32::MAX {
        return Err(RowFault::NotABlock);
    }
    let page = page_of(alloc, byte)?;
    ended(alloc, write_block(alloc, tree, at, name, &page))
}

fn sparse<F: Tree>(alloc: Global, tree: &mut F, at: &Files) -> Result<String, RowFault>
    requires fit { AreFit at.now }
{
    let done = write(alloc, tree, at, block_of("main", "3")?, 7)?;
    let first = read(alloc, tree, at, block_of("main", "1")?)?;
    let behind = read(alloc, tree, at, block_of("main", "4")?)?;
    Ok(format!(in alloc; "{done}, {first}, {behind}")?)
}

// The length of a fork, or that there is none.
fn told_length(alloc: Global, blocks: Result<Option<u32>, FileFault>) -> Result<String, RowFault> {
    match blocks {
        Ok(Some(blocks)) => count(alloc, Ok(u64::from(blocks))),
        Ok(None) => word(alloc, Ok("none")),
        Err(fault) => word(alloc, Err(fault)),
    }
}

// What a call on a block answers, or on a length.
fn on_block<F: Tree>(
    alloc: Global,
    tree: &mut F,
    at: &Files,
    verb: &str,
    words: &str,
) -> Result<String, RowFault>
    requires fit { AreFit at.now }
{
    let (first, behind) = cut_at(words, " ");
    let (second, third) = cut_at(behind, " ");
    match verb {
        "read" => read(alloc, tree, at, block_of(first, second)?),
        "write" => write(alloc, tree, at, block_of(first, second)?, byte(third)?),
        "shared" => write(alloc, tree, at, shared_block(number(first)?), 1),
        "length" => told_length(alloc, length(alloc, tree, at, REL, fork_of(first)?)),
        "sparse" => sparse(alloc, tree, at),
        _ => Err(RowFault::NotACall),
    }
}

// What a call on a fork or a relation answers, or else one on a block.
fn run<F: Tree>(alloc: Global, tree: &mut F, at: &Files, call: &str) -> Result<String, RowFault>
    requires fit { AreFit at.now }
{
    let (verb, words) = cut_at(call, " ");
    let (first, second) = cut_at(words, " ");
    let done = match verb {
        "truncate" => truncate(alloc, tree, at, REL, number(first)?, number(second)?),
        "create" => create(alloc, tree, at, REL, fork_of(first)?),
        "drop" => {
            let relation = number(first)?;
            drop_relation(alloc, tree, at, RelName { relation, ..REL })
        }
        "bits" => map_bits(alloc, tree, at, REL, number(first)?, byte(second)? % 4),
        _ => return on_block(alloc, tree, at, verb, words),
    };
    ended(alloc, done)
}

/// The files of the cluster at a root, each of at most so many blocks.
pub(crate) fn files(alloc: Global, root: &Path, per_file: u32) -> Result<Files, RowFault>
    requires room { length root.now.parts ≤ 61 }
    requires some { 0 < per_file }
    requires most { per_file ≤ 131072 }
    ensures fit { IfOk result AreFit }
{
    Ok(Files {
        root: root.copy(alloc)?,
        per_file,
    })
}

/// What a call on the cluster at a root answers, whose files have two blocks each but in one row.
/// It is about relation 16384 of database 5, or another that is named.
pub(crate) fn answer_fork<F: Tree>(
    alloc: Global,
    tree: &mut F,
    root: &Path,
    call: &str,
) -> Result<String, RowFault>
    requires room { length root.now.parts ≤ 61 }
{
    let per_file = if call == "sparse" { 131_072 } else { 2 };
    run(alloc, tree, &files(alloc, root, per_file)?, call)
}
