//! Trees in memory from short descriptions, and what stands in them. README.md has the words.
use crate::fault::RowFault;
use crate::pages::changes;
use crate::texts::{bytes_of, cut_at, filled, long, number, owned, undashed};
use cluster_tree::{Kind, Names, Path, Tree, TreeFault};
use memory_tree::MemoryTree;
use page_layout::Page;
use std::alloc::Global;
use wal_base::Lsn;

/// How many bytes a block has.
const BLOCK: u64 = 8192;

/// The path of a text.
pub(crate) fn path_of(alloc: Global, text: &str) -> Result<Path, RowFault> {
    Ok(Path::parse(alloc, text)?)
}

// Makes a folder that isn't there.
fn put_folder(tree: &mut MemoryTree, folder: &Path) -> Result<(), TreeFault> {
    if tree.kind(folder) == Ok(Kind::Absent) {
        tree.make_folder(folder)?;
    }
    Ok(())
}

// Makes the folders of a path's first parts.
fn put_way(alloc: Global, tree: &mut MemoryTree, path: &Path) -> Result<(), RowFault> {
    for parts in 1..path.len() {
        put_folder(tree, &path.front(alloc, parts)?)?;
    }
    Ok(())
}

/// Makes a file of these bytes.
pub(crate) fn put_file(tree: &mut MemoryTree, path: &Path, bytes: &[u8]) -> Result<(), TreeFault> {
    tree.make_file(path)?;
    tree.write_at(path, 0, bytes)
}

// Files of one byte.
fn put_files(
    alloc: Global,
    tree: &mut MemoryTree,
    folder: &Path,
    names: &str,
) -> Result<(), RowFault> {
    put_folder(tree, folder)?;
    for name in names.split(' ') {
        put_file(tree, &folder.join(alloc, name)?, b"x")?;
    }
    Ok(())
}

// A folder that holds a name that isn't UTF-8.
fn put_bad_name(tree: &mut MemoryTree, path: &Path) -> Result<(), TreeFault> {
    put_folder(tree, path)?;
    tree.add_bad_name(path)
}

// Adds a block to the end of a file, which is made where it isn't there.
fn add_block(tree: &mut MemoryTree, path: &Path, page: &Page) -> Result<(), TreeFault> {
    if tree.kind(path) == Ok(Kind::Absent) {
        tree.make_file(path)?;
    }
    let size = tree.size(path)?;
    tree.write_at(path, size, page.bytes())
}

/// A page of zeros.
pub(crate) fn zero_page(alloc: Global) -> Result<Page, RowFault> {
    Ok(Page::zero(alloc)?)
}

// An empty page with an LSN.
fn page_at(alloc: Global, lsn: u64) -> Result<Page, RowFault> {
    let mut page = zero_page(alloc)?;
    page.init(0)?;
    page.set_lsn(Lsn(lsn));
    Ok(page)
}

// What an entry's verb and words put at its path.
fn put_at(
    alloc: Global,
    tree: &mut MemoryTree,
    verb: &str,
    path: &Path,
    words: &str,
) -> Result<(), RowFault> {
    match verb {
        "folder" => put_folder(tree, path)?,
        "file" => put_file(tree, path, &bytes_of(alloc, words)?)?,
        "filled" => put_file(tree, path, &filled(alloc, words)?)?,
        "files" => put_files(alloc, tree, path, words)?,
        "zeros" => add_block(tree, path, &zero_page(alloc)?)?,
        "page" => add_block(tree, path, &page_at(alloc, long(words)?)?)?,
        "link" => tree.add_link(path)?,
        "bad" => put_bad_name(tree, path)?,
        _ => return Err(RowFault::NotAnEntry),
    }
    Ok(())
}

// One entry, with the folders on its way.
fn put(alloc: Global, tree: &mut MemoryTree, entry: &str) -> Result<(), RowFault> {
    let (verb, behind) = cut_at(entry, " ");
    let (text, words) = cut_at(behind, " ");
    let path = path_of(alloc, text)?;
    put_way(alloc, tree, &path)?;
    put_at(alloc, tree, verb, &path, words)
}

fn put_all(alloc: Global, tree: &mut MemoryTree, entries: &str) -> Result<(), RowFault> {
    for entry in entries.split(", ") {
        if !entry.is_empty() {
            put(alloc, tree, entry)?;
        }
    }
    Ok(())
}

/// A tree with the entries of both texts.
pub(crate) fn tree_of(alloc: Global, first: &str, then: &str) -> Result<MemoryTree, RowFault> {
    let mut tree = MemoryTree::new(alloc);
    put_all(alloc, &mut tree, first)?;
    put_all(alloc, &mut tree, then)?;
    Ok(tree)
}

// Whether a file has these bytes from an offset on.
fn has_bytes(
    alloc: Global,
    tree: &mut MemoryTree,
    path: &Path,
    at: u64,
    bytes: &[u8],
) -> Result<bool, RowFault> {
    let mut found = vec![in alloc; 0; bytes.len()]?;
    let read = tree.read_at(path, at, &mut found);
    Ok(read.is_ok() && found.as_slice() == bytes)
}

/// Each name with a mark behind it.
pub(crate) fn joined(alloc: Global, names: &Names, mark: char) -> Result<String, RowFault> {
    let mut text = String::new(alloc);
    for at in 0..names.len() {
        let name = names.get(at).unwrap_or("");
        write!(text, "{name}{mark}")?;
    }
    Ok(text)
}

// The bytes of a block of a file, or `None` where it has no such block.
fn block_of(
    alloc: Global,
    tree: &mut MemoryTree,
    path: &Path,
    block: u32,
) -> Result<Option<Vec<u8>>, RowFault> {
    let mut page = vec![in alloc; 0; 8192]?;
    match tree.read_at(path, u64::from(block) * BLOCK, &mut page) {
        Ok(()) => Ok(Some(page)),
        Err(_) => Ok(None),
    }
}

// Whether a block of a file has these runs of bytes that aren't zeros.
fn has_runs(
    alloc: Global,
    tree: &mut MemoryTree,
    path: &Path,
    words: &str,
) -> Result<bool, RowFault> {
    let (block, expected) = cut_at(words, " ");
    match block_of(alloc, tree, path, number(block)?)? {
        Some(found) => {
            let runs = changes(alloc, zero_page(alloc)?.bytes(), &found)?;
            Ok(runs.as_str() == expected)
        }
        None => Ok(false),
    }
}

// The file of a block of relation 16384 of database 5, where a file has two blocks.
fn file_of(alloc: Global, fork: &str, block: u32) -> Result<Path, RowFault> {
    let suffix = match fork {
        "main" => "",
        "fsm" => "_fsm",
        "vm" => "_vm",
        "init" => "_init",
        _ => return Err(RowFault::NotAFork),
    };
    let mut text = format!(in alloc; "base/5/16384{suffix}")?;
    if block >= 2 {
        write!(text, ".{}", block / 2)?;
    }
    path_of(alloc, &text)
}

// The one byte that all are.
fn one_of(bytes: &[u8]) -> Option<u8> {
    let first = *bytes.first()?;
    for &byte in bytes {
        if byte != first {
            return None;
        }
    }
    Some(first)
}

// What lies at the place of a block of that relation: nothing, one byte 8192 times, or bytes of several kinds.
fn state_of(
    alloc: Global,
    tree: &mut MemoryTree,
    fork: &str,
    block: u32,
) -> Result<String, RowFault> {
    let path = file_of(alloc, fork, block)?;
    let Some(bytes) = block_of(alloc, tree, &path, block % 2)? else {
        return owned(alloc, "absent");
    };
    match one_of(&bytes) {
        Some(byte) => Ok(format!(in alloc; "{byte}")?),
        None => owned(alloc, "mixed"),
    }
}

// Whether this lies there.
fn is_state(
    alloc: Global,
    tree: &mut MemoryTree,
    fork: &str,
    words: &str,
) -> Result<bool, RowFault> {
    let (block, expected) = cut_at(words, " ");
    let state = state_of(alloc, tree, fork, number(block)?)?;
    Ok(state.as_str() == expected)
}

// Whether the names of a folder are these.
fn holds(
    alloc: Global,
    tree: &mut MemoryTree,
    path: &Path,
    expected: &str,
) -> Result<bool, RowFault> {
    match tree.list(alloc, path) {
        Ok(names) => {
            let text = joined(alloc, &names, ' ')?;
            Ok(text.as_str().trim_end() == undashed(expected))
        }
        Err(_) => Ok(false),
    }
}

// Whether it is so: no entry, a folder, a size in bytes or in blocks, bytes from an offset on, one byte so many times,
// or the names of a folder.
fn is_entry_so(
    alloc: Global,
    tree: &mut MemoryTree,
    verb: &str,
    path: &Path,
    words: &str,
) -> Result<bool, RowFault> {
    let (at, behind) = cut_at(words, " ");
    match verb {
        "none" => Ok(tree.kind(path) == Ok(Kind::Absent)),
        "folder" => Ok(tree.kind(path) == Ok(Kind::Folder)),
        "size" => Ok(tree.size(path) == Ok(long(words)?)),
        "blocks" => Ok(tree.size(path) == Ok(u64::from(number(words)?) * BLOCK)),
        "at" => has_bytes(alloc, tree, path, long(at)?, &bytes_of(alloc, behind)?),
        "run" => has_bytes(alloc, tree, path, long(at)?, &filled(alloc, behind)?),
        "block" => has_runs(alloc, tree, path, words),
        "holds" => holds(alloc, tree, path, words),
        _ => Err(RowFault::NotAFact),
    }
}

/// Whether a fact is so, of an entry or of the place of a block; or nothing is asked.
pub(crate) fn is_so(alloc: Global, tree: &mut MemoryTree, fact: &str) -> Result<bool, RowFault> {
    let (verb, behind) = cut_at(fact, " ");
    let (text, words) = cut_at(behind, " ");
    match verb {
        "" => Ok(true),
        "state" => is_state(alloc, tree, text, words),
        _ => is_entry_so(alloc, tree, verb, &path_of(alloc, text)?, words),
    }
}
