// The lines that say what the tree has to hold.
use crate::entries::{bytes_in, sum_of};
use crate::fault::LineFault;
use crate::line::{bytes, first_word, narrow, number, zeros};
use cluster_tree::{Kind, Path, Tree};
use memory_tree::MemoryTree;
use std::alloc::Global;

// `bytes PATH AT HEX`: whether a file has these bytes from a place on.
fn has_bytes(
    alloc: Global,
    tree: &mut MemoryTree,
    file: &Path,
    words: &str,
) -> Result<bool, LineFault> {
    let (at, hex) = first_word(words);
    let wanted = bytes(alloc, hex)?;
    let mut found = zeros(alloc, wanted.len())?;
    let read = tree.read_at(file, number(at)?, &mut found);
    Ok(read.is_ok() && found.as_slice() == wanted.as_slice())
}

// `size PATH N`: whether a file has this size.
fn has_size(tree: &mut MemoryTree, file: &Path, size: &str) -> Result<bool, LineFault> {
    let wanted = number(size)?;
    match tree.size(file) {
        Ok(found) => Ok(found == wanted),
        Err(_) => Ok(false),
    }
}

// `absent PATH`: whether nothing stands there.
fn is_absent(tree: &mut MemoryTree, file: &Path) -> bool {
    matches!(tree.kind(file), Ok(Kind::Absent))
}

// `sum PATH SIZE SUM`: whether the first bytes of a file, so many or all where it has fewer, have this CRC-32C.
fn has_sum(
    alloc: Global,
    tree: &mut MemoryTree,
    file: &Path,
    words: &str,
) -> Result<bool, LineFault> {
    let (size, wanted) = first_word(words);
    let size: usize = narrow(size)?;
    let bytes = bytes_in(alloc, tree, file)?;
    let sum = sum_of(bytes.get(..size).unwrap_or(&bytes));
    Ok(format!(in alloc; "{sum:08X}")?.as_str() == wanted)
}

// How many lines a page has: PostgreSQL 16, src/include/storage/bufpage.h.
fn lines_of(page: &[u8]) -> usize {
    match page.get(12..14) {
        Some(lower) => (usize::from(lower[0]) + 256 * usize::from(lower[1])).saturating_sub(24) / 4,
        None => 0,
    }
}

// `lines PATH NUMBER ..`: whether a file's pages have so many lines, one number a page.
fn has_lines(
    alloc: Global,
    tree: &mut MemoryTree,
    file: &Path,
    numbers: &str,
) -> Result<bool, LineFault> {
    let bytes = bytes_in(alloc, tree, file)?;
    let mut left = numbers.split(' ');
    for page in bytes.chunks(8192) {
        let wanted: usize = narrow(left.next().unwrap_or(""))?;
        if lines_of(page) != wanted {
            return Ok(false);
        }
    }
    Ok(left.next().is_none())
}

/// Whether the tree holds what a line says of a path: `bytes PATH AT HEX`, `size PATH N`, `sum PATH SIZE SUM`,
/// `lines PATH NUMBER ..` or `absent PATH`. Answers `NotALine` where it says something else.
pub fn holds(
    alloc: Global,
    tree: &mut MemoryTree,
    verb: &str,
    file: &Path,
    words: &str,
) -> Result<bool, LineFault> {
    match verb {
        "bytes" => has_bytes(alloc, tree, file, words),
        "size" => has_size(tree, file, words),
        "sum" => has_sum(alloc, tree, file, words),
        "lines" => has_lines(alloc, tree, file, words),
        "absent" => Ok(is_absent(tree, file)),
        _ => Err(LineFault::NotALine),
    }
}
