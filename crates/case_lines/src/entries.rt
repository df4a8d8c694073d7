// All that a tree holds, as a text.
use crate::fault::LineFault;
use crate::line::{below, path, zeros};
use cluster_tree::{Kind, Path, Tree};
use memory_tree::MemoryTree;
use std::alloc::Global;
use wal_base::Crc32c;

// More entries than any case has.
const MOST: usize = 1000;

/// The bytes of a file.
pub(crate) fn bytes_in(
    alloc: Global,
    tree: &mut MemoryTree,
    file: &Path,
) -> Result<Vec<u8>, LineFault> {
    let size = usize::try_from(tree.size(file)?).unwrap_or(0);
    let mut bytes = zeros(alloc, size)?;
    tree.read_at(file, 0, &mut bytes)?;
    Ok(bytes)
}

/// The CRC-32C of bytes.
pub(crate) fn sum_of(bytes: &[u8]) -> u32 {
    let mut sum = Crc32c::new();
    sum.add(bytes);
    sum.value()
}

// Adds the paths of what lies in a folder.
fn add_inside(
    alloc: Global,
    tree: &mut MemoryTree,
    folder: &Path,
    rest: &mut Vec<Path>,
) -> Result<(), LineFault> {
    let names = tree.list(alloc, folder)?;
    for at in 0..names.len() {
        if let Some(name) = names.get(at) {
            rest.push(below(alloc, folder, name)?)?;
        }
    }
    Ok(())
}

// Adds the line of an entry, and the paths of what lies in it.
fn add_entry(
    alloc: Global,
    tree: &mut MemoryTree,
    at: &Path,
    lines: &mut String,
    rest: &mut Vec<Path>,
) -> Result<(), LineFault> {
    match tree.kind(at)? {
        Kind::Absent => writeln!(lines, "nothing {at}")?,
        Kind::File => {
            let bytes = bytes_in(alloc, tree, at)?;
            let (size, sum) = (bytes.len(), sum_of(&bytes));
            writeln!(lines, "file {at} {size} {sum:08X}")?;
        }
        Kind::Folder => {
            add_inside(alloc, tree, at, rest)?;
            writeln!(lines, "folder {at}")?;
        }
    }
    Ok(())
}

/// A line for each entry of a tree: its kind and path, and of a file its size and checksum.
pub fn inventory(alloc: Global, tree: &mut MemoryTree) -> Result<String, LineFault> {
    let mut lines = String::new(alloc);
    let mut rest = Vec::new(alloc);
    rest.push(path(alloc, ".")?)?;
    for _ in 0..MOST {
        let Some(at) = rest.pop() else {
            return Ok(lines);
        };
        add_entry(alloc, tree, &at, &mut lines, &mut rest)?;
    }
    Err(LineFault::TooMany)
}
