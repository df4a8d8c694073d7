// Trees from lines.
use crate::fault::LineFault;
use crate::runs::runs_of;
use crate::words::{cut_at, number};
use cluster_tree::{Path, Tree};
use memory_tree::MemoryTree;
use std::alloc::Global;

/// Makes a file of these bytes.
pub fn put_file(
    alloc: Global,
    tree: &mut MemoryTree,
    path: &str,
    bytes: &[u8],
) -> Result<(), LineFault> {
    let path = Path::parse(alloc, path)?;
    tree.make_file(&path)?;
    tree.write_at(&path, 0, bytes)?;
    Ok(())
}

// The bytes of a file: so many zeros, bytes by their digits, or bytes by their runs.
fn bytes_of(alloc: Global, kind: &str, words: &str) -> Result<Vec<u8>, LineFault> {
    match kind {
        "f" => Ok(vec![in alloc; 0; number(words)? as usize]?),
        "h" => Ok(hex::decode(alloc, words)?),
        _ => runs_of(alloc, words),
    }
}

// Makes what is no file, or takes an entry away.
fn put_other(
    alloc: Global,
    tree: &mut MemoryTree,
    kind: &str,
    path: &str,
) -> Result<(), LineFault> {
    let path = Path::parse(alloc, path)?;
    match kind {
        "d" => tree.make_folder(&path)?,
        "l" => tree.add_link(&path)?,
        "b" => tree.add_bad_name(&path)?,
        "x" => tree.remove(&path)?,
        _ => return Err(LineFault::NotALine),
    }
    Ok(())
}

// Carries out a line, or nothing.
fn put(alloc: Global, tree: &mut MemoryTree, line: &str) -> Result<(), LineFault> {
    let (kind, behind) = cut_at(line, " ");
    let (path, words) = cut_at(behind, " ");
    match kind {
        "" => Ok(()),
        "f" | "h" | "r" => put_file(alloc, tree, path, &bytes_of(alloc, kind, words)?),
        _ => put_other(alloc, tree, kind, path),
    }
}

/// Carries out lines in turn, with commas between, none for a dash: a folder `d PATH`, a file `f PATH SIZE` of zeros, a
/// file `h PATH DIGITS` of bytes by their digits, a file `r PATH RUNS` of bytes by their runs, a link `l PATH`, or a name
/// `b PATH` in a folder that isn't UTF-8; an entry that is taken away by `x PATH`.
pub fn put_all(alloc: Global, tree: &mut MemoryTree, lines: &str) -> Result<(), LineFault> {
    if lines == "-" {
        return Ok(());
    }
    for line in lines.split(", ") {
        put(alloc, tree, line)?;
    }
    Ok(())
}

/// The tree that lines make.
pub fn tree_of(alloc: Global, lines: &str) -> Result<MemoryTree, LineFault> {
    let mut tree = MemoryTree::new(alloc);
    put_all(alloc, &mut tree, lines)?;
    Ok(tree)
}
