// The lines that describe a tree.
use crate::control::{SIZE, lay_control};
use crate::fault::LineFault;
use crate::line::{below, bytes, first_word, narrow, number, zeros};
use cluster_tree::{Path, Tree};
use memory_tree::MemoryTree;
use std::alloc::Global;

/// Makes a file of these bytes.
pub(crate) fn add_file(tree: &mut MemoryTree, file: &Path, bytes: &[u8]) -> Result<(), LineFault> {
    tree.make_file(file)?;
    tree.write_at(file, 0, bytes)?;
    Ok(())
}

// `file PATH HEX`: a file of these bytes.
fn add_bytes(
    alloc: Global,
    tree: &mut MemoryTree,
    file: &Path,
    hex: &str,
) -> Result<(), LineFault> {
    add_file(tree, file, &bytes(alloc, hex)?)
}

// `zeros PATH SIZE`: a file of so many zeros.
fn add_zeros(
    alloc: Global,
    tree: &mut MemoryTree,
    file: &Path,
    size: &str,
) -> Result<(), LineFault> {
    add_file(tree, file, &zeros(alloc, narrow(size)?)?)
}

// `control ROOT NAME=VALUE ..`: a cluster's root, its folder `global`, and its control file.
fn add_control(
    alloc: Global,
    tree: &mut MemoryTree,
    root: &Path,
    fields: &str,
) -> Result<(), LineFault> {
    let folder = below(alloc, root, "global")?;
    tree.make_folder(root)?;
    tree.make_folder(&folder)?;
    let mut bytes = [0; SIZE];
    lay_control(&mut bytes, fields)?;
    add_file(tree, &below(alloc, &folder, "pg_control")?, &bytes)
}

// `put PATH AT HEX`: these bytes in a file, from a place on.
fn put_bytes(
    alloc: Global,
    tree: &mut MemoryTree,
    file: &Path,
    words: &str,
) -> Result<(), LineFault> {
    let (at, hex) = first_word(words);
    tree.write_at(file, number(at)?, &bytes(alloc, hex)?)?;
    Ok(())
}

// `cut PATH SIZE`: a file of this size.
fn cut(tree: &mut MemoryTree, file: &Path, size: &str) -> Result<(), LineFault> {
    tree.cut(file, number(size)?)?;
    Ok(())
}

// A line that needs nothing but the path.
fn set_up_alone(tree: &mut MemoryTree, verb: &str, path: &Path) -> Result<(), LineFault> {
    let done = match verb {
        "folder" => tree.make_folder(path),
        "gone" => tree.remove(path),
        "link" => tree.add_link(path),
        "badname" => tree.add_bad_name(path),
        _ => return Err(LineFault::NotALine),
    };
    done?;
    Ok(())
}

/// Carries out a line that describes a tree at a path. Answers `NotALine` where it says something else.
pub fn set_up(
    alloc: Global,
    tree: &mut MemoryTree,
    verb: &str,
    path: &Path,
    words: &str,
) -> Result<(), LineFault> {
    match verb {
        "file" => add_bytes(alloc, tree, path, words),
        "zeros" => add_zeros(alloc, tree, path, words),
        "put" => put_bytes(alloc, tree, path, words),
        "cut" => cut(tree, path, words),
        "control" => add_control(alloc, tree, path, words),
        _ => set_up_alone(tree, verb, path),
    }
}
