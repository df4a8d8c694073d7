// The calls of file_edits at a path below a cluster's root, and what each answers.
ghost use Rattle.std.specs.Prelude.{◌<◌, length};
ghost use Rattle.cluster_tree.specs.PathValue.{Holds};

use crate::fault::RowFault;
use crate::files::answers::{count, ended, word};
use crate::texts::{bytes_of, cut_at, long};
use crate::trees::{joined, path_of};
use cluster_tree::{FileFault, Names, Path, Tree};
use file_edits::{
    ensure_file, file_size, is_folder, lay, make_way, names_of, read_or_zeros, remove_file,
    remove_tree, shorten,
};
use std::alloc::Global;

// Each name with a slash behind it.
fn listed(alloc: Global, names: Result<Names, FileFault>) -> Result<String, RowFault> {
    match names {
        Ok(names) => joined(alloc, &names, '/'),
        Err(fault) => word(alloc, Err(fault)),
    }
}

// Four bytes.
fn read<F: Tree>(alloc: Global, tree: &mut F, path: &Path, at: u64) -> Result<String, RowFault> {
    let mut four = [0; 4];
    match read_or_zeros(alloc, tree, path, at, &mut four) {
        Ok(()) => Ok(hex::encode(alloc, four)?),
        Err(fault) => word(alloc, Err(fault)),
    }
}

// Whether a folder stands there.
fn told_folder(alloc: Global, there: Result<bool, FileFault>) -> Result<String, RowFault> {
    match there {
        Ok(there) => word(alloc, Ok(if there { "a folder" } else { "none" })),
        Err(fault) => word(alloc, Err(fault)),
    }
}

// The size of a file, or that there is none.
fn told_size(alloc: Global, size: Result<Option<u64>, FileFault>) -> Result<String, RowFault> {
    match size {
        Ok(Some(size)) => count(alloc, Ok(size)),
        Ok(None) => word(alloc, Ok("none")),
        Err(fault) => word(alloc, Err(fault)),
    }
}

// What a call answers that may be about any path.
fn answer_any<F: Tree>(
    alloc: Global,
    tree: &mut F,
    path: &Path,
    verb: &str,
    words: &str,
) -> Result<String, RowFault> {
    match verb {
        "size" => told_size(alloc, file_size(alloc, tree, path)),
        "is_folder" => told_folder(alloc, is_folder(alloc, tree, path)),
        "names" => listed(alloc, names_of(alloc, tree, path)),
        "read" => read(alloc, tree, path, long(words)?),
        "shorten" => ended(alloc, shorten(alloc, tree, path, long(words)?)),
        "clear" if path.len() > 0 => ended(alloc, remove_tree(alloc, tree, path)),
        "remove" => ended(alloc, remove_file(alloc, tree, path)),
        _ => Err(RowFault::NotACall),
    }
}

// Lays bytes into a file at a path below the root, by the size, the offset and the bytes.
fn laid<F: Tree>(
    alloc: Global,
    tree: &mut F,
    root: &Path,
    path: &Path,
    words: &str,
) -> Result<String, RowFault>
    requires held { Holds root.now path.now }
    requires deeper { length root.now.parts < length path.now.parts }
{
    let (size, behind) = cut_at(words, " ");
    let (at, digits) = cut_at(behind, " ");
    let (size, at) = (long(size)?, long(at)?);
    if at > size {
        return Err(RowFault::PastTheEnd);
    }
    let bytes = bytes_of(alloc, digits)?;
    ended(alloc, lay(alloc, tree, root, path, size, at, &bytes))
}

// What a call at a path below the root answers.
fn answer_below<F: Tree>(
    alloc: Global,
    tree: &mut F,
    root: &Path,
    path: &Path,
    verb: &str,
    words: &str,
) -> Result<String, RowFault>
    requires held { Holds root.now path.now }
    requires deeper { length root.now.parts < length path.now.parts }
{
    match verb {
        "way" => ended(alloc, make_way(alloc, tree, root, path)),
        "ensure" => count(alloc, ensure_file(alloc, tree, root, path)),
        "lay" => laid(alloc, tree, root, path, words),
        _ => answer_any(alloc, tree, path, verb, words),
    }
}

// What a call at a path answers.
fn answer_at<F: Tree>(
    alloc: Global,
    tree: &mut F,
    root: &Path,
    path: &Path,
    verb: &str,
    words: &str,
) -> Result<String, RowFault> {
    if root.holds(path) && root.len() < path.len() {
        answer_below(alloc, tree, root, path, verb, words)
    } else {
        answer_any(alloc, tree, path, verb, words)
    }
}

/// What a call answers, by the words of its path and of what stands behind it.
pub(crate) fn answer_edit<F: Tree>(
    alloc: Global,
    tree: &mut F,
    root: &Path,
    call: &str,
) -> Result<String, RowFault> {
    let (verb, behind) = cut_at(call, " ");
    let (text, words) = cut_at(behind, " ");
    answer_at(alloc, tree, root, &path_of(alloc, text)?, verb, words)
}
