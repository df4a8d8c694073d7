// What a line says.
ghost use Rattle.std.specs.Prelude.{◌≡◌, map, IfOk};
ghost use Rattle.replay_list.specs.Reading.{counted, file_of, is_count, listed_of, page_of, path_in, pathed, sized};

use crate::listed::Listed;
use cluster_tree::{OutOfMemory, Path};
use mark_lines::way_in;
use std::alloc::Global;
use wal_base::decimal_u64;

/// The path below a root that a word says.
fn path_in(alloc: Global, root: &Path, word: &[u8]) -> Result<Option<Path>, OutOfMemory>
    ensures { IfOk result (λ path. path ≡ path_in root.now word.now) }
{
    let Some(way) = way_in(alloc, root.len(), word)? else {
        return Ok(None);
    };
    Ok(Some(root.below(alloc, &way)?))
}

/// A folder, by a word and a path.
fn pathed(
    alloc: Global,
    root: &Path,
    verb: &[u8],
    path: &[u8],
) -> Result<Option<Listed>, OutOfMemory>
    ensures { IfOk result (λ listed. listed ≡ pathed root.now verb.now path.now) }
{
    if verb != b"folder".as_slice() {
        return Ok(None);
    }
    let Some(path) = path_in(alloc, root, path)? else {
        return Ok(None);
    };
    Ok(Some(Listed::Folder(path)))
}

/// A file of a main fork.
fn page_of(
    alloc: Global,
    root: &Path,
    path: &[u8],
    size: u64,
) -> Result<Option<Listed>, OutOfMemory>
    ensures { IfOk result (λ listed. listed ≡ page_of root.now path.now size) }
{
    let Some(path) = path_in(alloc, root, path)? else {
        return Ok(None);
    };
    Ok(Some(Listed::Page(path, size)))
}

/// .. by a word, a path and a size.
fn sized(
    alloc: Global,
    root: &Path,
    words: (&[u8], &[u8], &[u8]),
) -> Result<Option<Listed>, OutOfMemory>
    ensures { IfOk result (λ listed. listed
        ≡ sized root.now words.entry.0.now words.entry.1.now words.entry.2.now) }
{
    let (verb, path, size) = words;
    if verb != b"page".as_slice() {
        return Ok(None);
    }
    let Some(size) = decimal_u64(size) else {
        return Ok(None);
    };
    page_of(alloc, root, path, size)
}

/// Whether a word is this count.
fn is_count(files: u64, word: &[u8]) -> bool
    ensures { result ≡ is_count files word.now }
{
    match decimal_u64(word) {
        Some(count) => count == files,
        None => false,
    }
}

/// Any other file.
fn file_of(
    alloc: Global,
    root: &Path,
    path: &[u8],
    size: u64,
) -> Result<Option<Listed>, OutOfMemory>
    ensures { IfOk result (λ listed. listed ≡ file_of root.now path.now size) }
{
    let Some(path) = path_in(alloc, root, path)? else {
        return Ok(None);
    };
    Ok(Some(Listed::File(path, size)))
}

/// .. by a word, a path, a size and the count of those before it.
fn counted(
    alloc: Global,
    root: &Path,
    files: u64,
    words: (&[u8], &[u8], &[u8], &[u8]),
) -> Result<Option<Listed>, OutOfMemory>
    ensures { IfOk result (λ listed. listed ≡ counted root.now files
        words.entry.0.now words.entry.1.now words.entry.2.now words.entry.3.now) }
{
    let (verb, path, size, count) = words;
    if verb != b"file".as_slice() || !is_count(files, count) {
        return Ok(None);
    }
    let Some(size) = decimal_u64(size) else {
        return Ok(None);
    };
    file_of(alloc, root, path, size)
}

/// What words say, behind lines of so many files of no main fork.
pub(crate) fn listed_of(
    alloc: Global,
    root: &Path,
    files: u64,
    words: &[&[u8]],
) -> Result<Option<Listed>, OutOfMemory>
    ensures { IfOk result (λ listed. listed
        ≡ listed_of root.now files (map (λ word. word.now) words.now)) }
{
    match words {
        [verb, path] => pathed(alloc, root, verb, path),
        [verb, path, size] => sized(alloc, root, (verb, path, size)),
        [verb, path, size, count] => counted(alloc, root, files, (verb, path, size, count)),
        [] | [_] => Ok(None),
        [_, _, _, _, _, ..] => Ok(None),
    }
}
