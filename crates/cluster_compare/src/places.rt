// Where a path lies below the roots of two clusters.
ghost use Rattle.std.specs.Prelude.{◌≡◌, ◌≢◌, ◌+◌, ◌≤◌, length, IfOk, IfErr, Err};
ghost use Rattle.cluster_tree.specs.PathValue.{PathValue, below};
ghost use Rattle.cluster_tree.specs.declared.file_fault.FileFault.TheVariants as file;
ghost use Rattle.cluster_compare.specs.Looks.{IsLookFault};

use cluster_tree::{FileFault, OutOfMemory, Path};
use std::alloc::Global;

/// How many parts a path has at most.
const MAX_PARTS: usize = 64;

/// Two clusters, by their roots, and how many blocks a file of theirs has at most.
#[derive(Clone, Copy)]
pub(crate) struct Clusters<'a> {
    pub(crate) first: &'a Path,
    pub(crate) second: &'a Path,
    pub(crate) per_file: u32,
}

/// A file that a walk told of: its path in the tree, and its size in bytes.
#[derive(Drop)]
pub(crate) struct FileAt {
    pub(crate) path: Path,
    pub(crate) size: u64,
}

/// The files at one path in both clusters.
#[derive(Drop)]
pub(crate) struct Files {
    pub(crate) first: FileAt,
    pub(crate) second: FileAt,
}

// The path in the tree of a path from a root on.
fn place(alloc: Global, root: &Path, path: &Path) -> Result<Path, OutOfMemory>
    requires room { length root.now.parts + length path.now.parts ≤ 64 }
    ensures { IfOk result (λ place. place ≡ below root.now path.now.parts) }
{
    let mut place = root.copy(alloc)?;
    for at in 0..path.len() {
        let Some(part) = path.part(at) else {
            unreachable!()
        };
        place = place.below(alloc, part)?;
    }
    Ok(place)
}

/// A file at a path from a root on. Answers `Changed` with this path where it has more than 64
/// parts with those of the root, of which no walk has told.
pub(crate) fn file_at(
    alloc: Global,
    root: &Path,
    path: &Path,
    size: u64,
) -> Result<FileAt, FileFault>
    ensures path { IfOk result (λ found. found.path ≡ below root.now path.now.parts) }
    ensures size { IfOk result (λ found. found.size ≡ size) }
    ensures changed { length root.now.parts + length path.now.parts ≤ 64 → (p : PathValue) →
        result ≢ Err (file.Changed p) }
    ensures read { result ≢ Err file.ReadFault }
    ensures row { IfErr result IsLookFault }
{
    if root.len() + path.len() > MAX_PARTS {
        return Err(FileFault::Changed(path.copy(alloc)?));
    }
    Ok(FileAt {
        path: place(alloc, root, path)?,
        size,
    })
}
