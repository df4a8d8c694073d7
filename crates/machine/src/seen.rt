// What the machine has at a path, looked at part by part.
ghost use Rattle.std.specs.Prelude.{[]};
ghost use Rattle.cluster_tree.specs.Tree.{RefusesOnly, file_faults, make_faults};

use cluster_tree::{Path, TreeFault};
use std::alloc::Global;
use std::io::ErrorKind;
use std::rt::Files;
use std::{fs, io};

/// What stands at a path of the machine.
#[derive(Clone, Copy, PartialEq, Eq)]
pub(crate) enum Seen {
    Absent,
    /// A file of this many bytes.
    File(u64),
    Folder,
    /// A link, which is not followed, or a special file.
    Link,
}

// What stands at a path of this text, whose folder was looked at.
fn look<R: Files>(rt: &R, text: &str) -> io::Result<Seen> {
    match fs::symlink_metadata(rt, text) {
        Ok(entry) if entry.is_dir() => Ok(Seen::Folder),
        Ok(entry) if entry.is_file() => Ok(Seen::File(entry.len())),
        Ok(_) => Ok(Seen::Link),
        Err(error) => match error.kind() {
            ErrorKind::NotFound | ErrorKind::NotADirectory | ErrorKind::InvalidFilename => {
                Ok(Seen::Absent)
            }
            _ => Err(error),
        },
    }
}

// What stands at the first `count` parts of a path. Below what is no folder there is nothing, so
// that no link is followed.
fn walk<R: Files>(rt: &R, alloc: Global, path: &Path, count: usize) -> io::Result<Seen> {
    let mut text = String::from_str(alloc, if path.is_absolute() { "" } else { "." })?;
    let mut seen = Seen::Folder;
    for at in 0..count {
        let Some(part) = path.part(at) else {
            return Ok(seen);
        };
        if seen != Seen::Folder {
            return Ok(Seen::Absent);
        }
        text.push('/')?;
        text.push_str(part)?;
        seen = look(rt, text.as_str())?;
    }
    Ok(seen)
}

/// What stands at the first `count` parts of a path, or `Failed`.
pub(crate) fn seen_at<R: Files>(
    rt: &R,
    alloc: Global,
    path: &Path,
    count: usize,
) -> Result<Seen, TreeFault>
    ensures { RefusesOnly [] result }
{
    match walk(rt, alloc, path, count) {
        Ok(seen) => Ok(seen),
        Err(_) => Err(TreeFault::Failed),
    }
}

/// The size of the file at a path, or why there is none.
pub(crate) fn size_at<R: Files>(rt: &R, alloc: Global, path: &Path) -> Result<u64, TreeFault>
    ensures { RefusesOnly file_faults result }
{
    match seen_at(rt, alloc, path, path.len())? {
        Seen::Absent => Err(TreeFault::Absent),
        Seen::File(size) => Ok(size),
        Seen::Folder => Err(TreeFault::IsFolder),
        Seen::Link => Err(TreeFault::Link),
    }
}

/// Why nothing can be made at a path, if so.
pub(crate) fn check_room<R: Files>(rt: &R, alloc: Global, path: &Path) -> Result<(), TreeFault>
    ensures { RefusesOnly make_faults result }
{
    if seen_at(rt, alloc, path, path.len())? != Seen::Absent {
        return Err(TreeFault::Exists);
    }
    match seen_at(rt, alloc, path, path.len().saturating_sub(1))? {
        Seen::Absent => Err(TreeFault::Absent),
        Seen::File(_) => Err(TreeFault::NotFolder),
        Seen::Folder => Ok(()),
        Seen::Link => Err(TreeFault::Link),
    }
}
