// Removing an entry of the machine.
ghost use Rattle.cluster_tree.specs.Tree.{RefusesOnly, remove_faults};

use crate::seen::{Seen, seen_at};
use cluster_tree::{Path, TreeFault};
use std::alloc::Global;
use std::io::ErrorKind;
use std::rt::Files;
use std::{fs, io};

fn remove_file<R: Files>(rt: &R, alloc: Global, path: &Path) -> io::Result<()> {
    let text = format!(in alloc; "{path}")?;
    fs::remove_file(rt, text.as_str())
}

fn remove_folder<R: Files>(rt: &R, alloc: Global, path: &Path) -> io::Result<()> {
    let text = format!(in alloc; "{path}")?;
    fs::remove_dir(rt, text.as_str())
}

/// Removes the file or the empty folder at a path.
pub(crate) fn remove_at<R: Files>(rt: &R, alloc: Global, path: &Path) -> Result<(), TreeFault>
    ensures { RefusesOnly remove_faults result }
{
    let removed = match seen_at(rt, alloc, path, path.len())? {
        Seen::Absent => return Err(TreeFault::Absent),
        Seen::Link => return Err(TreeFault::Link),
        Seen::Folder if path.len() == 0 => return Err(TreeFault::NotEmpty),
        Seen::Folder => remove_folder(rt, alloc, path),
        Seen::File(_) => remove_file(rt, alloc, path),
    };
    match removed {
        Ok(()) => Ok(()),
        Err(error) if error.kind() == ErrorKind::DirectoryNotEmpty => Err(TreeFault::NotEmpty),
        Err(_) => Err(TreeFault::Failed),
    }
}
