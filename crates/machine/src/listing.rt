// The names in a folder of the machine.
ghost use Rattle.std.specs.Prelude.{◌≡◌, true, IfOk};
ghost use Rattle.std.specs.List.{list_all};
ghost use Rattle.cluster_tree.specs.PathValue.{is_part};
ghost use Rattle.cluster_tree.specs.Tree.{RefusesOnly, list_faults};

use crate::seen::{Seen, seen_at};
use cluster_tree::{Names, Path, TreeFault, is_part};
use std::alloc::Global;
use std::io::ErrorKind;
use std::rt::Files;
use std::{fs, io};

// The names in the folder of this text, in ascending order of their bytes.
fn sorted_names<R: Files + AllocGlobal + Clone + Drop>(
    rt: &R,
    text: &str,
) -> io::Result<Vec<String>> {
    let mut names = Vec::new(rt.alloc());
    for entry in fs::read_dir(rt, text)? {
        let name = String::from_str(rt.alloc(), entry?.file_name())?;
        names.push(name)?;
    }
    names.sort()?;
    Ok(names)
}

// The names in the folder at a path. A name that can't be a part of a path is a fault of the device.
fn names_of<R: Files + AllocGlobal + Clone + Drop>(rt: &R, path: &Path) -> io::Result<Names>
    ensures { IfOk result (λ names. list_all is_part names ≡ true) }
{
    let text = format!(in rt.alloc(); "{path}")?;
    let mut names = Names::new(rt.alloc());
    for name in &sorted_names(rt, text.as_str())? {
        if !is_part(name.as_str()) {
            return Err(ErrorKind::InvalidData.into());
        }
        if names.push(name.as_str()).is_err() {
            return Err(ErrorKind::OutOfMemory.into());
        }
    }
    Ok(names)
}

/// The names in the folder at a path, or why there are none.
pub(crate) fn list_at<R: Files + AllocGlobal + Clone + Drop>(
    rt: &R,
    alloc: Global,
    path: &Path,
) -> Result<Names, TreeFault>
    ensures row { RefusesOnly list_faults result }
    ensures parts { IfOk result (λ names. list_all is_part names ≡ true) }
{
    match seen_at(rt, alloc, path, path.len())? {
        Seen::Absent => return Err(TreeFault::Absent),
        Seen::File(_) => return Err(TreeFault::NotFolder),
        Seen::Folder => {}
        Seen::Link => return Err(TreeFault::Link),
    }
    match names_of(rt, path) {
        Ok(names) => Ok(names),
        Err(error) => Err(match error.kind() {
            ErrorKind::InvalidFilename => TreeFault::NameNotText,
            ErrorKind::OutOfMemory => TreeFault::OutOfMemory,
            _ => TreeFault::Failed,
        }),
    }
}
