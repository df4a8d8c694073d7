//! Calls on the files of a cluster, and what each answers.
pub(crate) mod answers;
mod areas;
pub(crate) mod courses;
mod edits;
pub(crate) mod endless;
mod folders;
pub(crate) mod forks;

ghost use Rattle.std.specs.Prelude.{◌≤◌, length};

use crate::fault::RowFault;
use crate::records::answer_record;
use crate::texts::cut_at;
use crate::trees::path_of;
use areas::answer_area;
use cluster_tree::{Path, Tree};
use edits::answer_edit;
use folders::answer_folder;
use forks::answer_fork;
use std::alloc::Global;

// What a call of a kind on the cluster at a root answers.
fn answer_by<F: Tree>(
    alloc: Global,
    tree: &mut F,
    root: &Path,
    kind: &str,
    call: &str,
) -> Result<String, RowFault>
    requires room { length root.now.parts ≤ 61 }
{
    match kind {
        "edit" => answer_edit(alloc, tree, root, call),
        "slru" => answer_area(alloc, tree, root, call),
        "rel" => answer_fork(alloc, tree, root, call),
        "base" => answer_folder(alloc, tree, root, call),
        "blocks" | "files" => answer_record(alloc, tree, root, kind, call),
        _ => Err(RowFault::NotACall),
    }
}

/// What a call on the cluster at a root answers, by their words: `done`, or what was asked, or the text of a fault.
pub(crate) fn answer<F: Tree>(
    alloc: Global,
    tree: &mut F,
    words: &str,
) -> Result<String, RowFault> {
    let (root, behind) = cut_at(words, " ");
    let (kind, call) = cut_at(behind, " ");
    let root = path_of(alloc, root)?;
    if root.len() > 61 {
        return Err(RowFault::TooDeep);
    }
    answer_by(alloc, tree, &root, kind, call)
}
