// Whether what a list tells can be brought back.
ghost use Rattle.std.specs.Prelude.{◌≡◌, ◌≤◌, [], length, IfOk};
ghost use Rattle.replay_restore.specs.Listing.{is_file_at, is_under};
ghost use Rattle.replay_restore.specs.Loose.{UnlooseIsClosed, first_loose, has_label_first, loose_line};

use crate::listing::{has_folder, is_file_at, is_same};
use cluster_tree::{OutOfMemory, Path};
use replay_list::Listed;
use std::alloc::Global;

// Whether the folder that a path lies in is the root, or is listed.
fn is_under(alloc: Global, root: &Path, before: &[Listed], path: &Path) -> Result<bool, OutOfMemory>
    ensures value { IfOk result (λ is. is ≡ is_under root.now before.now path.now) }
{
    let above = path.front(alloc, path.len().saturating_sub(1))?;
    Ok(is_same(root, &above) || has_folder(before, &above))
}

// Whether the label is listed first.
fn has_label_first(alloc: Global, root: &Path, listed: &[Listed]) -> Result<bool, OutOfMemory>
    requires room { length root.now.parts ≤ 61 }
    ensures value { IfOk result (λ is. is ≡ has_label_first root.now listed.now) }
{
    let label = root.below(alloc, "backup_label")?;
    match listed.first() {
        None => Ok(false),
        Some(one) => Ok(is_file_at(&label, one)),
    }
}

// The first line whose path lies in no folder that is listed before it.
fn first_loose(alloc: Global, root: &Path, listed: &[Listed]) -> Result<Option<u64>, OutOfMemory>
    ensures value { IfOk result (λ line. line ≡ first_loose root.now [] listed.now) }
{
    for at in 0..listed.len() {
        if !is_under(alloc, root, &listed[..at], listed[at].path())? {
            return Ok(Some(at as u64 + 1));
        }
    }
    Ok(None)
}

/// The number, from 1, of the first line of a list that isn't at its place: the first one, where it isn't
/// that of the label, or one whose path lies neither in the root nor in a folder that is listed before it.
/// What is listed of a cluster has none; where there is none, what is listed can be brought back.
/// Answers `OutOfMemory` only for want of memory.
pub fn loose_line(alloc: Global, root: &Path, listed: &[Listed]) -> Result<Option<u64>, OutOfMemory>
    requires room { length root.now.parts ≤ 61 }
    ensures value { IfOk result (λ line. line ≡ loose_line root.now listed.now) }
{
    if has_label_first(alloc, root, listed)? {
        first_loose(alloc, root, listed)
    } else {
        Ok(Some(1))
    }
}

/// A list without such a line has the label, and the folder of each path before it.
pub fn loose_laws()
    ensures closed { UnlooseIsClosed }
{}
