//! Trees in memory from short lines. A line that can't be taken ends the test.
ghost use Rattle.std.specs.Prelude.{◌≤◌, length};

use cluster_tree::{Names, Path, Tree};
use memory_tree::{FailPlan, MemoryTree};
use std::process::Abort;

/// The path of a text.
pub(crate) fn path_of<R: AllocGlobal + Abort>(rt: &R, text: &str) -> Path {
    Path::parse(rt.alloc(), text).expect(rt, "no path")
}

/// The path of a cluster's root, or of the folder of a log.
pub(crate) fn root_of<R: AllocGlobal + Abort>(rt: &R, text: &str) -> Path
    ensures { length result.parts ≤ 61 }
{
    tree_lines::root_of(rt.alloc(), text).expect(rt, "no root")
}

/// The plan where the call of a number fails, none for 0.
pub(crate) fn plan_of<R: Abort>(rt: &R, number: &str) -> FailPlan {
    tree_lines::plan_of(number).expect(rt, "no plan")
}

/// The names in a folder.
pub(crate) fn names_in<R: AllocGlobal + Abort>(
    rt: &R,
    tree: &mut MemoryTree,
    folder: &str,
) -> Names {
    tree.list(rt.alloc(), &path_of(rt, folder))
        .expect(rt, "no folder")
}

/// Makes a file of these bytes.
pub(crate) fn put_file<R: AllocGlobal + Abort>(
    rt: &R,
    tree: &mut MemoryTree,
    path: &str,
    bytes: &[u8],
) {
    tree_lines::put_file(rt.alloc(), tree, path, bytes).expect(rt, "no file");
}

/// Carries out lines in turn, none for a dash.
pub(crate) fn put_all<R: AllocGlobal + Abort>(rt: &R, tree: &mut MemoryTree, lines: &str) {
    tree_lines::put_all(rt.alloc(), tree, lines).expect(rt, "no lines");
}

/// The tree that lines make.
pub(crate) fn tree_of<R: AllocGlobal + Abort>(rt: &R, lines: &str) -> MemoryTree {
    tree_lines::tree_of(rt.alloc(), lines).expect(rt, "no tree")
}
