// Callers over any tree, proved from the trait alone.
ghost use Rattle.std.specs.Prelude.{◌≡◌, ◌≢◌, IsTrue, IsErrOf};
ghost use Rattle.cluster_tree.specs.Causes.{Rose};
ghost use Rattle.cluster_tree.specs.Frame.{Came};

use cluster_tree::{Path, Tree, TreeFault};
use std::process::Abort;

/// The verbs of the calls, one of each kind.
pub(crate) const VERBS: &str = "kind list size read write_x cut make_file make_folder remove sync";

// How a call that changes ends, by its verb.
fn changed<F: Tree, R: Abort>(
    rt: &R,
    tree: &mut F,
    verb: &str,
    path: &Path,
) -> Result<(), TreeFault> {
    match verb {
        "write_x" => tree.write_at(path, 0, b"x"),
        "cut" => tree.cut(path, 9),
        "make_file" => tree.make_file(path),
        "make_folder" => tree.make_folder(path),
        "remove" => tree.remove(path),
        "sync" => tree.sync(),
        _ => panic!(rt; "no such call"),
    }
}

// How a call on a path ends, by its verb.
pub(crate) fn ended<F: Tree, R: AllocGlobal + Abort>(
    rt: &R,
    tree: &mut F,
    verb: &str,
    path: &Path,
) -> Result<(), TreeFault> {
    match verb {
        "kind" => tree.kind(path).and(Ok(())),
        "list" => tree.list(rt.alloc(), path).and(Ok(())),
        "size" => tree.size(path).and(Ok(())),
        "read" => tree.read_at(path, 0, &mut [0; 5]),
        _ => changed(rt, tree, verb, path),
    }
}

// Cuts a file to nothing, writes these bytes and makes them durable.
pub(crate) fn rewrite<F: Tree>(tree: &mut F, file: &Path, bytes: &[u8]) -> Result<(), TreeFault>
    ensures cause { IsErrOf result TreeFault.Failed → Rose (F.failed_changes tree.old)
        (F.failed_changes tree.new) }
    ensures frame { Came F.Tree tree.old tree.new }
{
    tree.cut(file, 0)?;
    tree.write_at(file, 0, bytes)?;
    tree.sync()
}
