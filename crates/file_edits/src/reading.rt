// The bytes of a file, which read as zeros past its end.
ghost use Rattle.std.specs.Prelude.{◌≡◌, ◌≢◌, ◌+◌, ◌≤◌, length, take, drop, IsTrue, Ok, Err, IsErrOf, OnOk, IfErr};
ghost use Rattle.cluster_tree.specs.PathValue.{PathValue};
ghost use Rattle.cluster_tree.specs.Contents.{entry_at, is_file};
ghost use Rattle.cluster_tree.specs.Tree.{bytes_at};
ghost use Rattle.cluster_tree.specs.Causes.{MeetsInto, Rose};
ghost use Rattle.cluster_tree.specs.Frame.{Reads};
ghost use Rattle.file_edits.specs.Answers.{IsFree};
ghost use Rattle.file_edits.specs.Asking.{read_asked};

use crate::asking::file_size;
use cluster_tree::{FileFault, Path, Tree, TreeFault};
use std::alloc::Global;

// Fills `into` with the bytes of a file that are there.
#[tactic(auto, using(crate::proofs::ReadLemmas::there_steps))]
fn read_there<F: Tree>(
    alloc: Global,
    tree: &mut F,
    path: &Path,
    at: u64,
    into: &mut [u8],
) -> Result<(), FileFault>
    ensures exact { IsTrue F.tells →
        IsTrue (is_file (entry_at (F.contents tree.old) path.now)) →
        at + length into.old ≤ length (bytes_at (F.contents tree.old) path.now) →
        MeetsInto IsFree (Ok (take (length into.old)
        (drop at (bytes_at (F.contents tree.old) path.now)))) into.new result }
    ensures frame { Reads F.Tree tree.old tree.new }
    ensures read_fault { IsErrOf result FileFault.ReadFault →
        Rose (F.failed_reads tree.old) (F.failed_reads tree.new) }
    ensures write_fault { result ≢ Err FileFault.WriteFault }
{
    match tree.read_at(path, at, into) {
        Ok(()) => Ok(()),
        Err(TreeFault::Failed) => Err(FileFault::ReadFault),
        Err(_) => Err(FileFault::Changed(path.copy(alloc)?)),
    }
}

/// Fills `into` with the bytes of the file at a path from the offset `at` on, and with zeros past its
/// end, or where nothing stands. Answers `IsFolder` or `Link` where something else does. What `into`
/// holds after a fault is open.
pub fn read_or_zeros<F: Tree>(
    alloc: Global,
    tree: &mut F,
    path: &Path,
    at: u64,
    into: &mut [u8],
) -> Result<(), FileFault>
    ensures exact { IsTrue F.tells → MeetsInto IsFree
        (read_asked (F.contents tree.old) path.now at (length into.old)) into.new result }
    ensures frame { Reads F.Tree tree.old tree.new }
    ensures read_fault { IsErrOf result FileFault.ReadFault →
        Rose (F.failed_reads tree.old) (F.failed_reads tree.new) }
    ensures write_fault { result ≢ Err FileFault.WriteFault }
    ensures changed { IsTrue F.tells → (p : PathValue) → result ≢ Err (FileFault.Changed p) }
{
    into.fill(0);
    let size = file_size(alloc, tree, path)?.unwrap_or(0);
    let behind = size.saturating_sub(at);
    if behind == 0 {
        return Ok(());
    }
    let count = behind.min(into.len() as u64) as usize;
    read_there(alloc, tree, path, at, &mut into[..count])
}
