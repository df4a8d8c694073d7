// Bytes of the files at one path in two clusters.
ghost use Rattle.std.specs.Prelude.{◌≡◌, ◌≢◌, ◌+◌, length, IfErr, IsErrOf, IsTrue, OnOk, Err};
ghost use Rattle.cluster_tree.specs.Causes.{Rose};
ghost use Rattle.cluster_tree.specs.Frame.{Reads};
ghost use Rattle.cluster_tree.specs.PathValue.{PathValue};
ghost use Rattle.cluster_tree.specs.Tree.{bytes_at};
ghost use Rattle.cluster_tree.specs.declared.file_fault.FileFault.TheVariants as file;
ghost use Rattle.cluster_compare.specs.Looks.{IsLookFault, Reaches, part_of};

use crate::places::Files;
use cluster_tree::{FileFault, Path, Tree, TreeFault};
use std::alloc::Global;

// Fills a buffer with the bytes of a file from an offset on.
fn read<F: Tree>(
    alloc: Global,
    tree: &mut F,
    path: &Path,
    at: u64,
    into: &mut [u8],
) -> Result<(), FileFault>
    requires there { IsTrue F.tells →
        Reaches (F.contents tree.old) path.now (at + length into.old) }
    ensures filled { IsTrue F.tells → OnOk result
        (into.new ≡ part_of at (length into.old) (bytes_at (F.contents tree.old) path.now)) }
    ensures reads { Reads F.Tree tree.old tree.new }
    ensures read_fault { IsErrOf result file.ReadFault →
        Rose (F.failed_reads tree.old) (F.failed_reads tree.new) }
    ensures changed { IsTrue F.tells → (p : PathValue) → result ≢ Err (file.Changed p) }
    ensures row { IfErr result IsLookFault }
{
    match tree.read_at(path, at, into) {
        Ok(()) => Ok(()),
        Err(TreeFault::Failed) => Err(FileFault::ReadFault),
        Err(_) => Err(FileFault::Changed(path.copy(alloc)?)),
    }
}

/// Fills two buffers with the bytes of the files from an offset on. Answers `ReadFault` where a
/// read failed, `Changed` with the file's path where the tree refuses one, and `OutOfMemory` where
/// there is no memory to say so.
pub(crate) fn read_both<F: Tree>(
    alloc: Global,
    tree: &mut F,
    files: &Files,
    at: u64,
    here: &mut [u8],
    there: &mut [u8],
) -> Result<(), FileFault>
    requires first { IsTrue F.tells →
        Reaches (F.contents tree.old) files.now.first.path (at + length here.old) }
    requires second { IsTrue F.tells →
        Reaches (F.contents tree.old) files.now.second.path (at + length there.old) }
    ensures first { IsTrue F.tells → OnOk result (here.new
        ≡ part_of at (length here.old) (bytes_at (F.contents tree.old) files.now.first.path)) }
    ensures second { IsTrue F.tells → OnOk result (there.new
        ≡ part_of at (length there.old) (bytes_at (F.contents tree.old) files.now.second.path)) }
    ensures reads { Reads F.Tree tree.old tree.new }
    ensures read_fault { IsErrOf result file.ReadFault →
        Rose (F.failed_reads tree.old) (F.failed_reads tree.new) }
    ensures changed { IsTrue F.tells → (p : PathValue) → result ≢ Err (file.Changed p) }
    ensures row { IfErr result IsLookFault }
{
    read(alloc, tree, &files.first.path, at, here)?;
    read(alloc, tree, &files.second.path, at, there)
}
