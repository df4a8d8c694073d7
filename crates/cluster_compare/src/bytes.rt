// Files that are compared byte by byte.
ghost use Rattle.std.specs.Prelude.{◌≡◌, ◌≢◌, ◌+◌, bytes_eq, length, IfErr, IfOk, IsErrOf, IsTrue, Err};
ghost use Rattle.cluster_tree.specs.Causes.{Rose};
ghost use Rattle.cluster_tree.specs.Frame.{Reads};
ghost use Rattle.cluster_tree.specs.PathValue.{PathValue};
ghost use Rattle.cluster_tree.specs.Tree.{bytes_at};
ghost use Rattle.cluster_tree.specs.declared.file_fault.FileFault.TheVariants as file;
ghost use Rattle.cluster_compare.specs.Looks.{AreThere, IsLookFault, Reaches, part_of};

use crate::places::Files;
use crate::reading::read_both;
use cluster_tree::{FileFault, Tree};
use std::alloc::Global;

// The bytes of a piece.
const PIECE: usize = 65536;

// Whether two files have the same bytes from an offset on, as many as both buffers have.
fn same_piece<F: Tree>(
    alloc: Global,
    tree: &mut F,
    files: &Files,
    at: u64,
    here: &mut [u8],
    there: &mut [u8],
) -> Result<bool, FileFault>
    requires first { IsTrue F.tells →
        Reaches (F.contents tree.old) files.now.first.path (at + length here.old) }
    requires second { IsTrue F.tells →
        Reaches (F.contents tree.old) files.now.second.path (at + length there.old) }
    ensures value { IsTrue F.tells → IfOk result (λ same. same ≡ bytes_eq
        (part_of at (length here.old) (bytes_at (F.contents tree.old) files.now.first.path))
        (part_of at (length there.old) (bytes_at (F.contents tree.old) files.now.second.path))) }
    ensures reads { Reads F.Tree tree.old tree.new }
    ensures read_fault { IsErrOf result file.ReadFault →
        Rose (F.failed_reads tree.old) (F.failed_reads tree.new) }
    ensures changed { IsTrue F.tells → (p : PathValue) → result ≢ Err (file.Changed p) }
    ensures row { IfErr result IsLookFault }
{
    read_both(alloc, tree, files, at, here, there)?;
    Ok(*here == *there)
}

/// Whether two files have the same bytes, with the faults of `read_both`.
pub(crate) fn same_bytes<F: Tree>(
    alloc: Global,
    tree: &mut F,
    files: &Files,
) -> Result<bool, FileFault>
    requires there { IsTrue F.tells → AreThere (F.contents tree.old) files.now }
    ensures value { IsTrue F.tells → IfOk result (λ same. same ≡ bytes_eq
        (bytes_at (F.contents tree.old) files.now.first.path)
        (bytes_at (F.contents tree.old) files.now.second.path)) }
    ensures reads { Reads F.Tree tree.old tree.new }
    ensures read_fault { IsErrOf result file.ReadFault →
        Rose (F.failed_reads tree.old) (F.failed_reads tree.new) }
    ensures changed { IsTrue F.tells → (p : PathValue) → result ≢ Err (file.Changed p) }
    ensures row { IfErr result IsLookFault }
{
    let size = files.first.size;
    if size != files.second.size {
        return Ok(false);
    }
    let mut here = [0; PIECE];
    let mut there = [0; PIECE];
    let mut done = 0;
    while done < size {
        let piece = (size - done).min(PIECE as u64) as usize;
        let same = same_piece(
            alloc,
            tree,
            files,
            done,
            &mut here[..piece],
            &mut there[..piece],
        )?;
        if !same {
            return Ok(false);
        }
        done += piece as u64;
    }
    Ok(true)
}
