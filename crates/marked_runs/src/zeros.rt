// A range of zeros, written piece by piece.
ghost use Rattle.std.specs.Prelude.{◌≡◌, ◌≢◌, ◌+◌, ◌<◌, ◌≤◌, ◌^◌, ◌++◌, [], ◌∷◌, Err, IsErrOf, length, replicate, take};
ghost use Rattle.cluster_tree.specs.Causes.{Rose};
ghost use Rattle.cluster_tree.specs.Change.{MakesFile, Writes};
ghost use Rattle.cluster_tree.specs.Frame.{Came};
ghost use Rattle.marked_runs.specs.Carried.{Carries};
ghost use Rattle.marked_runs.specs.Runs.{writes_at};

use crate::StepFault;
use crate::marks::write_new;
use crate::steps::overwrite;
use cluster_tree::{Path, Tree};

// The bytes of a piece.
const PIECE: usize = 65536;

// The first of some bytes, so many.
fn first(bytes: &[u8], size: usize) -> &[u8]
    requires { size ≤ length bytes.now }
    ensures { result.now ≡ take size bytes.now }
{
    &bytes[..size]
}

/// Writes zeros over the bytes of a file from the offset `at` on, so many, with the answers of
/// `remove_entry`. A write has at most 65536 bytes, and they are one range once joined.
pub fn fill_zeros<F: Tree>(tree: &mut F, path: &Path, at: u64, size: u64) -> Result<(), StepFault>
    requires { at + size < 2 ^ 64 }
    ensures carries { Carries F.Tree (writes_at path.now at (replicate size 0)) tree.old tree.new
        result }
    ensures frame { Came F.Tree tree.old tree.new }
    ensures read_fault { result ≢ Err StepFault.ReadFault }
    ensures write_fault { IsErrOf result StepFault.WriteFault →
        Rose (F.failed_changes tree.old) (F.failed_changes tree.new) }
{
    let zeros = [0; PIECE];
    let mut done = 0;
    while done < size {
        let piece = (size - done).min(PIECE as u64) as usize;
        match overwrite(tree, path, at + done, first(&zeros, piece)) {
            Ok(()) => done += piece as u64,
            Err(e) => return Err(e),
        }
    }
    Ok(())
}

/// Makes a file with these bytes and so many zeros behind them, with the answers of `remove_entry`:
/// one range once joined.
pub fn write_padded<F: Tree>(
    tree: &mut F,
    path: &Path,
    bytes: &[u8],
    zeros: u64,
) -> Result<(), StepFault>
    requires { length bytes.now + zeros < 2 ^ 64 }
    ensures carries { Carries F.Tree
        (MakesFile path.now ∷ Writes path.now 0 (bytes.now ++ replicate zeros 0) ∷ [])
        tree.old tree.new result }
    ensures frame { Came F.Tree tree.old tree.new }
    ensures read_fault { result ≢ Err StepFault.ReadFault }
    ensures write_fault { IsErrOf result StepFault.WriteFault →
        Rose (F.failed_changes tree.old) (F.failed_changes tree.new) }
{
    match write_new(tree, path, bytes) {
        Ok(()) => fill_zeros(tree, path, bytes.len() as u64, zeros),
        Err(e) => Err(e),
    }
}
