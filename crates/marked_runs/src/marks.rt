// Changes that belong together: a file with its bytes, a mark and its end.
ghost use Rattle.std.specs.Prelude.{◌≡◌, ◌≢◌, [], ◌∷◌, Err, IsErrOf, IsTrue, None, OnOk};
ghost use Rattle.std.specs.FinMap.{remove};
ghost use Rattle.cluster_tree.specs.Causes.{Rose};
ghost use Rattle.cluster_tree.specs.Change.{MakesFile, Removes, Syncs, Writes, first_refusal};
ghost use Rattle.cluster_tree.specs.Stops.{LeavesOnly};
ghost use Rattle.cluster_tree.specs.Frame.{Came, moment_of};
ghost use Rattle.marked_runs.specs.Carried.{Carries};
ghost use Rattle.marked_runs.specs.Moments.{IsBegun, IsEnded, IsGone, StandsMarked, StandsSynced};
ghost use Rattle.marked_runs.specs.Runs.{begun, ended};

use crate::StepFault;
use crate::steps::{make_file, overwrite, remove_entry, sync};
use cluster_tree::{Path, Tree};

/// Makes a file with these bytes, with the answers of `remove_entry`.
pub fn write_new<F: Tree>(tree: &mut F, path: &Path, bytes: &[u8]) -> Result<(), StepFault>
    ensures carries { Carries F.Tree (MakesFile path.now ∷ Writes path.now 0 bytes.now ∷ [])
        tree.old tree.new result }
    ensures frame { Came F.Tree tree.old tree.new }
    ensures read_fault { result ≢ Err StepFault.ReadFault }
    ensures write_fault { IsErrOf result StepFault.WriteFault →
        Rose (F.failed_changes tree.old) (F.failed_changes tree.new) }
{
    match make_file(tree, path) {
        Ok(()) => overwrite(tree, path, 0, bytes),
        Err(e) => Err(e),
    }
}

/// Makes a mark with its text, and makes it durable, with the answers of `remove_entry`. A stop leaves
/// what one could have left at the start, or the mark.
pub fn begin<F: Tree>(tree: &mut F, mark: &Path, text: &[u8]) -> Result<(), StepFault>
    ensures carries { Carries F.Tree (begun mark.now text.now) tree.old tree.new result }
    ensures any_moment { IsTrue F.tells →
        first_refusal (F.contents tree.old) (begun mark.now text.now) ≡ None → LeavesOnly
        (IsBegun mark.now (moment_of F.Tree tree.old)) (F.stops tree.old) (F.stops tree.new) }
    ensures marked { IsTrue F.tells →
        first_refusal (F.contents tree.old) (begun mark.now text.now) ≡ None → OnOk result
        (StandsMarked mark.now (moment_of F.Tree tree.new)) }
    ensures frame { Came F.Tree tree.old tree.new }
    ensures read_fault { result ≢ Err StepFault.ReadFault }
    ensures write_fault { IsErrOf result StepFault.WriteFault →
        Rose (F.failed_changes tree.old) (F.failed_changes tree.new) }
{
    match write_new(tree, mark, text) {
        Ok(()) => sync(tree),
        Err(e) => Err(e),
    }
}

// Removes a mark, and makes that durable.
fn unmark<F: Tree>(tree: &mut F, mark: &Path) -> Result<(), StepFault>
    ensures carries { Carries F.Tree (Removes mark.now ∷ Syncs ∷ []) tree.old tree.new result }
    ensures any_moment { IsTrue F.tells →
        StandsSynced (F.contents tree.old) (moment_of F.Tree tree.old) → LeavesOnly
        (IsGone mark.now (F.contents tree.old)) (F.stops tree.old) (F.stops tree.new) }
    ensures synced { IsTrue F.tells →
        first_refusal (F.contents tree.old) (Removes mark.now ∷ Syncs ∷ []) ≡ None → OnOk result
        (StandsSynced (remove (F.contents tree.old) mark.now) (moment_of F.Tree tree.new)) }
    ensures frame { Came F.Tree tree.old tree.new }
    ensures read_fault { result ≢ Err StepFault.ReadFault }
    ensures write_fault { IsErrOf result StepFault.WriteFault →
        Rose (F.failed_changes tree.old) (F.failed_changes tree.new) }
{
    match remove_entry(tree, mark) {
        Ok(()) => sync(tree),
        Err(e) => Err(e),
    }
}

/// Makes all changes durable, and then removes the mark, with the answers of `remove_entry`. Where the
/// mark stands in all that a stop may leave, it leaves the mark, or all that was to be.
pub fn finish<F: Tree>(tree: &mut F, mark: &Path) -> Result<(), StepFault>
    ensures carries { Carries F.Tree (ended mark.now) tree.old tree.new result }
    ensures any_moment { IsTrue F.tells → StandsMarked mark.now (moment_of F.Tree tree.old) →
        LeavesOnly (IsEnded mark.now (remove (F.contents tree.old) mark.now)) (F.stops tree.old)
        (F.stops tree.new) }
    ensures synced { IsTrue F.tells →
        first_refusal (F.contents tree.old) (ended mark.now) ≡ None → OnOk result
        (StandsSynced (remove (F.contents tree.old) mark.now) (moment_of F.Tree tree.new)) }
    ensures frame { Came F.Tree tree.old tree.new }
    ensures read_fault { result ≢ Err StepFault.ReadFault }
    ensures write_fault { IsErrOf result StepFault.WriteFault →
        Rose (F.failed_changes tree.old) (F.failed_changes tree.new) }
{
    match sync(tree) {
        Ok(()) => unmark(tree, mark),
        Err(e) => Err(e),
    }
}
