// A rewind that was broken off, done again by its plan.
ghost use Rattle.std.specs.Prelude.{◌≡◌, ◌≢◌, Err, IsErrOf, IsTrue, None, OnOk};
ghost use Rattle.cluster_tree.specs.Causes.{Rose};
ghost use Rattle.cluster_tree.specs.Change.{first_refusal};
ghost use Rattle.cluster_tree.specs.Contents.{Contents};
ghost use Rattle.cluster_tree.specs.Frame.{Came, moment_of};
ghost use Rattle.cluster_tree.specs.PathValue.{PathValue};
ghost use Rattle.cluster_tree.specs.Stops.{LeavesOnly};
ghost use Rattle.marked_runs.specs.Moments.{StandsSynced};
ghost use Rattle.rewind_writes.specs.Steps.{AllAreFit};
ghost use Rattle.resumed_laws.specs.Resumed.{resumed_changes};
ghost use Rattle.resumed_writes.specs.Again.{AreReadable, EndsMarked, IsOnWayOrFinished, IsResumable, StaysMarked, StopsMarked, StopsSynced, SyncsAgain, SyncsMarked, TakesBodyAgain, TakesSynced, finished_of};
ghost use Rattle.resumed_writes.specs.Tried.{Tries};

use crate::StoredPerformFault;
use crate::changing::sync;
use crate::closing::{put_closing, unmark};
use crate::stepping::take_all;
use cluster_tree::Tree;
use rewind_writes::{FileBytes, Plan, Step};
use std::collections::VecDeque;

// All that is changed again under the mark.
fn put_body<F: Tree>(
    tree: &mut F,
    steps: VecDeque<Step>,
    label: FileBytes,
    control: FileBytes,
) -> Result<(), StoredPerformFault>
    requires fit { AllAreFit steps.items }
    ensures takes { TakesBodyAgain F.Tree steps.items label control tree.old tree.new result }
    ensures frame { Came F.Tree tree.old tree.new }
    ensures read_fault { IsErrOf result StoredPerformFault.ReadFault →
        Rose (F.failed_reads tree.old) (F.failed_reads tree.new) }
    ensures write_fault { IsErrOf result StoredPerformFault.WriteFault →
        Rose (F.failed_changes tree.old) (F.failed_changes tree.new) }
{
    match take_all(tree, steps) {
        Ok(()) => put_closing(tree, label, control),
        Err(fault) => Err(fault),
    }
}

// All that is changed again once what the stop left is synced.
fn perform_synced<F: Tree>(tree: &mut F, plan: Plan) -> Result<(), StoredPerformFault>
    requires fit { AllAreFit plan.steps.items }
    ensures takes { TakesSynced F.Tree plan tree.old tree.new result }
    ensures stops { StopsSynced F.Tree plan tree.old tree.new }
    ensures synced { SyncsAgain F.Tree plan tree.old tree.new result }
    ensures marked { EndsMarked F.Tree plan tree.old tree.new }
    ensures frame { Came F.Tree tree.old tree.new }
    ensures read_fault { IsErrOf result StoredPerformFault.ReadFault →
        Rose (F.failed_reads tree.old) (F.failed_reads tree.new) }
    ensures write_fault { IsErrOf result StoredPerformFault.WriteFault →
        Rose (F.failed_changes tree.old) (F.failed_changes tree.new) }
{
    let Plan {
        mark,
        steps,
        label,
        control,
    } = plan;
    match put_body(tree, steps, label, control) {
        Ok(()) => unmark(tree, mark),
        Err(fault) => Err(fault),
    }
}

/// Carries out a rewind again that was broken off under its mark, by the plan of its first run: a
/// sync, each step by what stands just before it, the label, the control file, and the mark's end. It
/// takes no memory, and writes pieces of at most 65536 bytes, but the label and the control file each
/// at once.
///
/// Where the tree tells and each file that a step reads is there and long enough, these changes ran in
/// turn: all of them where it is done, else the first ones, of the last perhaps a part. Then
/// `TargetDiffers` comes exactly at the first change that what stands refuses, with its path, and
/// what was changed before stays; `Changed` never comes. `ReadFault` comes only where a read failed and
/// `WriteFault` only where a changing call did, which the tree has counted.
///
/// Where the plan is sound and what stands and all that a stop may leave is between its start and its
/// end, a stop at any moment leaves what is so and has the mark, or what the first run would have left;
/// and nothing else than that once it is done.
///
/// Where no more is known than that the mark stands, that each file that a step reads is there and long
/// enough, and that no change under the mark is on it, a stop at any moment leaves what one could have
/// left at the start, the mark, or all that these changes make, and nothing else than that once it is
/// done. Where the target refuses a change the mark stands.
pub fn perform_stored<F: Tree>(tree: &mut F, plan: Plan) -> Result<(), StoredPerformFault>
    requires fit { AllAreFit plan.steps.items }
    ensures tries { AreReadable (F.contents tree.old) plan.steps.items →
        Tries F.Tree (resumed_changes (F.contents tree.old) plan) tree.old tree.new result }
    ensures unrefused { IsTrue F.tells → AreReadable (F.contents tree.old) plan.steps.items →
        first_refusal (F.contents tree.old) (resumed_changes (F.contents tree.old) plan) ≡ None →
        (path : PathValue) → result ≢ Err (StoredPerformFault.TargetDiffers path) }
    ensures stops { IsTrue F.tells → (found c : Contents) →
        IsResumable found c plan (moment_of F.Tree tree.old) →
        LeavesOnly (IsOnWayOrFinished found c plan) (F.stops tree.old) (F.stops tree.new) }
    ensures synced { IsTrue F.tells → (found c : Contents) →
        IsResumable found c plan (moment_of F.Tree tree.old) →
        OnOk result (StandsSynced (finished_of found c plan) (moment_of F.Tree tree.new)) }
    ensures marked { StopsMarked F.Tree plan tree.old tree.new }
    ensures ended { SyncsMarked F.Tree plan tree.old tree.new result }
    ensures stays { StaysMarked F.Tree plan tree.old tree.new result }
    ensures frame { Came F.Tree tree.old tree.new }
    ensures read_fault { IsErrOf result StoredPerformFault.ReadFault →
        Rose (F.failed_reads tree.old) (F.failed_reads tree.new) }
    ensures write_fault { IsErrOf result StoredPerformFault.WriteFault →
        Rose (F.failed_changes tree.old) (F.failed_changes tree.new) }
{
    match sync(tree) {
        Ok(()) => perform_synced(tree, plan),
        Err(fault) => Err(fault),
    }
}
