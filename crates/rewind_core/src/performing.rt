// The public call that carries out.
ghost use Rattle.std.specs.Prelude.{◌≢◌, IsTrue, Err, IsErrOf, OnOk};
ghost use Rattle.cluster_tree.specs.Causes.{Rose};
ghost use Rattle.cluster_tree.specs.Frame.{Came, moment_of};
ghost use Rattle.cluster_tree.specs.PathValue.{PathValue};
ghost use Rattle.cluster_tree.specs.Stops.{LeavesOnly};
ghost use Rattle.marked_runs.specs.Moments.{StandsSynced};
ghost use Rattle.marked_runs.specs.Runs.{Runs, is_done};
ghost use Rattle.rewind_writes.specs.Plan.{IsResumable, plan_changes};
ghost use Rattle.rewind_writes.specs.Steps.{AllAreFit};
ghost use Rattle.cluster_tree.specs.Contents.{Contents};
ghost use Rattle.rewind_core.specs.Fits.{IsRewound};
ghost use Rattle.rewind_core.specs.Over.{IsPlanOver};
ghost use Rattle.rewind_core.specs.Planned.{Needing};
ghost use Rattle.rewind_core.specs.Stops.{IsLeftBy};

use crate::outcome::Plan;
use cluster_tree::Tree;
use marked_runs::PerformFault;

/// Carries out a rewind that was planned, for a target without its own mark or, by `plan_anew`, for one
/// whose own mark isn't whole. Its mark, which holds the plan's text, stands from before the first other
/// change until after the last sync: a file that is made, or the one that stands there, cut to nothing.
/// It takes no memory, and writes pieces of at most 65536 bytes, but for the text.
///
/// Answers `ReadFault` only where a read failed and `WriteFault` only where a changing call did, which
/// the tree has counted, and `Changed` never where the tree tells and is as it was when this was
/// planned.
pub fn perform<F: Tree>(tree: &mut F, plan: Plan) -> Result<(), PerformFault>
    requires fit { AllAreFit plan.writes.steps.items }
    // these changes ran, in this order: all of them where it is done, else the first ones, of the last
    // perhaps a part
    ensures runs { IsTrue F.tells → (seen : Contents) (n : Needing) →
        IsPlanOver seen (F.contents tree.old) n plan →
        Runs (plan_changes (F.contents tree.old) plan.text plan.writes) (F.calls tree.old) (F.calls tree.new)
        (F.contents tree.old) (F.contents tree.new) (is_done result) }
    // then the tree below the target's root is the rewound one
    ensures rewound { IsTrue F.tells → (seen : Contents) (n : Needing) →
        IsPlanOver seen (F.contents tree.old) n plan →
        OnOk result (IsRewound seen n (F.contents tree.new)) }
    // a stop at any moment leaves it untouched, marked or rewound
    ensures stops { IsTrue F.tells → (seen : Contents) (n : Needing) →
        IsPlanOver seen (F.contents tree.old) n plan →
        LeavesOnly (IsLeftBy seen n (moment_of F.Tree tree.old)) (F.stops tree.old) (F.stops tree.new) }
    // where it begins on synced contents, what can be resumed: a mark that reads as complete holds the
    // plan's text, and all else is an image of the changes under it
    ensures resumable { IsTrue F.tells → (seen : Contents) (n : Needing) →
        IsPlanOver seen (F.contents tree.old) n plan →
        StandsSynced (F.contents tree.old) (moment_of F.Tree tree.old) → LeavesOnly
        (IsResumable seen plan.text plan.writes) (F.stops tree.old) (F.stops tree.new) }
    // and once it is done, what stands
    ensures synced { IsTrue F.tells → (seen : Contents) (n : Needing) →
        IsPlanOver seen (F.contents tree.old) n plan →
        OnOk result (StandsSynced (F.contents tree.new) (moment_of F.Tree tree.new)) }
    ensures changed { IsTrue F.tells → (seen : Contents) (n : Needing) →
        IsPlanOver seen (F.contents tree.old) n plan →
        (p : PathValue) → result ≢ Err (PerformFault.Changed p) }
    ensures frame { Came F.Tree tree.old tree.new }
    ensures read_fault { IsErrOf result PerformFault.ReadFault →
        Rose (F.failed_reads tree.old) (F.failed_reads tree.new) }
    ensures write_fault { IsErrOf result PerformFault.WriteFault →
        Rose (F.failed_changes tree.old) (F.failed_changes tree.new) }
{
    let Plan {
        told: _,
        writes,
        text,
    } = plan;
    rewind_writes::perform(tree, writes, text.as_str().as_bytes())
}
