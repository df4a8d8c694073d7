// A rewind that is made, between its lines.
ghost use Rattle.std.specs.Prelude.{◌≡◌, ◌≢◌, ◌≤◌, ◌⊎◌, [], ◌∷◌, Bool, Err, IfErr, IsErrOf, IsTrue, OnOk};
ghost use Rattle.cluster_tree.specs.Causes.{Rose};
ghost use Rattle.cluster_tree.specs.Contents.{Contents};
ghost use Rattle.cluster_tree.specs.Frame.{Came, moment_of};
ghost use Rattle.cluster_tree.specs.PathValue.{PathValue};
ghost use Rattle.cluster_tree.specs.Stops.{LeavesOnly};
ghost use Rattle.marked_runs.specs.Moments.{StandsSynced};
ghost use Rattle.rewind_writes.specs.Plan.{IsResumable};
ghost use Rattle.rewind_writes.specs.Steps.{AllAreFit};
ghost use Rattle.rewind_core.specs.Fits.{IsRewound};
ghost use Rattle.rewind_core.specs.Over.{IsPlanOver};
ghost use Rattle.rewind_core.specs.Planned.{Needing};
ghost use Rattle.rewind_core.specs.Stops.{IsLeftBy};
ghost use Rattle.acts.specs.Acts.{Report, Sunk, seen, sunk};
ghost use Rattle.run_acts.specs.Causes.{cause_of};
ghost use Rattle.run_acts.specs.Unseen.{PerformsUnseen};
ghost use Rattle.cmd_rewind.specs.Tasks.{IsOfMaking, made_of};

use crate::reports::all_done;
use cluster_causes::perform_cause;
use cluster_tree::{Sink, Tree};
use rewind_core::{Plan, perform};
use run_acts::{Cause, tell};

// Carries out a plan, and tells that it is done.
fn make<F: Tree, E: Sink>(tree: &mut F, err: &mut E, plan: Plan) -> Result<(), Cause>
    requires fit { AllAreFit plan.writes.steps.items }
    requires planned { IsTrue F.tells → (view : Contents) × (n : Needing) ×
        IsPlanOver view (F.contents tree.old) n plan }
    ensures performs { (out_tells : Bool) (out : Sunk) → PerformsUnseen (IsTrue F.tells)
        out_tells E.tells (cause_of result) (made_of plan)
        (seen (F.contents tree.old) (F.calls tree.old) out
        (sunk (E.written err.old) (E.failed_writes err.old)))
        (seen (F.contents tree.new) (F.calls tree.new) out
        (sunk (E.written err.new) (E.failed_writes err.new))) }
    ensures rewound { IsTrue F.tells → (view : Contents) (n : Needing) →
        IsPlanOver view (F.contents tree.old) n plan →
        OnOk result (IsRewound view n (F.contents tree.new)) }
    ensures stops { IsTrue F.tells → (view : Contents) (n : Needing) →
        IsPlanOver view (F.contents tree.old) n plan →
        LeavesOnly (IsLeftBy view n (moment_of F.Tree tree.old)) (F.stops tree.old) (F.stops tree.new) }
    ensures resumable { IsTrue F.tells → (view : Contents) (n : Needing) →
        IsPlanOver view (F.contents tree.old) n plan →
        StandsSynced (F.contents tree.old) (moment_of F.Tree tree.old) → LeavesOnly
        (IsResumable view plan.text plan.writes) (F.stops tree.old) (F.stops tree.new) }
    ensures synced { IsTrue F.tells → (view : Contents) (n : Needing) →
        IsPlanOver view (F.contents tree.old) n plan →
        OnOk result (StandsSynced (F.contents tree.new) (moment_of F.Tree tree.new)) }
    ensures only { IfErr result IsOfMaking }
    ensures changed { IsTrue F.tells → (p : PathValue) → result ≢ Err (Cause.Changed p) }
    ensures frame { Came F.Tree tree.old tree.new }
    ensures read_fault { IsErrOf result Cause.ReadFault →
        Rose (F.failed_reads tree.old) (F.failed_reads tree.new) }
    ensures write_fault { IsErrOf result Cause.WriteFault →
        Rose (F.failed_changes tree.old) (F.failed_changes tree.new) }
    ensures later { E.failed_writes err.old ≤ E.failed_writes err.new }
    ensures sink_fault { IsErrOf result Cause.SinkFault →
        Rose (E.failed_writes err.old) (E.failed_writes err.new) }
{
    match perform(tree, plan) {
        Ok(()) => tell(err, all_done()),
        Err(fault) => Err(perform_cause(fault)),
    }
}

/// Carries out a plan, behind two lines on `err` and before the last one. All memory is taken.
///
/// Answers `SinkFault` where a line failed, before the changes or behind them; `ReadFault` and
/// `WriteFault` where a call of the tree failed, among them, and `Changed` where it refuses one; each
/// fault only where it was counted.
pub(crate) fn make_told<F: Tree, E: Sink>(
    tree: &mut F,
    err: &mut E,
    first: &str,
    second: &str,
    plan: Plan,
) -> Result<(), Cause>
    requires fit { AllAreFit plan.writes.steps.items }
    requires planned { IsTrue F.tells → (view : Contents) × (n : Needing) ×
        IsPlanOver view (F.contents tree.old) n plan }
    ensures performs { (out_tells : Bool) (out : Sunk) → PerformsUnseen (IsTrue F.tells)
        out_tells E.tells (cause_of result)
        (λ c. Report first.now ∷ Report second.now ∷ made_of plan c)
        (seen (F.contents tree.old) (F.calls tree.old) out
        (sunk (E.written err.old) (E.failed_writes err.old)))
        (seen (F.contents tree.new) (F.calls tree.new) out
        (sunk (E.written err.new) (E.failed_writes err.new))) }
    ensures rewound { IsTrue F.tells → (view : Contents) (n : Needing) →
        IsPlanOver view (F.contents tree.old) n plan →
        OnOk result (IsRewound view n (F.contents tree.new)) }
    ensures stops { IsTrue F.tells → (view : Contents) (n : Needing) →
        IsPlanOver view (F.contents tree.old) n plan →
        LeavesOnly (IsLeftBy view n (moment_of F.Tree tree.old)) (F.stops tree.old) (F.stops tree.new) }
    ensures resumable { IsTrue F.tells → (view : Contents) (n : Needing) →
        IsPlanOver view (F.contents tree.old) n plan →
        StandsSynced (F.contents tree.old) (moment_of F.Tree tree.old) → LeavesOnly
        (IsResumable view plan.text plan.writes) (F.stops tree.old) (F.stops tree.new) }
    ensures synced { IsTrue F.tells → (view : Contents) (n : Needing) →
        IsPlanOver view (F.contents tree.old) n plan →
        OnOk result (StandsSynced (F.contents tree.new) (moment_of F.Tree tree.new)) }
    ensures only { IfErr result IsOfMaking }
    ensures changed { IsTrue F.tells → (p : PathValue) → result ≢ Err (Cause.Changed p) }
    ensures frame { Came F.Tree tree.old tree.new }
    ensures read_fault { IsErrOf result Cause.ReadFault →
        Rose (F.failed_reads tree.old) (F.failed_reads tree.new) }
    ensures write_fault { IsErrOf result Cause.WriteFault →
        Rose (F.failed_changes tree.old) (F.failed_changes tree.new) }
    ensures later { E.failed_writes err.old ≤ E.failed_writes err.new }
    ensures sink_fault { IsErrOf result Cause.SinkFault →
        Rose (E.failed_writes err.old) (E.failed_writes err.new) }
{
    tell(err, first)?;
    tell(err, second)?;
    make(tree, err, plan)
}
