// A rewind that is made again, between its lines.
ghost use Rattle.std.specs.Prelude.{◌≡◌, ◌≢◌, ◌≤◌, ◌⊎◌, Bool, Err, IfErr, IsErrOf, IsTrue, OnOk};
ghost use Rattle.cluster_tree.specs.Causes.{Rose};
ghost use Rattle.cluster_tree.specs.Contents.{Contents};
ghost use Rattle.cluster_tree.specs.Frame.{Came, moment_of};
ghost use Rattle.cluster_tree.specs.PathValue.{PathValue};
ghost use Rattle.cluster_tree.specs.Stops.{LeavesOnly};
ghost use Rattle.marked_runs.specs.Moments.{IsMarked, IsSafe, StandsSynced};
ghost use Rattle.resumed_laws.specs.Resumed.{resumed_changes};
ghost use Rattle.resumed_writes.specs.Again.{AreReadable, IsOnWayOrFinished, IsResumable, resumed_end};
ghost use Rattle.resume_core.specs.Stored.{IsStoredBetween};
ghost use Rattle.acts.specs.Acts.{Sunk, seen, sunk};
ghost use Rattle.run_acts.specs.Causes.{cause_of, is_of_files};
ghost use Rattle.run_acts.specs.Unseen.{CarriesUnseen};
ghost use Rattle.cmd_resume.specs.Calls.{MakesTried};
ghost use Rattle.cmd_resume.specs.Rests.{IsBehind, IsRest, again_rest};
ghost use Rattle.cmd_resume.specs.Resume.{behind_line};

use crate::causes::again_cause;
use cluster_tree::{Path, Sink, Tree};
use cmd_rewind::all_done;
use plan_text::StoredPlan;
use resumed_writes::perform_stored;
use run_acts::{Cause, tell};
use std::alloc::Global;

// Makes what is stored again, and tells that it is done.
fn make<F: Tree, E: Sink>(
    alloc: Global,
    tree: &mut F,
    err: &mut E,
    target: &Path,
    stored: StoredPlan,
) -> Result<(), Cause>
    requires between { (source : PathValue) × IsStoredBetween target.now source stored }
    requires readable { IsTrue F.tells → AreReadable (F.contents tree.old) stored.plan.steps.items }
    requires marked { IsTrue F.tells → IsMarked stored.plan.mark (F.contents tree.old) }
    ensures carries { (out_tells : Bool) (out : Sunk) → CarriesUnseen (IsTrue F.tells)
        (IsTrue F.tells) (again_rest target.now (F.contents tree.old) stored.plan)
        (IsRest target.now) out_tells E.tells (cause_of result)
        (seen (F.contents tree.old) (F.calls tree.old) out
        (sunk (E.written err.old) (E.failed_writes err.old)))
        (seen (F.contents tree.new) (F.calls tree.new) out
        (sunk (E.written err.new) (E.failed_writes err.new))) }
    ensures resumed { IsTrue F.tells →
        OnOk result (F.contents tree.new ≡ resumed_end (F.contents tree.old) stored.plan) }
    ensures tries { IsTrue F.tells → MakesTried (F.contents tree.old)
        (resumed_changes (F.contents tree.old) stored.plan) (F.calls tree.old)
        (F.calls tree.new) (cause_of result) }
    ensures stops { IsTrue F.tells → LeavesOnly
        (IsSafe stored.plan.mark (moment_of F.Tree tree.old)
        (resumed_end (F.contents tree.old) stored.plan)) (F.stops tree.old) (F.stops tree.new) }
    ensures again { IsTrue F.tells → (found c : Contents) →
        IsResumable found c stored.plan (moment_of F.Tree tree.old) →
        LeavesOnly (IsOnWayOrFinished found c stored.plan) (F.stops tree.old) (F.stops tree.new) }
    ensures synced { IsTrue F.tells →
        OnOk result (StandsSynced (F.contents tree.new) (moment_of F.Tree tree.new)) }
    ensures only { IfErr result (λ e. IsTrue (is_of_files e) ⊎ (e ≡ Cause.WriteFault)) }
    ensures changed { IsTrue F.tells → (p : PathValue) → result ≢ Err (Cause.Changed p) }
    ensures frame { Came F.Tree tree.old tree.new }
    ensures read_fault { IsErrOf result Cause.ReadFault →
        Rose (F.failed_reads tree.old) (F.failed_reads tree.new) }
    ensures write_fault { IsErrOf result Cause.WriteFault →
        Rose (F.failed_changes tree.old) (F.failed_changes tree.new) }
    ensures later { E.failed_writes err.old ≤ E.failed_writes err.new }
    ensures sink_fault { IsErrOf result Cause.SinkFault →
        Rose (E.failed_writes err.old) (E.failed_writes err.new) }
{
    let StoredPlan {
        source: _,
        told: _,
        plan,
    } = stored;
    match perform_stored(tree, plan) {
        Ok(()) => tell(err, all_done()),
        Err(fault) => Err(again_cause(alloc, target, fault)),
    }
}

/// Makes what is stored again, behind two lines on `err` and before the last one; with the answers of
/// `again_cause`, and `SinkFault` where a line failed.
pub(crate) fn make_told<F: Tree, E: Sink>(
    alloc: Global,
    tree: &mut F,
    err: &mut E,
    first: &str,
    second: &str,
    target: &Path,
    stored: StoredPlan,
) -> Result<(), Cause>
    requires between { (source : PathValue) × IsStoredBetween target.now source stored }
    requires readable { IsTrue F.tells → AreReadable (F.contents tree.old) stored.plan.steps.items }
    requires marked { IsTrue F.tells → IsMarked stored.plan.mark (F.contents tree.old) }
    ensures carries { (out_tells : Bool) (out : Sunk) → CarriesUnseen (IsTrue F.tells)
        (IsTrue F.tells)
        (behind_line first.now (behind_line second.now
        (again_rest target.now (F.contents tree.old) stored.plan)))
        (IsBehind first.now (IsBehind second.now (IsRest target.now))) out_tells E.tells
        (cause_of result)
        (seen (F.contents tree.old) (F.calls tree.old) out
        (sunk (E.written err.old) (E.failed_writes err.old)))
        (seen (F.contents tree.new) (F.calls tree.new) out
        (sunk (E.written err.new) (E.failed_writes err.new))) }
    ensures resumed { IsTrue F.tells →
        OnOk result (F.contents tree.new ≡ resumed_end (F.contents tree.old) stored.plan) }
    ensures tries { IsTrue F.tells → MakesTried (F.contents tree.old)
        (resumed_changes (F.contents tree.old) stored.plan) (F.calls tree.old)
        (F.calls tree.new) (cause_of result) }
    ensures stops { IsTrue F.tells → LeavesOnly
        (IsSafe stored.plan.mark (moment_of F.Tree tree.old)
        (resumed_end (F.contents tree.old) stored.plan)) (F.stops tree.old) (F.stops tree.new) }
    ensures again { IsTrue F.tells → (found c : Contents) →
        IsResumable found c stored.plan (moment_of F.Tree tree.old) →
        LeavesOnly (IsOnWayOrFinished found c stored.plan) (F.stops tree.old) (F.stops tree.new) }
    ensures synced { IsTrue F.tells →
        OnOk result (StandsSynced (F.contents tree.new) (moment_of F.Tree tree.new)) }
    ensures only { IfErr result (λ e. IsTrue (is_of_files e) ⊎ (e ≡ Cause.WriteFault)) }
    ensures changed { IsTrue F.tells → (p : PathValue) → result ≢ Err (Cause.Changed p) }
    ensures frame { Came F.Tree tree.old tree.new }
    ensures read_fault { IsErrOf result Cause.ReadFault →
        Rose (F.failed_reads tree.old) (F.failed_reads tree.new) }
    ensures write_fault { IsErrOf result Cause.WriteFault →
        Rose (F.failed_changes tree.old) (F.failed_changes tree.new) }
    ensures later { E.failed_writes err.old ≤ E.failed_writes err.new }
    ensures sink_fault { IsErrOf result Cause.SinkFault →
        Rose (E.failed_writes err.old) (E.failed_writes err.new) }
{
    tell(err, first)?;
    tell(err, second)?;
    make(alloc, tree, err, target, stored)
}
