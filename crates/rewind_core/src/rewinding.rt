// The public call that rewinds.
ghost use Rattle.std.specs.Prelude.{◌≡◌, ◌≢◌, ◌⊎◌, ◌≤◌, length, IfErr, IfOk, IsTrue, Err, IsErrOf, OnOk, is_ok};
ghost use Rattle.cluster_tree.specs.Apart.{AreApart};
ghost use Rattle.cluster_tree.specs.Causes.{Rose};
ghost use Rattle.cluster_tree.specs.Frame.{Came, moment_of};
ghost use Rattle.cluster_tree.specs.PathValue.{PathValue};
ghost use Rattle.cluster_tree.specs.Run.{state_by};
ghost use Rattle.cluster_tree.specs.Stops.{LeavesOnly};
ghost use Rattle.marked_runs.specs.Moments.{StandsSynced};
ghost use Rattle.marked_runs.specs.Runs.{Runs};
ghost use Rattle.rewind_writes.specs.Plan.{plan_changes};
ghost use Rattle.rewind_writes.specs.Steps.{AllAreFit};
ghost use Rattle.rewind_core.specs.Fits.{IsCause, IsDone, IsPlanFor, IsRewound, Went};
ghost use Rattle.rewind_core.specs.Planned.{Needing, planned_of};
ghost use Rattle.clusters.specs.declared.fault.ClusterFault.TheVariants as cluster;
ghost use Rattle.rewind_core.specs.Stops.{IsLeft, IsLeftBy, IsSyncedBy};

use crate::faults::of_perform;
use crate::outcome::{Plan, Planned, RewindDone};
use crate::performing::perform;
use crate::planning::plan;
use cluster_tree::{Path, Tree};
use rewind_survey::RewindFault;
use std::alloc::Global;

// Carries out a plan.
fn carry_out<F: Tree>(tree: &mut F, plan: Plan) -> Result<RewindDone, RewindFault>
    requires fit { AllAreFit plan.writes.steps.items }
    ensures told { IfOk result (λ done. done ≡ RewindDone.Rewound plan.told) }
    ensures runs { IsTrue F.tells → (n : Needing) → IsPlanFor (F.contents tree.old) n plan →
        Runs (plan_changes (F.contents tree.old) plan.text plan.writes) (F.calls tree.old) (F.calls tree.new)
        (F.contents tree.old) (F.contents tree.new) (is_ok result) }
    ensures rewound { IsTrue F.tells → (n : Needing) → IsPlanFor (F.contents tree.old) n plan →
        OnOk result (IsRewound (F.contents tree.old) n (F.contents tree.new)) }
    ensures stops { IsTrue F.tells → (n : Needing) → IsPlanFor (F.contents tree.old) n plan →
        LeavesOnly (IsLeftBy (F.contents tree.old) n (moment_of F.Tree tree.old)) (F.stops tree.old) (F.stops tree.new) }
    ensures synced { IsTrue F.tells → (n : Needing) → IsPlanFor (F.contents tree.old) n plan →
        OnOk result (StandsSynced (F.contents tree.new) (moment_of F.Tree tree.new)) }
    ensures only { IfErr result (λ e. (e ≡ RewindFault.Cluster cluster.ReadFault)
        ⊎ (e ≡ RewindFault.WriteFault)
        ⊎ ((p : PathValue) × (e ≡ RewindFault.Cluster (cluster.Changed p)))) }
    ensures changed { IsTrue F.tells → (n : Needing) → IsPlanFor (F.contents tree.old) n plan →
        (p : PathValue) → result ≢ Err (RewindFault.Cluster (cluster.Changed p)) }
    ensures frame { Came F.Tree tree.old tree.new }
    ensures read_fault { IsErrOf result (RewindFault.Cluster cluster.ReadFault) →
        Rose (F.failed_reads tree.old) (F.failed_reads tree.new) }
    ensures write_fault { IsErrOf result RewindFault.WriteFault →
        Rose (F.failed_changes tree.old) (F.failed_changes tree.new) }
{
    let told = plan.told;
    match perform(tree, plan) {
        Ok(()) => Ok(RewindDone::Rewound(told)),
        Err(fault) => Err(of_perform(fault)),
    }
}

/// Rewinds the target so that it can follow the source's log: `plan`, and where a rewind is needed
/// `perform`, with the refusals of both.
pub fn rewind<F: Tree>(
    alloc: Global,
    tree: &mut F,
    target: &Path,
    source: &Path,
    now: i64,
) -> Result<RewindDone, RewindFault>
    requires target_depth { length target.now.parts ≤ 61 }
    requires source_depth { length source.now.parts ≤ 61 }
    requires apart { AreApart target.now source.now }
    ensures done { IsTrue F.tells → IfOk result (λ done. IsDone (F.contents tree.old)
        (planned_of (F.contents tree.old) target.now source.now now) done (F.contents tree.new)) }
    ensures refused { IsTrue F.tells → IfErr result
        (IsCause (planned_of (F.contents tree.old) target.now source.now now)) }
    // nothing was changed, or a plan's changes ran: all where it is rewound, else the first ones
    ensures went { IsTrue F.tells → Went (planned_of (F.contents tree.old) target.now source.now now)
        (state_by F.contents F.calls tree.old) (state_by F.contents F.calls tree.new) (is_ok result) }
    // a stop at any moment leaves the target untouched, and only where a rewind is needed marked or
    // rewound; once it is rewound, it leaves what stands
    ensures stops { IsTrue F.tells → LeavesOnly
        (IsLeft (planned_of (F.contents tree.old) target.now source.now now) target.now
        (moment_of F.Tree tree.old)) (F.stops tree.old) (F.stops tree.new) }
    ensures synced { IsTrue F.tells →
        IfOk result (λ done. IsSyncedBy done (moment_of F.Tree tree.new)) }
    ensures changed { IsTrue F.tells → (p : PathValue) →
        result ≢ Err (RewindFault.Cluster (cluster.Changed p)) }
    ensures frame { Came F.Tree tree.old tree.new }
    ensures read_fault { IsErrOf result (RewindFault.Cluster cluster.ReadFault) →
        Rose (F.failed_reads tree.old) (F.failed_reads tree.new) }
    ensures write_fault { IsErrOf result RewindFault.WriteFault →
        Rose (F.failed_changes tree.old) (F.failed_changes tree.new) }
{
    match plan(alloc, tree, target, source, now)? {
        Planned::SameTimeline => Ok(RewindDone::NotNeeded(None)),
        Planned::EndsAtFork(at) => Ok(RewindDone::NotNeeded(Some(at))),
        Planned::Needed(plan) => carry_out(tree, plan),
    }
}
