// The public call: a reset of a log.
ghost use Rattle.std.specs.Prelude.{◌≡◌, ◌≢◌, ◌≤◌, None, Err, IfErr, IfOk, IsErrOf, IsSome, IsTrue, OnOk, Ok, false, is_ok, length};
ghost use Rattle.std.specs.List.{list_any};
ghost use Rattle.cluster_tree.specs.Causes.{Meets, Rose};
ghost use Rattle.cluster_tree.specs.Change.{first_refusal, is_on};
ghost use Rattle.cluster_tree.specs.Frame.{Came, Reads, moment_of};
ghost use Rattle.cluster_tree.specs.PathValue.{PathValue};
ghost use Rattle.cluster_tree.specs.Stops.{LeavesOnly};
ghost use Rattle.control_file.specs.Admission.{IsControl};
ghost use Rattle.control_file.specs.Writing.{control_bytes};
ghost use Rattle.marked_runs.specs.Moments.{StandsSynced};
ghost use Rattle.marked_runs.specs.Runs.{Runs};
ghost use Rattle.reset_numbers.specs.Options.{IsFit};
ghost use Rattle.reset_plan.specs.Plan.{body_changes, plan_changes};
ghost use Rattle.reset_plan.specs.Prepared.{IsDry, control_in, reset_by};
ghost use Rattle.reset_plan.specs.Reset.{Reset, control_told, reset_of};
ghost use Rattle.reset_plan.specs.ResetFaults.{IsFree, changed_at, read_failed};
ghost use Rattle.reset_cleanup.specs.Performing.{IsOfChange, fault_of};
ghost use Rattle.reset_cleanup.specs.Resetting.{Forms, LogIsReset};
ghost use Rattle.reset_cleanup.specs.Stopping.{IsLeft, IsOffMark, IsPerformed, IsPreparedLeft};

use crate::performing::perform;
use cluster_tree::{Path, Tree};
use clusters::ClusterFault;
use control_file::Control;
use marked_runs::PerformFault;
use reset_plan::{Plan, Prepared, ResetFault, ResetOptions, prepare};
use std::alloc::Global;

// Why the changes broke off.
fn fault_of(fault: PerformFault) -> ResetFault
    ensures { result ≡ fault_of fault }
{
    match fault {
        PerformFault::ReadFault => ResetFault::Cluster(ClusterFault::ReadFault),
        PerformFault::WriteFault => ResetFault::WriteFault,
        PerformFault::Changed(path) => ResetFault::Cluster(ClusterFault::Changed(path)),
    }
}

// Carries out what was made ready, and answers what the control file then says.
fn carry_out<F: Tree>(tree: &mut F, plan: Plan) -> Result<Control, ResetFault>
    requires { IsControl plan.body.control }
    ensures control { IfOk result (λ control. control ≡ plan.body.control) }
    ensures size { OnOk result (length (control_bytes plan.body.control) ≡ 8192) }
    ensures runs { IsTrue F.tells → first_refusal (F.contents tree.old) (plan_changes plan) ≡ None →
        Runs (plan_changes plan) (F.calls tree.old) (F.calls tree.new)
        (F.contents tree.old) (F.contents tree.new) (is_ok result) }
    ensures changed { IsTrue F.tells →
        first_refusal (F.contents tree.old) (plan_changes plan) ≡ None →
        (p : PathValue) → result ≢ Err (changed_at p) }
    ensures only { IfErr result IsOfChange }
    ensures stops { IsTrue F.tells → first_refusal (F.contents tree.old) (plan_changes plan) ≡ None →
        list_any (is_on plan.mark) (body_changes plan.body) ≡ false →
        LeavesOnly (IsPerformed plan (moment_of F.Tree tree.old)) (F.stops tree.old)
        (F.stops tree.new) }
    ensures synced { IsTrue F.tells → first_refusal (F.contents tree.old) (plan_changes plan) ≡ None →
        OnOk result (StandsSynced (F.contents tree.new) (moment_of F.Tree tree.new)) }
    ensures frame { Came F.Tree tree.old tree.new }
    ensures write_fault { IsErrOf result ResetFault.WriteFault →
        Rose (F.failed_changes tree.old) (F.failed_changes tree.new) }
{
    let control = plan.body.control;
    match perform(tree, plan) {
        Ok(()) => Ok(control),
        Err(fault) => Err(fault_of(fault)),
    }
}

// The same of a reset that was looked at, where a dry one does nothing.
fn reset_prepared<F: Tree>(tree: &mut F, prepared: Prepared) -> Result<Control, ResetFault>
    requires { IsControl (control_in prepared) }
    ensures control { IfOk result (λ control. control ≡ (reset_by prepared).control) }
    ensures size { OnOk result ((IsDry prepared → ⊥) →
        length (control_bytes (reset_by prepared).control) ≡ 8192) }
    ensures runs { IsTrue F.tells →
        first_refusal (F.contents tree.old) (reset_by prepared).changes ≡ None →
        Runs (reset_by prepared).changes (F.calls tree.old) (F.calls tree.new)
        (F.contents tree.old) (F.contents tree.new) (is_ok result) }
    ensures changed { IsTrue F.tells →
        first_refusal (F.contents tree.old) (reset_by prepared).changes ≡ None →
        (p : PathValue) → result ≢ Err (changed_at p) }
    ensures only { IfErr result (λ e. IsOfChange e × (IsDry prepared → ⊥)) }
    ensures stops { IsTrue F.tells →
        first_refusal (F.contents tree.old) (reset_by prepared).changes ≡ None →
        IsOffMark prepared → LeavesOnly (IsPreparedLeft prepared (moment_of F.Tree tree.old))
        (F.stops tree.old) (F.stops tree.new) }
    ensures synced { IsTrue F.tells →
        first_refusal (F.contents tree.old) (reset_by prepared).changes ≡ None →
        (IsDry prepared → ⊥) →
        OnOk result (StandsSynced (F.contents tree.new) (moment_of F.Tree tree.new)) }
    ensures dry { IsDry prepared → Reads F.Tree tree.old tree.new }
    ensures frame { Came F.Tree tree.old tree.new }
    ensures write_fault { IsErrOf result ResetFault.WriteFault →
        Rose (F.failed_changes tree.old) (F.failed_changes tree.new) }
{
    match prepared {
        Prepared::Dry(control) => Ok(control),
        Prepared::Ready(plan) => carry_out(tree, plan),
    }
}

/// Resets the log of a cluster, and answers what its control file then says: shut down, with a
/// checkpoint that is the one record of a new segment behind all others, whose files and what
/// `archive_status` says of them are removed. With `dry` it answers the same and changes nothing.
/// `now` is in seconds since 1970.
///
/// Answers the first of these, in the order of `ResetFault`: the mark of an unfinished run; what keeps
/// the control file from being read; `NotFolder`, `Link` or `NameNotText` with `pg_wal`; `BadSegment`
/// with it; and unless it is dry `NotClean`, where the cluster wasn't shut down and no force is used;
/// then `NotFolder`, `Link` or `NameNotText` with `archive_status`, and `Link` or `KindsDiffer` with the
/// first path that is to go and is no file. All that comes before the first change, and so does want of
/// memory. `ReadFault` and `WriteFault` come only where a call of that kind failed, which the tree has
/// counted, and `Changed` never where the tree tells its contents.
pub fn reset_log<F: Tree>(
    alloc: Global,
    tree: &mut F,
    root: &Path,
    options: &ResetOptions,
    now: i64,
) -> Result<Control, ResetFault>
    requires root { length root.now.parts ≤ 61 }
    requires fit { IsFit options.now }
    // the control file of the reset that is meant, or why it is refused
    ensures exact { IsTrue F.tells → Meets IsFree
        (control_told (reset_of (F.contents tree.old) root.now options.now now)) result }
    // over every tree, that of a reset that follows of some control file and of some names
    ensures form { Forms (IsTrue F.tells) (F.contents tree.old) root.now options.now now result }
    // its changes ran, one after another, under the mark
    ensures writes { IsTrue F.tells → (reset : Reset) →
        reset_of (F.contents tree.old) root.now options.now now ≡ Ok reset →
        Runs reset.changes (F.calls tree.old) (F.calls tree.new)
        (F.contents tree.old) (F.contents tree.new) (is_ok result) }
    // and what stands then, path by path
    ensures after { IsTrue F.tells → options.now.dry ≡ None → IfOk result
        (LogIsReset (F.contents tree.old) (F.contents tree.new) root.now options.now now) }
    // a stop at any moment leaves the tree untouched, and of a reset that isn't dry and isn't refused
    // the mark, or all that stands then
    ensures stops { IsTrue F.tells → LeavesOnly
        (IsLeft root.now options.now now (moment_of F.Tree tree.old)) (F.stops tree.old)
        (F.stops tree.new) }
    // and once it is done, it leaves what stands
    ensures synced { IsTrue F.tells → options.now.dry ≡ None → OnOk result
        (StandsSynced (F.contents tree.new) (moment_of F.Tree tree.new)) }

    // a refusal and want of memory come before the first change
    ensures unchanged { IfErr result (λ e. e ≢ ResetFault.WriteFault →
        ((p : PathValue) → e ≢ changed_at p) → Reads F.Tree tree.old tree.new) }
    ensures dry { IsSome options.now.dry → Reads F.Tree tree.old tree.new }
    ensures control { IfOk result IsControl }

    ensures frame { Came F.Tree tree.old tree.new }
    ensures read_fault { IsErrOf result read_failed →
        Rose (F.failed_reads tree.old) (F.failed_reads tree.new) }
    ensures write_fault { IsErrOf result ResetFault.WriteFault →
        Rose (F.failed_changes tree.old) (F.failed_changes tree.new) }
    ensures dry_faults { IsSome options.now.dry → result ≢ Err ResetFault.WriteFault }
    ensures changed { IsTrue F.tells → (p : PathValue) → result ≢ Err (changed_at p) }
{
    match prepare(alloc, tree, root, options, now) {
        Ok(prepared) => reset_prepared(tree, prepared),
        Err(fault) => Err(fault),
    }
}
