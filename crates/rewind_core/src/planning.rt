// The public call that plans.
ghost use Rattle.std.specs.Prelude.{◌≡◌, ◌≢◌, ◌⊎◌, ◌≤◌, length, IfErr, IfOk, IsTrue, None, Some, Err, IsErrOf};
ghost use Rattle.cluster_tree.specs.Apart.{AreApart};
ghost use Rattle.cluster_tree.specs.Causes.{Rose};
ghost use Rattle.cluster_tree.specs.Frame.{Reads};
ghost use Rattle.cluster_tree.specs.PathValue.{PathValue};
ghost use Rattle.control_file.specs.Admission.{IsControl};
ghost use Rattle.clusters.specs.Marks.{unfinished};
ghost use Rattle.rewind_writes.specs.Steps.{AllAreFit};
ghost use Rattle.rewind_plan.specs.PlanOf.{IsPlanOf};
ghost use Rattle.rewind_survey.specs.Faults.{IsFree};
ghost use Rattle.rewind_survey.specs.Survey.{HoldsParted, Parting};
ghost use Rattle.rewind_core.specs.Fits.{IsFitPlanned, IsMadeBetween, IsPlanBetween, IsSaidIn, IsSaidPlanned, Plans, PlansNeeded};
ghost use Rattle.rewind_core.specs.Planned.{from_parting, from_walks, pairs_refusal, planned_of};
ghost use Rattle.rewind_core.specs.Rooted.{IsRooted, aim};
ghost use Rattle.rewind_core.specs.Text.{saying, sum_at};
ghost use Rattle.plan_text.specs.Laws.{IsHeld};
ghost use Rattle.plan_text.specs.Text.{plan_text};
ghost use Rattle.clusters.specs.declared.fault.ClusterFault.TheVariants as cluster;

use crate::outcome::{Plan, Planned};
use crate::pairs::{check_pairs, rewound_control};
use crate::sums::sum_at;
use crate::walks::walk_below;
use backup_label::Label;
use cluster_tree::{Path, Tree};
use clusters::segment_size;
use control_file::Control;
use file_walk::{Pair, pair_up};
use plan_text::{StoredPlan, plan_text};
use rewind_plan::{Clusters, plan_of};
use rewind_survey::{Parted, RewindFault, Surveyed, Told, control_at, survey};
use std::alloc::Global;

// What a rewind is for: between two clusters, from where it is told, and with the control file and the
// label that it leaves, and the CRC in the source's control file.
#[derive(Clone, Copy)]
pub(crate) struct Rewinding<'a> {
    clusters: Clusters<'a>,
    told: Told,
    control: &'a Control,
    label: Label,
    sum: u32,
}

// A plan with its text.
fn with_text(alloc: Global, target: &Path, stored: StoredPlan) -> Result<Plan, RewindFault>
    ensures told { IfOk result (λ plan. plan.told ≡ stored.told) }
    ensures writes { IfOk result (λ plan. plan.writes ≡ stored.plan) }
    ensures text { IfOk result (λ plan. plan.text ≡ plan_text target.now (saying stored.source plan)) }
    ensures held { IfOk result (λ plan. IsHeld target.now (saying stored.source plan)) }
    ensures memory { IfErr result (λ e. e ≡ RewindFault.Cluster cluster.OutOfMemory) }
{
    let text = plan_text(alloc, target, &stored)?;
    let StoredPlan {
        source: _,
        told,
        plan,
    } = stored;
    Ok(Plan {
        told,
        writes: plan,
        text,
    })
}

// The plan for the paths side by side.
fn plan_pairs(alloc: Global, rewinding: &Rewinding<'_>, pairs: &[Pair]) -> Result<Plan, RewindFault>
    requires depth { length rewinding.now.clusters.target.now.parts ≤ 61 }
    requires control { IsControl rewinding.now.control.now }
    ensures refused { IfErr result (λ e. IsFree e
        ⊎ (pairs_refusal (aim rewinding.now).between pairs.now ≡ Some e)) }
    ensures passed { IfOk result (λ _. pairs_refusal (aim rewinding.now).between pairs.now ≡ None) }
    ensures told { IfOk result (λ plan. plan.told ≡ rewinding.now.told) }
    ensures made { IfOk result (λ plan. IsPlanOf (aim rewinding.now).between pairs.now
        rewinding.now.control.now rewinding.now.label plan.writes) }
    ensures text { IfOk result (λ plan. plan.text
        ≡ plan_text rewinding.now.clusters.target.now (saying rewinding.now.sum plan)) }
    ensures held { IfOk result (λ plan.
        IsHeld rewinding.now.clusters.target.now (saying rewinding.now.sum plan)) }
    ensures fit { IfOk result (λ plan. AllAreFit plan.writes.steps.items) }
    ensures read { result ≢ Err (RewindFault.Cluster cluster.ReadFault) }
    ensures changed { (p : PathValue) → result ≢ Err (RewindFault.Cluster (cluster.Changed p)) }
    ensures never_writes { result ≢ Err RewindFault.WriteFault }
{
    let Rewinding {
        clusters,
        told,
        control,
        label,
        sum,
    } = *rewinding;
    check_pairs(alloc, &clusters, pairs)?;
    let plan = plan_of(alloc, &clusters, pairs, control, label)?;
    with_text(
        alloc,
        clusters.target,
        StoredPlan {
            source: sum,
            told,
            plan,
        },
    )
}

// The plan of what lies below both roots.
fn plan_walked<F: Tree>(
    alloc: Global,
    tree: &mut F,
    rewinding: &Rewinding<'_>,
) -> Result<Plan, RewindFault>
    requires target_depth { length rewinding.now.clusters.target.now.parts ≤ 61 }
    requires source_depth { length rewinding.now.clusters.source.now.parts ≤ 61 }
    requires apart { AreApart rewinding.now.clusters.target.now rewinding.now.clusters.source.now }
    requires control { IsControl rewinding.now.control.now }
    requires target { IsTrue F.tells →
        IsRooted (F.contents tree.old) rewinding.now.clusters.target.now }
    requires source { IsTrue F.tells →
        IsRooted (F.contents tree.old) rewinding.now.clusters.source.now }
    requires sum { IsTrue F.tells → rewinding.now.sum
        ≡ sum_at (F.contents tree.old) rewinding.now.clusters.source.now }
    ensures exact { IsTrue F.tells → PlansNeeded (F.contents tree.old)
        (from_walks (F.contents tree.old) (aim rewinding.now)) result }
    ensures made { IfOk result (IsPlanBetween rewinding.now.clusters.target.now
        rewinding.now.clusters.source.now) }
    ensures said { IsTrue F.tells → IfOk result (IsSaidIn (F.contents tree.old)
        rewinding.now.clusters.target.now rewinding.now.clusters.source.now) }
    ensures fit { IfOk result (λ plan. AllAreFit plan.writes.steps.items) }
    ensures reads { Reads F.Tree tree.old tree.new }
    ensures read_fault { IsErrOf result (RewindFault.Cluster cluster.ReadFault) →
        Rose (F.failed_reads tree.old) (F.failed_reads tree.new) }
    ensures changed { IsTrue F.tells → (p : PathValue) →
        result ≢ Err (RewindFault.Cluster (cluster.Changed p)) }
    ensures never_writes { result ≢ Err RewindFault.WriteFault }
{
    let here = walk_below(alloc, tree, rewinding.clusters.target)?;
    let there = walk_below(alloc, tree, rewinding.clusters.source)?;
    let pairs = pair_up(alloc, here, there)?;
    plan_pairs(alloc, rewinding, &pairs)
}

// The plan for two clusters that parted, and of which no run is unfinished.
fn plan_parted<F: Tree>(
    alloc: Global,
    tree: &mut F,
    target: &Path,
    source: &Path,
    parted: Parted,
    now: i64,
) -> Result<Plan, RewindFault>
    requires target_depth { length target.now.parts ≤ 61 }
    requires source_depth { length source.now.parts ≤ 61 }
    requires apart { AreApart target.now source.now }
    requires target { IsTrue F.tells → unfinished (F.contents tree.old) target.now ≡ None }
    requires source { IsTrue F.tells → unfinished (F.contents tree.old) source.now ≡ None }
    ensures exact { IsTrue F.tells → (part : Parting) → HoldsParted part parted →
        PlansNeeded (F.contents tree.old)
        (from_parting (F.contents tree.old) target.now source.now now part) result }
    ensures made { IfOk result (IsPlanBetween target.now source.now) }
    ensures said { IsTrue F.tells →
        IfOk result (IsSaidIn (F.contents tree.old) target.now source.now) }
    ensures fit { IfOk result (λ plan. AllAreFit plan.writes.steps.items) }
    ensures reads { Reads F.Tree tree.old tree.new }
    ensures read_fault { IsErrOf result (RewindFault.Cluster cluster.ReadFault) →
        Rose (F.failed_reads tree.old) (F.failed_reads tree.new) }
    ensures changed { IsTrue F.tells → (p : PathValue) →
        result ≢ Err (RewindFault.Cluster (cluster.Changed p)) }
    ensures never_writes { result ≢ Err RewindFault.WriteFault }
{
    let t = control_at(alloc, tree, target)?;
    let s = control_at(alloc, tree, source)?;
    let sum = sum_at(alloc, tree, source)?;
    let rewinding = Rewinding {
        clusters: Clusters {
            target,
            source,
            per_file: t.relseg,
            touched: &parted.touched,
        },
        told: parted.told,
        control: &rewound_control(&s, now),
        label: Label {
            start: parted.redo,
            tli: parted.told.tli,
            size: segment_size(&t),
            checkpoint: parted.told.checkpoint,
            time: now,
        },
        sum,
    };
    plan_walked(alloc, tree, &rewinding)
}

/// Plans what the target needs to follow the source's log, and takes all memory that this needs. It
/// changes nothing. `now` is the time in seconds since 1970 that the label and the control file are to
/// have.
///
/// Answers that nothing is to be done where both clusters are on one timeline, or where the target's
/// log ends at their fork or below. Refuses with the first fault of these: those of `survey`, then
/// of the walks below the target and below the source, the least path that is made
/// without room below the target's root, and the least with a file on one side and a folder on the
/// other.
pub fn plan<F: Tree>(
    alloc: Global,
    tree: &mut F,
    target: &Path,
    source: &Path,
    now: i64,
) -> Result<Planned, RewindFault>
    requires target_depth { length target.now.parts ≤ 61 }
    requires source_depth { length source.now.parts ≤ 61 }
    requires apart { AreApart target.now source.now }
    // the answer is that of the first point that refuses, or what is to be done; or a fault of the
    // device, or want of memory
    ensures exact { IsTrue F.tells → Plans (F.contents tree.old)
        (planned_of (F.contents tree.old) target.now source.now now) result }
    // over every tree a plan is one between these two roots
    ensures made { IfOk result (IsMadeBetween target.now source.now) }
    // and its text is read as just that plan
    ensures said { IsTrue F.tells →
        IfOk result (IsSaidPlanned (F.contents tree.old) target.now source.now) }
    ensures fit { IfOk result IsFitPlanned }
    ensures reads { Reads F.Tree tree.old tree.new }
    ensures read_fault { IsErrOf result (RewindFault.Cluster cluster.ReadFault) →
        Rose (F.failed_reads tree.old) (F.failed_reads tree.new) }
    ensures changed { IsTrue F.tells → (p : PathValue) →
        result ≢ Err (RewindFault.Cluster (cluster.Changed p)) }
    ensures never_writes { result ≢ Err RewindFault.WriteFault }
{
    match survey(alloc, tree, target, source)? {
        Surveyed::SameTimeline => Ok(Planned::SameTimeline),
        Surveyed::EndsAtFork(at) => Ok(Planned::EndsAtFork(at)),
        Surveyed::Parted(parted) => {
            let plan = plan_parted(alloc, tree, target, source, parted, now)?;
            Ok(Planned::Needed(plan))
        }
    }
}
