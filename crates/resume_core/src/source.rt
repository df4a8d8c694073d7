// Whether the source is the one that a plan was made for.
ghost use Rattle.std.specs.Prelude.{◌≡◌, ◌≢◌, ◌+◌, ◌≤◌, IfErr, IfOk, IsErrOf, IsTrue, Err, length, option_map};
ghost use Rattle.cluster_tree.specs.Causes.{Passes, Rose};
ghost use Rattle.cluster_tree.specs.Frame.{Reads};
ghost use Rattle.cluster_tree.specs.PathValue.{PathValue};
ghost use Rattle.rewind_writes.specs.Steps.{AllAreFit, IsFit};
ghost use Rattle.rewind_core.specs.Rooted.{IsRooted};
ghost use Rattle.plan_text.specs.Text.{said_by};
ghost use Rattle.clusters.specs.declared.fault.ClusterFault.TheVariants as cluster;
ghost use Rattle.rewind_survey.specs.declared.fault.RewindFault.TheVariants as rewind;
ghost use Rattle.resume_core.specs.Faults.{IsFree};
ghost use Rattle.resume_core.specs.Source.{first_lost, lost_by, size_at, source_difference, unless_so};

use crate::ResumeFault;
use cluster_tree::{Path, Tree, TreeFault};
use clusters::{ClusterFault, path_in};
use plan_text::StoredPlan;
use rewind_core::sum_at;
use rewind_writes::Step;
use std::alloc::Global;
use std::collections::VecDeque;

// The size of the file at a path, if there is one.
fn size_at<F: Tree>(tree: &mut F, path: &Path) -> Result<Option<u64>, ClusterFault>
    ensures size { IsTrue F.tells → IfOk result (λ size. size ≡ size_at (F.contents tree.old) path.now) }
    ensures only { IfErr result (λ e. e ≡ ClusterFault.ReadFault) }
    ensures reads { Reads F.Tree tree.old tree.new }
    ensures read_fault { IsErrOf result ClusterFault.ReadFault →
        Rose (F.failed_reads tree.old) (F.failed_reads tree.new) }
{
    match tree.size(path) {
        Ok(size) => Ok(Some(size)),
        Err(TreeFault::Failed) => Err(ClusterFault::ReadFault),
        Err(_) => Ok(None),
    }
}

// Refuses a file, unless it is as it was found.
fn check_found(alloc: Global, path: &Path, is_found: bool) -> Result<(), ResumeFault>
    ensures answer { Passes IsFree (option_map ResumeFault.SourceDiffers (unless_so is_found path.now)) result }
    ensures read { result ≢ Err (ResumeFault.Rewind (rewind.Cluster cluster.ReadFault)) }
    ensures changed { (p : PathValue) → result ≢ Err (ResumeFault.Rewind (rewind.Cluster (cluster.Changed p))) }
    ensures never_writes { result ≢ Err (ResumeFault.Rewind rewind.WriteFault) }
{
    if is_found {
        return Ok(());
    }
    Err(ResumeFault::SourceDiffers(path.copy(alloc)?))
}

// Refuses the file that a step reads where it isn't as the step says.
fn check_step<F: Tree>(alloc: Global, tree: &mut F, step: &Step) -> Result<(), ResumeFault>
    requires fit { IsFit step.now }
    ensures answer { IsTrue F.tells →
        Passes IsFree (option_map ResumeFault.SourceDiffers (lost_by (F.contents tree.old) step.now)) result }
    ensures reads { Reads F.Tree tree.old tree.new }
    ensures read_fault { IsErrOf result (ResumeFault.Rewind (rewind.Cluster cluster.ReadFault)) →
        Rose (F.failed_reads tree.old) (F.failed_reads tree.new) }
    ensures changed { (p : PathValue) → result ≢ Err (ResumeFault.Rewind (rewind.Cluster (cluster.Changed p))) }
    ensures never_writes { result ≢ Err (ResumeFault.Rewind rewind.WriteFault) }
{
    match step {
        Step::Whole { from, size, .. } => {
            let found = size_at(tree, from)?;
            check_found(alloc, from, found == Some(*size))
        }
        Step::Range { from, at, size, .. } => {
            let (found, end) = (size_at(tree, from)?, *at + *size);
            check_found(alloc, from, found.is_some_and(|found| end <= found))
        }
        Step::Folder(_) | Step::Cut(..) | Step::Remove(_) => Ok(()),
    }
}

// Refuses the first file that a step reads and that isn't as the step says.
fn check_steps<F: Tree>(
    alloc: Global,
    tree: &mut F,
    steps: &VecDeque<Step>,
) -> Result<(), ResumeFault>
    requires fit { AllAreFit steps.now.items }
    ensures answer { IsTrue F.tells → Passes IsFree
        (option_map ResumeFault.SourceDiffers (first_lost (F.contents tree.old) steps.now.items)) result }
    ensures reads { Reads F.Tree tree.old tree.new }
    ensures read_fault { IsErrOf result (ResumeFault.Rewind (rewind.Cluster cluster.ReadFault)) →
        Rose (F.failed_reads tree.old) (F.failed_reads tree.new) }
    ensures changed { (p : PathValue) → result ≢ Err (ResumeFault.Rewind (rewind.Cluster (cluster.Changed p))) }
    ensures never_writes { result ≢ Err (ResumeFault.Rewind rewind.WriteFault) }
{
    for step in steps {
        check_step(alloc, tree, step)?;
    }
    Ok(())
}

/// Refuses a source that isn't the one which a plan was made for: its control file, by the CRC, and then
/// each file that a step reads, in the steps' order.
pub(crate) fn check_source<F: Tree>(
    alloc: Global,
    tree: &mut F,
    source: &Path,
    stored: &StoredPlan,
) -> Result<(), ResumeFault>
    requires depth { length source.now.parts ≤ 61 }
    requires rooted { IsTrue F.tells → IsRooted (F.contents tree.old) source.now }
    requires fit { AllAreFit stored.now.plan.steps.items }
    ensures answer { IsTrue F.tells → Passes IsFree (option_map ResumeFault.SourceDiffers
        (source_difference (F.contents tree.old) source.now (said_by stored.now))) result }
    ensures reads { Reads F.Tree tree.old tree.new }
    ensures read_fault { IsErrOf result (ResumeFault.Rewind (rewind.Cluster cluster.ReadFault)) →
        Rose (F.failed_reads tree.old) (F.failed_reads tree.new) }
    ensures changed { IsTrue F.tells → (p : PathValue) →
        result ≢ Err (ResumeFault.Rewind (rewind.Cluster (cluster.Changed p))) }
    ensures never_writes { result ≢ Err (ResumeFault.Rewind rewind.WriteFault) }
{
    let sum = sum_at(alloc, tree, source)?;
    let control = path_in(alloc, source, "global/pg_control")?;
    check_found(alloc, &control, sum == stored.source)?;
    check_steps(alloc, tree, &stored.plan.steps)
}
