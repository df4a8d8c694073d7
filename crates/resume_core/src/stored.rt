// The rewind that a mark holds.
ghost use Rattle.std.specs.Prelude.{◌≡◌, ◌≢◌, ◌≤◌, IfOk, IsErrOf, IsTrue, Err, None, length};
ghost use Rattle.cluster_tree.specs.Causes.{Rose};
ghost use Rattle.cluster_tree.specs.Frame.{Reads};
ghost use Rattle.cluster_tree.specs.PathValue.{PathValue};
ghost use Rattle.clusters.specs.Marks.{unfinished};
ghost use Rattle.plan_text.specs.Mark.{mark_told};
ghost use Rattle.plan_text.specs.declared.mark.MarkText.TheVariants as told;
ghost use Rattle.clusters.specs.declared.fault.ClusterFault.TheVariants as cluster;
ghost use Rattle.rewind_survey.specs.declared.fault.RewindFault.TheVariants as rewind;
ghost use Rattle.resume_core.specs.Stored.{Holds, IsBetween, IsStoredBetween, Stores, held_in, plan_in, stored_of};

use crate::ResumeFault;
use crate::marks::mark_at;
use crate::source::check_source;
use cluster_tree::{Path, Tree};
use clusters::{ClusterFault, check_marks, control_at};
use plan_text::{StoredFault, StoredPlan, stored_plan};
use std::alloc::Global;

// The plan in the bytes of a complete mark.
fn plan_in(
    alloc: Global,
    target: &Path,
    source: &Path,
    bytes: &[u8],
) -> Result<StoredPlan, ResumeFault>
    requires depth { length target.now.parts ≤ 61 }
    requires complete { mark_told bytes.now ≡ told.Complete }
    ensures said { Holds (plan_in target.now source.now bytes.now) result }
    ensures made { IfOk result (IsStoredBetween target.now source.now) }
    ensures read { result ≢ Err (ResumeFault.Rewind (rewind.Cluster cluster.ReadFault)) }
    ensures changed { (p : PathValue) → result ≢ Err (ResumeFault.Rewind (rewind.Cluster (cluster.Changed p))) }
    ensures never_writes { result ≢ Err (ResumeFault.Rewind rewind.WriteFault) }
{
    match stored_plan(alloc, target, source, &bytes[14..]) {
        Ok(stored) => Ok(stored),
        Err(StoredFault::BadPlan(number)) => Err(ResumeFault::BadPlan(target.copy(alloc)?, number)),
        Err(StoredFault::OutOfMemory) => Err(ResumeFault::from(ClusterFault::OutOfMemory)),
    }
}

// The plan in these bytes, of the source that it was made for.
fn plan_held<F: Tree>(
    alloc: Global,
    tree: &mut F,
    target: &Path,
    source: &Path,
    bytes: &[u8],
) -> Result<StoredPlan, ResumeFault>
    requires target_depth { length target.now.parts ≤ 61 }
    requires source_depth { length source.now.parts ≤ 61 }
    requires complete { mark_told bytes.now ≡ told.Complete }
    requires unmarked { IsTrue F.tells → unfinished (F.contents tree.old) source.now ≡ None }
    ensures exact { IsTrue F.tells →
        Holds (held_in (F.contents tree.old) target.now source.now bytes.now) result }
    ensures made { IfOk result (IsStoredBetween target.now source.now) }
    ensures reads { Reads F.Tree tree.old tree.new }
    ensures read_fault { IsErrOf result (ResumeFault.Rewind (rewind.Cluster cluster.ReadFault)) →
        Rose (F.failed_reads tree.old) (F.failed_reads tree.new) }
    ensures changed { IsTrue F.tells → (p : PathValue) →
        result ≢ Err (ResumeFault.Rewind (rewind.Cluster (cluster.Changed p))) }
    ensures never_writes { result ≢ Err (ResumeFault.Rewind rewind.WriteFault) }
{
    let stored = plan_in(alloc, target, source, bytes)?;
    let _control = control_at(alloc, tree, source)?;
    check_source(alloc, tree, source, &stored)?;
    Ok(stored)
}

/// The rewind that the mark of a target holds, with all memory that it takes to be done again: `None`
/// where no mark stands there, or a rewind's that isn't complete, under which nothing else was changed. It
/// changes nothing.
///
/// Refuses with the first of these: a rewind's mark of the target that is of version 1 or no file, the
/// target's marks of other commands, and the marks of the source (`Unfinished`); the first line of the
/// plan that isn't of its form or place (`BadPlan`); the control file of the source; that file where its
/// CRC isn't the plan's, and the first file that a step reads and that isn't as long as it was, or ends
/// before what is read (`SourceDiffers`).
pub fn stored_rewind<F: Tree>(
    alloc: Global,
    tree: &mut F,
    target: &Path,
    source: &Path,
) -> Result<Option<StoredPlan>, ResumeFault>
    requires target_depth { length target.now.parts ≤ 61 }
    requires source_depth { length source.now.parts ≤ 61 }
    // the answer is that of the first point that refuses, or what the mark holds; or a fault of the
    // device, or want of memory
    ensures exact { IsTrue F.tells →
        Stores (stored_of (F.contents tree.old) target.now source.now) result }
    // over every tree a plan is one between these roots
    ensures made { IfOk result (IsBetween target.now source.now) }
    ensures reads { Reads F.Tree tree.old tree.new }
    ensures read_fault { IsErrOf result (ResumeFault.Rewind (rewind.Cluster cluster.ReadFault)) →
        Rose (F.failed_reads tree.old) (F.failed_reads tree.new) }
    ensures changed { IsTrue F.tells → (p : PathValue) →
        result ≢ Err (ResumeFault.Rewind (rewind.Cluster (cluster.Changed p))) }
    ensures never_writes { result ≢ Err (ResumeFault.Rewind rewind.WriteFault) }
{
    let mark = mark_at(alloc, tree, target)?;
    check_marks(alloc, tree, source)?;
    match mark {
        None => Ok(None),
        Some(bytes) => Ok(Some(plan_held(alloc, tree, target, source, &bytes)?)),
    }
}
