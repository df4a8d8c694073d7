// What stands at a root, or why a rewind is refused for it.
ghost use Rattle.std.specs.Prelude.{◌≡◌, ◌≢◌, ◌≤◌, length, IfErr, IfOk, IsTrue, Some, Err, IsErrOf, option_map};
ghost use Rattle.cluster_tree.specs.Contents.{Contents};
ghost use Rattle.cluster_tree.specs.PathValue.{PathValue};
ghost use Rattle.cluster_tree.specs.Causes.{Meets, Passes, Rose};
ghost use Rattle.cluster_tree.specs.Frame.{Reads};
ghost use Rattle.control_file.specs.Admission.{IsControl};
ghost use Rattle.clusters.specs.Marks.{unfinished};
ghost use Rattle.clusters.specs.RootControl.{control_at};
ghost use Rattle.clusters.specs.RootHistory.{history_at};
ghost use Rattle.timeline_history.specs.Ancestor.{last_tli};
ghost use Rattle.wal_records.specs.Cursor.{Knows};
ghost use Rattle.rewind_survey.specs.Faults.{IsFree, told_by};
ghost use Rattle.rewind_survey.specs.Survey.{target_log};
ghost use Rattle.clusters.specs.declared.fault.ClusterFault.TheVariants as cluster;

use crate::RewindFault;
use cluster_tree::{Path, Tree};
use clusters::{log_path, segment_size};
use control_file::Control;
use std::alloc::Global;
use timeline_history::History;
use wal_base::Lsn;
use wal_records::RecordCursor;

/// Refuses a root at which a mark stands, with the first of them.
#[tactic(auto, using(crate::proofs::FaultLemmas::fault_steps))]
pub(crate) fn check_marks<F: Tree>(
    alloc: Global,
    tree: &mut F,
    root: &Path,
) -> Result<(), RewindFault>
    requires { length root.now.parts ≤ 61 }
    ensures answer { IsTrue F.tells →
        Passes IsFree (option_map RewindFault.Cluster (unfinished (F.contents tree.old) root.now))
        result }
    ensures reads { Reads F.Tree tree.old tree.new }
    ensures read_fault { IsErrOf result (RewindFault.Cluster cluster.ReadFault) →
        Rose (F.failed_reads tree.old) (F.failed_reads tree.new) }
    ensures changed { IsTrue F.tells → (p : PathValue) →
        result ≢ Err (RewindFault.Cluster (cluster.Changed p)) }
    ensures never_writes { result ≢ Err RewindFault.WriteFault }
{
    match clusters::check_marks(alloc, tree, root) {
        Ok(()) => Ok(()),
        Err(fault) => Err(RewindFault::Cluster(fault)),
    }
}

/// What the control file of a root says. It changes nothing.
///
/// Answers `ControlMissing` where `global/pg_control` is not a file, then `Size`, `Crc`, `Version`,
/// `Catalog` and `Shape`, with the root.
#[tactic(auto, using(crate::proofs::FaultLemmas::fault_steps))]
pub fn control_at<F: Tree>(alloc: Global, tree: &mut F, root: &Path) -> Result<Control, RewindFault>
    requires { length root.now.parts ≤ 61 }
    ensures exact { IsTrue F.tells →
        Meets IsFree (told_by (control_at (F.contents tree.old) root.now)) result }
    ensures control { IfOk result IsControl }
    ensures reads { Reads F.Tree tree.old tree.new }
    ensures read_fault { IsErrOf result (RewindFault.Cluster cluster.ReadFault) →
        Rose (F.failed_reads tree.old) (F.failed_reads tree.new) }
    ensures changed { IsTrue F.tells → (p : PathValue) →
        result ≢ Err (RewindFault.Cluster (cluster.Changed p)) }
    ensures never_writes { result ≢ Err RewindFault.WriteFault }
{
    match clusters::control_at(alloc, tree, root) {
        Ok(control) => Ok(control),
        Err(fault) => Err(RewindFault::Cluster(fault)),
    }
}

/// The history of a timeline in a root.
#[tactic(auto, using(crate::proofs::FaultLemmas::fault_steps))]
pub(crate) fn history_at<F: Tree>(
    alloc: Global,
    tree: &mut F,
    root: &Path,
    tli: u32,
) -> Result<History, RewindFault>
    requires { length root.now.parts ≤ 61 }
    ensures exact { IsTrue F.tells →
        Meets IsFree (told_by (history_at (F.contents tree.old) root.now tli)) result }
    ensures last { IfOk result (λ history. last_tli history ≡ tli) }
    ensures reads { Reads F.Tree tree.old tree.new }
    ensures read_fault { IsErrOf result (RewindFault.Cluster cluster.ReadFault) →
        Rose (F.failed_reads tree.old) (F.failed_reads tree.new) }
    ensures changed { IsTrue F.tells → (p : PathValue) →
        result ≢ Err (RewindFault.Cluster (cluster.Changed p)) }
    ensures never_writes { result ≢ Err RewindFault.WriteFault }
{
    match clusters::history_at(alloc, tree, root, tli) {
        Ok(history) => Ok(history),
        Err(fault) => Err(RewindFault::Cluster(fault)),
    }
}

/// A cursor over the target's log, which lies where its history and its control file say.
pub(crate) fn target_log(
    alloc: Global,
    target: &Path,
    t: &Control,
    history: &History,
) -> Result<RecordCursor, RewindFault>
    requires depth { length target.now.parts ≤ 61 }
    requires control { IsControl t.now }
    ensures log { IfOk result (λ cursor. target_log target.now t.now history.now
        ≡ Some cursor.log) }
    ensures knows { IfOk result (λ cursor. (contents : Contents) → Knows cursor contents) }
    ensures memory { IfErr result (λ e. e ≡ RewindFault.Cluster cluster.OutOfMemory) }
{
    let spans = history.spans().copy(alloc)?;
    let log = log_path(alloc, target, None, spans, segment_size(t))?;
    Ok(RecordCursor::at(alloc, log, Lsn(t.checkPoint))?)
}
