// What stands at a root, or why a replay is refused for it.
ghost use Rattle.std.specs.Prelude.{◌≡◌, ◌≢◌, ◌≤◌, length, IfErr, IfOk, IsTrue, Some, Err, IsErrOf, option_map};
ghost use Rattle.cluster_tree.specs.Contents.{Contents};
ghost use Rattle.cluster_tree.specs.PathValue.{PathValue};
ghost use Rattle.cluster_tree.specs.Causes.{Meets, Passes, Rose};
ghost use Rattle.cluster_tree.specs.Frame.{Reads};
ghost use Rattle.control_file.specs.Admission.{IsControl};
ghost use Rattle.clusters.specs.Marks.{unfinished};
ghost use Rattle.clusters.specs.RootControl.{control_at};
ghost use Rattle.clusters.specs.RootHistory.{history_at};
ghost use Rattle.clusters.specs.Roots.{wal_folder};
ghost use Rattle.timeline_history.specs.Ancestor.{last_tli};
ghost use Rattle.wal_records.specs.Cursor.{Knows};
ghost use Rattle.replay_start.specs.Faults.{IsFree, told_by};
ghost use Rattle.replay_start.specs.Checked.{log_with};
ghost use Rattle.clusters.specs.declared.fault.ClusterFault.TheVariants as cluster;

use crate::ReplayFault;
use cluster_tree::{Path, Tree};
use clusters::{log_path, segment_size};
use control_file::Control;
use std::alloc::Global;
use timeline_history::History;
use wal_base::Lsn;
use wal_records::RecordCursor;

/// Refuses a root at which a mark stands, with the first of them.
#[tactic(auto, using(crate::proofs::FaultLemmas::fault_steps))]
pub(crate) fn check_marks<F: Tree>(
    alloc: Global,
    tree: &mut F,
    root: &Path,
) -> Result<(), ReplayFault>
    requires { length root.now.parts ≤ 61 }
    ensures answer { IsTrue F.tells →
        Passes IsFree (option_map ReplayFault.Cluster (unfinished (F.contents tree.old) root.now))
        result }
    ensures reads { Reads F.Tree tree.old tree.new }
    ensures read_fault { IsErrOf result (ReplayFault.Cluster cluster.ReadFault) →
        Rose (F.failed_reads tree.old) (F.failed_reads tree.new) }
    ensures changed { IsTrue F.tells → (p : PathValue) →
        result ≢ Err (ReplayFault.Cluster (cluster.Changed p)) }
    ensures never_writes { result ≢ Err ReplayFault.WriteFault }
{
    match clusters::check_marks(alloc, tree, root) {
        Ok(()) => Ok(()),
        Err(fault) => Err(ReplayFault::Cluster(fault)),
    }
}

/// What the control file of a root says.
#[tactic(auto, using(crate::proofs::FaultLemmas::fault_steps))]
pub(crate) fn control_at<F: Tree>(
    alloc: Global,
    tree: &mut F,
    root: &Path,
) -> Result<Control, ReplayFault>
    requires { length root.now.parts ≤ 61 }
    ensures exact { IsTrue F.tells →
        Meets IsFree (told_by (control_at (F.contents tree.old) root.now)) result }
    ensures control { IfOk result IsControl }
    ensures reads { Reads F.Tree tree.old tree.new }
    ensures read_fault { IsErrOf result (ReplayFault.Cluster cluster.ReadFault) →
        Rose (F.failed_reads tree.old) (F.failed_reads tree.new) }
    ensures changed { IsTrue F.tells → (p : PathValue) →
        result ≢ Err (ReplayFault.Cluster (cluster.Changed p)) }
    ensures never_writes { result ≢ Err ReplayFault.WriteFault }
{
    match clusters::control_at(alloc, tree, root) {
        Ok(control) => Ok(control),
        Err(fault) => Err(ReplayFault::Cluster(fault)),
    }
}

/// The history of a timeline in a root.
#[tactic(auto, using(crate::proofs::FaultLemmas::fault_steps))]
pub(crate) fn history_at<F: Tree>(
    alloc: Global,
    tree: &mut F,
    root: &Path,
    tli: u32,
) -> Result<History, ReplayFault>
    requires { length root.now.parts ≤ 61 }
    ensures exact { IsTrue F.tells →
        Meets IsFree (told_by (history_at (F.contents tree.old) root.now tli)) result }
    ensures last { IfOk result (λ history. last_tli history ≡ tli) }
    ensures reads { Reads F.Tree tree.old tree.new }
    ensures read_fault { IsErrOf result (ReplayFault.Cluster cluster.ReadFault) →
        Rose (F.failed_reads tree.old) (F.failed_reads tree.new) }
    ensures changed { IsTrue F.tells → (p : PathValue) →
        result ≢ Err (ReplayFault.Cluster (cluster.Changed p)) }
    ensures never_writes { result ≢ Err ReplayFault.WriteFault }
{
    match clusters::history_at(alloc, tree, root, tli) {
        Ok(history) => Ok(history),
        Err(fault) => Err(ReplayFault::Cluster(fault)),
    }
}

/// A cursor over the log of a cluster, which lies where its history and its control file say, and
/// which the control file's system wrote.
pub(crate) fn log_cursor(
    alloc: Global,
    root: &Path,
    control: &Control,
    history: &History,
    start: Lsn,
) -> Result<RecordCursor, ReplayFault>
    requires depth { length root.now.parts ≤ 61 }
    requires control { IsControl control.now }
    ensures log { IfOk result (λ cursor. log_with root.now control.now history.now
        ≡ Some cursor.log) }
    ensures folder { IfOk result (λ cursor. cursor.log.folder ≡ wal_folder root.now) }
    ensures knows { IfOk result (λ cursor. (contents : Contents) → Knows cursor contents) }
    ensures memory { IfErr result (λ e. e ≡ ReplayFault.Cluster cluster.OutOfMemory) }
{
    let spans = history.spans().copy(alloc)?;
    let log = log_path(
        alloc,
        root,
        Some(control.sysid),
        spans,
        segment_size(control),
    )?;
    Ok(RecordCursor::at(alloc, log, start)?)
}
