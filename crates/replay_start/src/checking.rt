// The public call that checks.
ghost use Rattle.std.specs.Prelude.{◌≡◌, ◌≢◌, ◌≤◌, [], ◌∷◌, length, Err, IfOk, IsErrOf, IsTrue, None};
ghost use Rattle.cluster_tree.specs.Causes.{Passes, Rose, first_of};
ghost use Rattle.cluster_tree.specs.Frame.{Reads};
ghost use Rattle.cluster_tree.specs.PathValue.{PathValue};
ghost use Rattle.control_file.specs.Admission.{IsControl};
ghost use Rattle.clusters.specs.Marks.{unfinished};
ghost use Rattle.clusters.specs.Roots.{wal_folder};
ghost use Rattle.wal_base.specs.Segment.{bytes_of};
ghost use Rattle.wal_records.specs.Cursor.{Knows};
ghost use Rattle.wal_records.specs.Further.{pages_of};
ghost use Rattle.wal_records.specs.Log.{end_after, log_of};
ghost use Rattle.replay_start.specs.Faults.{IsFree};
ghost use Rattle.replay_start.specs.Checked.{Checks, from_control, from_label, start_of};
ghost use Rattle.replay_start.specs.Scanned.{ends_too_soon, log_refusal, unlabelled};
ghost use Rattle.clusters.specs.declared.fault.ClusterFault.TheVariants as cluster;
ghost use Rattle.rmgr_hooks.specs.Custom.{handed_in};

use crate::checked::Checked;
use crate::fault::ReplayFault;
use crate::fitness::check_control;
use crate::label::label_at;
use crate::roots::{check_marks, control_at, history_at, log_cursor};
use crate::scan::{Seen, scan_all};
use backup_label::LabelPlaces;
use block_refs::Parts;
use cluster_tree::{Path, Tree};
use control_file::Control;
use rmgr_hooks::Manager;
use std::alloc::Global;
use wal_base::Lsn;
use wal_records::RecordCursor;

// What the end of a log and its checkpoint have to be.
#[tactic(auto, using(cluster_tree::proofs::PointLemmas::points))]
fn check_seen(alloc: Global, root: &Path, control: &Control, seen: Seen) -> Result<(), ReplayFault>
    ensures answer { Passes IsFree (first_of (ends_too_soon control.now.minRecoveryPoint seen.end.0
        ∷ unlabelled root.now seen.found ∷ [])) result }
    ensures read_fault { result ≢ Err (ReplayFault.Cluster cluster.ReadFault) }
    ensures changed { (p : PathValue) → result ≢ Err (ReplayFault.Cluster (cluster.Changed p)) }
    ensures never_writes { result ≢ Err ReplayFault.WriteFault }
{
    let least = Lsn(control.minRecoveryPoint);
    if seen.end.0 < least.0 {
        return Err(ReplayFault::EndsTooSoon(seen.end, least));
    }
    if !seen.found {
        return Err(ReplayFault::BadLabel(root.copy(alloc)?, 2));
    }
    Ok(())
}

// Reads the whole log from the label's start on, and tells where it ends.
#[tactic(auto, using(crate::proofs::StageLemmas::log_steps))]
fn check_log<F: Tree, M: Manager>(
    alloc: Global,
    tree: &mut F,
    root: &Path,
    control: &Control,
    label: LabelPlaces,
    cursor: &mut RecordCursor,
    custom: Option<&M>,
) -> Result<Lsn, ReplayFault>
    requires knows { IsTrue F.tells → Knows cursor.old (F.contents tree.old) }
    ensures answer { IsTrue F.tells → Passes IsFree (log_refusal (handed_in M.Manager custom.entry)
        root.now control.now label (log_of
        (pages_of cursor.old.log (F.contents tree.old)) (bytes_of cursor.old.log.size)
        label.start.0).records) result }
    ensures end { IsTrue F.tells → IfOk result (λ end. end.0 ≡ end_after label.start.0 (log_of
        (pages_of cursor.old.log (F.contents tree.old)) (bytes_of cursor.old.log.size)
        label.start.0).records) }
    ensures knows { IsTrue F.tells → Knows cursor.new (F.contents tree.new) }
    ensures log { cursor.new.log ≡ cursor.old.log }
    ensures reads { Reads F.Tree tree.old tree.new }
    ensures read_fault { IsErrOf result (ReplayFault.Cluster cluster.ReadFault) →
        Rose (F.failed_reads tree.old) (F.failed_reads tree.new) }
    ensures changed { (p : PathValue) → result ≢ Err (ReplayFault.Cluster (cluster.Changed p)) }
    ensures never_writes { result ≢ Err ReplayFault.WriteFault }
{
    cursor.go_to(label.start);
    let mut seen = Seen {
        end: label.start,
        found: false,
    };
    scan_all(cursor, tree, label, &mut Parts::new(), &mut seen, custom)?;
    check_seen(alloc, root, control, seen)?;
    Ok(seen.end)
}

// What follows from the control file and the label.
#[tactic(auto, unfolding(crate::specs::Checked::from_label))]
fn check_label<F: Tree, M: Manager>(
    alloc: Global,
    tree: &mut F,
    root: &Path,
    control: Control,
    label: LabelPlaces,
    custom: Option<&M>,
) -> Result<Checked, ReplayFault>
    requires room { length root.now.parts ≤ 61 }
    requires control { IsControl control }
    ensures exact { IsTrue F.tells →
        Checks (from_label (handed_in M.Manager custom.entry) (F.contents tree.old) root.now control
        label) result }
    ensures knows { IsTrue F.tells →
        IfOk result (λ checked. Knows checked.cursor (F.contents tree.new)) }
    ensures control { IfOk result (λ checked. checked.control ≡ control) }
    ensures folder { IfOk result (λ checked. checked.cursor.log.folder ≡ wal_folder root.now) }
    ensures reads { Reads F.Tree tree.old tree.new }
    ensures read_fault { IsErrOf result (ReplayFault.Cluster cluster.ReadFault) →
        Rose (F.failed_reads tree.old) (F.failed_reads tree.new) }
    ensures changed { IsTrue F.tells → (p : PathValue) →
        result ≢ Err (ReplayFault.Cluster (cluster.Changed p)) }
    ensures never_writes { result ≢ Err ReplayFault.WriteFault }
{
    let history = history_at(alloc, tree, root, control.timeline())?;
    let mut cursor = log_cursor(alloc, root, &control, &history, label.start)?;
    let end = check_log(alloc, tree, root, &control, label, &mut cursor, custom)?;
    Ok(Checked {
        control,
        label,
        end,
        cursor,
    })
}

// What follows from the control file.
#[tactic(auto, unfolding(crate::specs::Checked::from_control))]
fn check_from<F: Tree, M: Manager>(
    alloc: Global,
    tree: &mut F,
    root: &Path,
    control: Control,
    custom: Option<&M>,
) -> Result<Checked, ReplayFault>
    requires room { length root.now.parts ≤ 61 }
    requires control { IsControl control }
    ensures exact { IsTrue F.tells →
        Checks (from_control (handed_in M.Manager custom.entry) (F.contents tree.old) root.now
        control) result }
    ensures knows { IsTrue F.tells →
        IfOk result (λ checked. Knows checked.cursor (F.contents tree.new)) }
    ensures control { IfOk result (λ checked. checked.control ≡ control) }
    ensures folder { IfOk result (λ checked. checked.cursor.log.folder ≡ wal_folder root.now) }
    ensures reads { Reads F.Tree tree.old tree.new }
    ensures read_fault { IsErrOf result (ReplayFault.Cluster cluster.ReadFault) →
        Rose (F.failed_reads tree.old) (F.failed_reads tree.new) }
    ensures changed { IsTrue F.tells → (p : PathValue) →
        result ≢ Err (ReplayFault.Cluster (cluster.Changed p)) }
    ensures never_writes { result ≢ Err ReplayFault.WriteFault }
{
    check_control(alloc, root, &control)?;
    let label = label_at(alloc, tree, root)?;
    check_label(alloc, tree, root, control, label, custom)
}

/// Checks a cluster before a replay, and reads its whole log once, from the label's start on, by the
/// history of the control file's timeline. It changes nothing, and keeps nothing of a record.
///
/// Answers the first that refuses of: `Unfinished`, the control file's refusals, `ChecksumsOn`,
/// `NoHints`, `NoLabel`, `BadLabel` with line 1 or 2, those of the history, those of the log's records
/// in their order (`BadParts`, `Compressed`, `NotInProfile`), `EndsTooSoon` where the log ends below
/// `minRecoveryPoint`, and `BadLabel` with line 2 where no record at the label's place is a checkpoint
/// with the label's start as redo.
#[tactic(auto, unfolding(crate::specs::Checked::start_of))]
pub fn check<F: Tree, M: Manager>(
    alloc: Global,
    tree: &mut F,
    root: &Path,
    custom: Option<&M>,
) -> Result<Checked, ReplayFault>
    requires room { length root.now.parts ≤ 61 }
    // the answer is that of the first point that refuses, or what was checked; or a failed read, or
    // want of memory
    ensures exact { IsTrue F.tells → Checks (start_of (handed_in M.Manager custom.entry)
        (F.contents tree.old) root.now) result }
    ensures knows { IsTrue F.tells →
        IfOk result (λ checked. Knows checked.cursor (F.contents tree.new)) }
    ensures control { IfOk result (λ checked. IsControl checked.control) }
    ensures folder { IfOk result (λ checked. checked.cursor.log.folder ≡ wal_folder root.now) }
    ensures unmarked { IsTrue F.tells →
        IfOk result (λ _. unfinished (F.contents tree.old) root.now ≡ None) }
    ensures reads { Reads F.Tree tree.old tree.new }
    ensures read_fault { IsErrOf result (ReplayFault.Cluster cluster.ReadFault) →
        Rose (F.failed_reads tree.old) (F.failed_reads tree.new) }
    ensures changed { IsTrue F.tells → (p : PathValue) →
        result ≢ Err (ReplayFault.Cluster (cluster.Changed p)) }
    ensures never_writes { result ≢ Err ReplayFault.WriteFault }
{
    check_marks(alloc, tree, root)?;
    let control = control_at(alloc, tree, root)?;
    check_from(alloc, tree, root, control, custom)
}
