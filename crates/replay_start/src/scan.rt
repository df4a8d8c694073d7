// The first reading of a log.
ghost use Rattle.std.specs.Prelude.{◌≡◌, ◌≢◌, Err, IfOk, IsErrOf, IsTrue, None};
ghost use Rattle.block_refs.specs.Outcomes.{record_parts};
ghost use Rattle.block_refs.specs.Parts.{ArePartsOf};
ghost use Rattle.cluster_tree.specs.Causes.{Rose};
ghost use Rattle.cluster_tree.specs.Frame.{Reads};
ghost use Rattle.cluster_tree.specs.PathValue.{PathValue};
ghost use Rattle.replay_profile.specs.Profile.{parts_or_none};
ghost use Rattle.wal_records.specs.Cursor.{Knows, to_come};
ghost use Rattle.replay_start.specs.Scanned.{is_labelled};
ghost use Rattle.replay_start.specs.Steps.{MovesOn, ScansAll, ScansNext, with_record};
ghost use Rattle.clusters.specs.declared.fault.ClusterFault.TheVariants as cluster;
ghost use Rattle.rmgr_hooks.specs.Custom.{handed_in};

use crate::ReplayFault;
use backup_label::LabelPlaces;
use block_refs::Parts;
use cluster_tree::Tree;
use replay_control::checkpoint_said;
use replay_profile::judge;
use rmgr_hooks::Manager;
use wal_base::Lsn;
use wal_records::{Record, RecordCursor, Step};

/// What was seen of a log so far.
#[derive(Clone, Copy)]
pub(crate) struct Seen {
    /// Where its last record ends.
    pub(crate) end: Lsn,
    /// Whether the record of the label's checkpoint was there.
    pub(crate) found: bool,
}

/// How the reading of a log goes on.
#[derive(Clone, Copy)]
pub(crate) enum Turn {
    /// With the next record.
    More,
    /// No further.
    Done,
}

/// Whether a record is that of the label's checkpoint.
fn is_labelled(label: LabelPlaces, rec: &Record, parts: &Parts) -> bool
    requires parts { ArePartsOf rec.now parts.now }
    requires own { parts.now ≡ parts_or_none (record_parts rec.now) }
    ensures { result ≡ is_labelled label rec.now }
{
    if rec.start().0 != label.checkpoint.0 {
        return false;
    }
    match checkpoint_said(rec, parts) {
        Some(checkpoint) => checkpoint.redo == label.start.0,
        None => false,
    }
}

/// What was seen with a record more.
fn seen_with(seen: Seen, label: LabelPlaces, rec: &Record, parts: &Parts) -> Seen
    requires parts { ArePartsOf rec.now parts.now }
    requires own { parts.now ≡ parts_or_none (record_parts rec.now) }
    ensures { result ≡ with_record label rec.now seen }
{
    Seen {
        end: rec.end(),
        found: seen.found || is_labelled(label, rec, parts),
    }
}

/// Reads the next record, and judges it.
fn scan_next<F: Tree, M: Manager>(
    cursor: &mut RecordCursor,
    tree: &mut F,
    label: LabelPlaces,
    parts: &mut Parts,
    seen: &mut Seen,
    custom: Option<&M>,
) -> Result<Turn, ReplayFault>
    requires opened { cursor.old.ended ≡ None }
    requires knows { IsTrue F.tells → Knows cursor.old (F.contents tree.old) }
    ensures step { IsTrue F.tells → ScansNext (handed_in M.Manager custom.entry) label
        (to_come cursor.old (F.contents tree.old)).records
        (to_come cursor.new (F.contents tree.old)).records seen.old seen.new result }
    ensures moves { IfOk result (MovesOn cursor.old cursor.new) }
    ensures knows { IsTrue F.tells → Knows cursor.new (F.contents tree.new) }
    ensures log { cursor.new.log ≡ cursor.old.log }
    ensures reads { Reads F.Tree tree.old tree.new }
    ensures read_fault { IsErrOf result (ReplayFault.Cluster cluster.ReadFault) →
        Rose (F.failed_reads tree.old) (F.failed_reads tree.new) }
    ensures changed { (p : PathValue) → result ≢ Err (ReplayFault.Cluster (cluster.Changed p)) }
    ensures never_writes { result ≢ Err ReplayFault.WriteFault }
{
    match cursor.next_unchanged(tree)? {
        Step::Record => {}
        Step::End(_, _) => return Ok(Turn::Done),
    }
    let rec = cursor.current().unwrap();
    judge(rec, parts, custom)?;
    *seen = seen_with(*seen, label, rec, parts);
    Ok(Turn::More)
}

/// Reads what a cursor has still to give, and judges each record.
pub(crate) fn scan_all<F: Tree, M: Manager>(
    cursor: &mut RecordCursor,
    tree: &mut F,
    label: LabelPlaces,
    parts: &mut Parts,
    seen: &mut Seen,
    custom: Option<&M>,
) -> Result<(), ReplayFault>
    requires opened { cursor.old.ended ≡ None }
    requires knows { IsTrue F.tells → Knows cursor.old (F.contents tree.old) }
    ensures all { IsTrue F.tells → ScansAll (handed_in M.Manager custom.entry) label
        (to_come cursor.old (F.contents tree.old)).records
        seen.old seen.new result }
    ensures knows { IsTrue F.tells → Knows cursor.new (F.contents tree.new) }
    ensures log { cursor.new.log ≡ cursor.old.log }
    ensures reads { Reads F.Tree tree.old tree.new }
    ensures read_fault { IsErrOf result (ReplayFault.Cluster cluster.ReadFault) →
        Rose (F.failed_reads tree.old) (F.failed_reads tree.new) }
    ensures changed { (p : PathValue) → result ≢ Err (ReplayFault.Cluster (cluster.Changed p)) }
    ensures never_writes { result ≢ Err ReplayFault.WriteFault }
{
    'records: loop {
        match scan_next(cursor, tree, label, parts, seen, custom) {
            Ok(Turn::More) => {}
            Ok(Turn::Done) => return Ok(()),
            Err(e) => return Err(e),
        }
    }
}
