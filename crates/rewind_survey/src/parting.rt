// What the target's log says from where the clusters parted.
ghost use Rattle.std.specs.Prelude.{◌≡◌, ◌≢◌, IsTrue, Err, IsErrOf};
ghost use Rattle.cluster_tree.specs.PathValue.{PathValue};
ghost use Rattle.cluster_tree.specs.Causes.{Rose};
ghost use Rattle.cluster_tree.specs.Frame.{Reads};
ghost use Rattle.wal_base.specs.Segment.{bytes_of};
ghost use Rattle.wal_records.specs.Cursor.{Knows};
ghost use Rattle.wal_records.specs.Further.{pages_of};
ghost use Rattle.rewind_survey.specs.Survey.{Surveys, parted, read_from, walked_back};
ghost use Rattle.clusters.specs.declared.fault.ClusterFault.TheVariants as cluster;

use crate::RewindFault;
use crate::outcome::{Parted, Surveyed, Told};
use crate::walks::{common_checkpoint, end_of_target, touch_log};
use cluster_tree::Tree;
use control_file::Control;
use log_walk::CommonCheckpoint;
use std::alloc::Global;
use timeline_history::Divergence;
use wal_base::{Lsn, SegSize};
use wal_records::RecordCursor;

// What the log touched from the common checkpoint's redo on.
fn read_from<F: Tree>(
    alloc: Global,
    cursor: &mut RecordCursor,
    tree: &mut F,
    fork: Divergence,
    end: Lsn,
    found: CommonCheckpoint,
) -> Result<Surveyed, RewindFault>
    requires { IsTrue F.tells → Knows cursor.old (F.contents tree.old) }
    ensures exact { IsTrue F.tells → Surveys (read_from
        (pages_of cursor.old.log (F.contents tree.old)) (bytes_of cursor.old.log.size) fork end.0
        found) result }
    ensures reads { Reads F.Tree tree.old tree.new }
    ensures read_fault { IsErrOf result (RewindFault.Cluster cluster.ReadFault) →
        Rose (F.failed_reads tree.old) (F.failed_reads tree.new) }
    ensures changed { (p : PathValue) → result ≢ Err (RewindFault.Cluster (cluster.Changed p)) }
    ensures never_writes { result ≢ Err RewindFault.WriteFault }
{
    let redo = Lsn(found.checkpoint.redo);
    let touched = touch_log(alloc, cursor, tree, redo, end)?;
    let told = Told {
        fork,
        checkpoint: found.start,
        tli: found.checkpoint.tli,
    };
    Ok(Surveyed::Parted(Parted {
        told,
        redo,
        touched,
    }))
}

// A target whose log goes on past the fork.
fn walk_back<F: Tree>(
    alloc: Global,
    cursor: &mut RecordCursor,
    tree: &mut F,
    size: SegSize,
    fork: Divergence,
    end: Lsn,
) -> Result<Surveyed, RewindFault>
    requires knows { IsTrue F.tells → Knows cursor.old (F.contents tree.old) }
    requires size { size ≡ cursor.old.log.size }
    ensures exact { IsTrue F.tells → Surveys (walked_back
        (pages_of cursor.old.log (F.contents tree.old)) (bytes_of size) fork end.0) result }
    ensures reads { Reads F.Tree tree.old tree.new }
    ensures read_fault { IsErrOf result (RewindFault.Cluster cluster.ReadFault) →
        Rose (F.failed_reads tree.old) (F.failed_reads tree.new) }
    ensures changed { (p : PathValue) → result ≢ Err (RewindFault.Cluster (cluster.Changed p)) }
    ensures never_writes { result ≢ Err RewindFault.WriteFault }
{
    let found = common_checkpoint(cursor, tree, size, fork.at)?;
    read_from(alloc, cursor, tree, fork, end, found)
}

/// What a target needs whose cluster parted from the source's at this fork. The cursor is of its log,
/// and `size` that of its segments.
pub(crate) fn survey_parted<F: Tree>(
    alloc: Global,
    cursor: &mut RecordCursor,
    tree: &mut F,
    size: SegSize,
    target: &Control,
    fork: Divergence,
) -> Result<Surveyed, RewindFault>
    requires knows { IsTrue F.tells → Knows cursor.old (F.contents tree.old) }
    requires size { size ≡ cursor.old.log.size }
    ensures exact { IsTrue F.tells → Surveys (parted
        (pages_of cursor.old.log (F.contents tree.old)) (bytes_of size) target.now fork) result }
    ensures reads { Reads F.Tree tree.old tree.new }
    ensures read_fault { IsErrOf result (RewindFault.Cluster cluster.ReadFault) →
        Rose (F.failed_reads tree.old) (F.failed_reads tree.new) }
    ensures changed { (p : PathValue) → result ≢ Err (RewindFault.Cluster (cluster.Changed p)) }
    ensures never_writes { result ≢ Err RewindFault.WriteFault }
{
    let end = end_of_target(cursor, tree, target)?;
    if end.0 <= fork.at.0 {
        return Ok(Surveyed::EndsAtFork(fork));
    }
    walk_back(alloc, cursor, tree, size, fork, end)
}
