// What the target's log says, or why a rewind is refused for it.
ghost use Rattle.std.specs.Prelude.{◌≡◌, ◌≢◌, IfOk, IsTrue, Err, IsErrOf, option_map};
ghost use Rattle.cluster_tree.specs.PathValue.{PathValue};
ghost use Rattle.cluster_tree.specs.Causes.{Meets, Passes, Rose};
ghost use Rattle.cluster_tree.specs.Frame.{Reads};
ghost use Rattle.wal_base.specs.Segment.{bytes_of};
ghost use Rattle.wal_records.specs.Cursor.{Knows};
ghost use Rattle.wal_records.specs.Further.{pages_of};
ghost use Rattle.wal_records.specs.Log.{log_of};
ghost use Rattle.log_walk.specs.Back.{common_checkpoint};
ghost use Rattle.log_walk.specs.First.{end_of_target};
ghost use Rattle.log_walk.specs.Needed.{needed, read_refusal};
ghost use Rattle.rewind_survey.specs.Faults.{IsFree, of_walk, walked};
ghost use Rattle.rewind_survey.specs.Marks.{IsTouchedBy};
ghost use Rattle.clusters.specs.declared.fault.ClusterFault.TheVariants as cluster;

use crate::RewindFault;
use cluster_tree::Tree;
use clusters::ClusterFault;
use control_file::Control;
use log_walk::{CommonCheckpoint, LogWalkFault};
use std::alloc::Global;
use touched_blocks::Touched;
use wal_base::{Lsn, SegSize};
use wal_records::RecordCursor;

// A fault of a walk over the log as one of a rewind.
fn of_walk(fault: LogWalkFault) -> RewindFault
    ensures { result ≡ of_walk fault }
{
    match fault {
        LogWalkFault::LogEnds(at, why) => RewindFault::LogEnds(at, why),
        LogWalkFault::BadParts(at, offset) => RewindFault::BadParts(at, offset),
        LogWalkFault::Compressed(at, id) => RewindFault::Compressed(at, id),
        LogWalkFault::NoCommonCheckpoint(at) => RewindFault::NoCommonCheckpoint(at),
        LogWalkFault::UnknownSpecial(at, manager, info) => {
            RewindFault::UnknownSpecial(at, manager, info)
        }
        LogWalkFault::EndNotRecord(end, found) => RewindFault::EndNotRecord(end, found),
        LogWalkFault::ReadFault => RewindFault::Cluster(ClusterFault::ReadFault),
        LogWalkFault::OutOfMemory => RewindFault::Cluster(ClusterFault::OutOfMemory),
    }
}

/// Where the target's log ends.
#[tactic(auto, using(crate::proofs::WalkLemmas::walk_steps))]
pub(crate) fn end_of_target<F: Tree>(
    cursor: &mut RecordCursor,
    tree: &mut F,
    target: &Control,
) -> Result<Lsn, RewindFault>
    requires { IsTrue F.tells → Knows cursor.old (F.contents tree.old) }
    ensures exact { IsTrue F.tells → Meets IsFree (walked (end_of_target
        (pages_of cursor.old.log (F.contents tree.old)) (bytes_of cursor.old.log.size) target.now))
        result }
    ensures knows { IsTrue F.tells → Knows cursor.new (F.contents tree.new) }
    ensures log { cursor.new.log ≡ cursor.old.log }
    ensures reads { Reads F.Tree tree.old tree.new }
    ensures read_fault { IsErrOf result (RewindFault.Cluster cluster.ReadFault) →
        Rose (F.failed_reads tree.old) (F.failed_reads tree.new) }
    ensures changed { (p : PathValue) → result ≢ Err (RewindFault.Cluster (cluster.Changed p)) }
    ensures never_writes { result ≢ Err RewindFault.WriteFault }
{
    match log_walk::end_of_target(cursor, tree, target) {
        Ok(end) => Ok(end),
        Err(fault) => Err(of_walk(fault)),
    }
}

/// The last checkpoint before the fork.
#[tactic(auto, using(crate::proofs::WalkLemmas::walk_steps))]
pub(crate) fn common_checkpoint<F: Tree>(
    cursor: &mut RecordCursor,
    tree: &mut F,
    size: SegSize,
    fork: Lsn,
) -> Result<CommonCheckpoint, RewindFault>
    requires knows { IsTrue F.tells → Knows cursor.old (F.contents tree.old) }
    requires size { size ≡ cursor.old.log.size }
    ensures exact { IsTrue F.tells → Meets IsFree (walked (common_checkpoint
        (pages_of cursor.old.log (F.contents tree.old)) (bytes_of size) fork.0)) result }
    ensures knows { IsTrue F.tells → Knows cursor.new (F.contents tree.new) }
    ensures log { cursor.new.log ≡ cursor.old.log }
    ensures reads { Reads F.Tree tree.old tree.new }
    ensures read_fault { IsErrOf result (RewindFault.Cluster cluster.ReadFault) →
        Rose (F.failed_reads tree.old) (F.failed_reads tree.new) }
    ensures changed { (p : PathValue) → result ≢ Err (RewindFault.Cluster (cluster.Changed p)) }
    ensures never_writes { result ≢ Err RewindFault.WriteFault }
{
    match log_walk::common_checkpoint(cursor, tree, size, fork) {
        Ok(found) => Ok(found),
        Err(fault) => Err(of_walk(fault)),
    }
}

/// The blocks that the target's log touches from `redo` up to its end.
#[tactic(auto, using(crate::proofs::WalkLemmas::walk_steps))]
pub(crate) fn touch_log<F: Tree>(
    alloc: Global,
    cursor: &mut RecordCursor,
    tree: &mut F,
    redo: Lsn,
    end: Lsn,
) -> Result<Touched, RewindFault>
    requires { IsTrue F.tells → Knows cursor.old (F.contents tree.old) }
    ensures exact { IsTrue F.tells → Passes IsFree (option_map of_walk (read_refusal end.0 (log_of
        (pages_of cursor.old.log (F.contents tree.old)) (bytes_of cursor.old.log.size) redo.0)))
        result }
    ensures marks { IsTrue F.tells → IfOk result (IsTouchedBy (needed end.0 (log_of
        (pages_of cursor.old.log (F.contents tree.old)) (bytes_of cursor.old.log.size) redo.0))) }
    ensures reads { Reads F.Tree tree.old tree.new }
    ensures read_fault { IsErrOf result (RewindFault.Cluster cluster.ReadFault) →
        Rose (F.failed_reads tree.old) (F.failed_reads tree.new) }
    ensures changed { (p : PathValue) → result ≢ Err (RewindFault.Cluster (cluster.Changed p)) }
    ensures never_writes { result ≢ Err RewindFault.WriteFault }
{
    match log_walk::touch_log(alloc, cursor, tree, redo, end) {
        Ok(touched) => Ok(touched),
        Err(fault) => Err(of_walk(fault)),
    }
}
