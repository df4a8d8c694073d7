//! Where the log of a rewind's target ends.

ghost use Rattle.std.specs.Prelude.{◌≡◌, ◌≤◌, IfOk, IsErrOf, IsTrue};
ghost use Rattle.cluster_tree.specs.Causes.{Meets, Rose};
ghost use Rattle.cluster_tree.specs.Frame.{Reads};
ghost use Rattle.wal_base.specs.Segment.{bytes_of};
ghost use Rattle.wal_records.specs.Cursor.{Knows};
ghost use Rattle.wal_records.specs.Further.{pages_of};
ghost use Rattle.log_walk.specs.Faults.{IsFree};
ghost use Rattle.log_walk.specs.First.{end_of_target};

use crate::fault::LogWalkFault;
use crate::first::read_first;
use cluster_tree::Tree;
use control_file::Control;
use wal_base::Lsn;
use wal_records::RecordCursor;

/// Where the log of a rewind's target ends (`target_wal_endrec` of `main` in
/// src/bin/pg_rewind/pg_rewind.c): the end of its last checkpoint's record, or `minRecoveryPoint`
/// where that is greater. The cursor is of the target's log, wherever it stands.
///
/// Answers `LogEnds` where the log has no record from the position of that checkpoint on;
/// `ReadFault` only where a read failed, which the tree has counted; and `OutOfMemory` only for want
/// of memory. It makes no changing call. Like the other walks it takes it that nothing has changed
/// the log's files since the cursor read the page that it holds.
pub fn end_of_target<F: Tree>(
    cursor: &mut RecordCursor,
    tree: &mut F,
    target: &Control,
) -> Result<Lsn, LogWalkFault>
    requires knows { IsTrue F.tells → Knows cursor.old (F.contents tree.old) }
    // The answer is that of the log and the control file, a device's fault, or want of memory.
    ensures exact { IsTrue F.tells → Meets IsFree (end_of_target
        (pages_of cursor.old.log (F.contents tree.old)) (bytes_of cursor.old.log.size) target.now)
        result }
    ensures least { IfOk result (λ end. target.now.minRecoveryPoint ≤ end.0) }
    ensures knows { IsTrue F.tells → Knows cursor.new (F.contents tree.new) }
    ensures log { cursor.new.log ≡ cursor.old.log }
    ensures reads { Reads F.Tree tree.old tree.new }
    ensures read_fault { IsErrOf result LogWalkFault.ReadFault →
        Rose (F.failed_reads tree.old) (F.failed_reads tree.new) }
{
    read_first(cursor, tree, Lsn(target.checkPoint))?;
    let rec = cursor.current().unwrap();
    let end = rec.end().0.max(target.minRecoveryPoint);
    Ok(Lsn(end))
}
