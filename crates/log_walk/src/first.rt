//! The first record of a log.

ghost use Rattle.std.specs.Prelude.{◌≡◌, IsErrOf, IsSome, IsTrue, OnOk};
ghost use Rattle.cluster_tree.specs.Causes.{Rose};
ghost use Rattle.cluster_tree.specs.Frame.{Reads};
ghost use Rattle.wal_base.specs.Segment.{bytes_of};
ghost use Rattle.wal_records.specs.Cursor.{Knows};
ghost use Rattle.wal_records.specs.Further.{pages_of};
ghost use Rattle.wal_records.specs.Log.{log_of};
ghost use Rattle.log_walk.specs.First.{first_record};
ghost use Rattle.log_walk.specs.Steps.{ReadsFirst};

use crate::fault::LogWalkFault;
use cluster_tree::Tree;
use wal_base::Lsn;
use wal_records::{RecordCursor, Step};

/// Goes to a start and reads the first record of the log from there, which `current` then lends.
pub(crate) fn read_first<F: Tree>(
    cursor: &mut RecordCursor,
    tree: &mut F,
    start: Lsn,
) -> Result<(), LogWalkFault>
    requires knows { IsTrue F.tells → Knows cursor.old (F.contents tree.old) }
    ensures first { IsTrue F.tells → ReadsFirst (first_record (log_of
        (pages_of cursor.old.log (F.contents tree.old)) (bytes_of cursor.old.log.size) start.0))
        cursor.new.current result }
    ensures some { OnOk result (IsSome cursor.new.current) }
    ensures knows { IsTrue F.tells → Knows cursor.new (F.contents tree.new) }
    ensures log { cursor.new.log ≡ cursor.old.log }
    ensures reads { Reads F.Tree tree.old tree.new }
    ensures read_fault { IsErrOf result LogWalkFault.ReadFault →
        Rose (F.failed_reads tree.old) (F.failed_reads tree.new) }
{
    cursor.go_to(start);
    match cursor.next_unchanged(tree)? {
        Step::Record => Ok(()),
        Step::End(place, why) => Err(LogWalkFault::LogEnds(place, why)),
    }
}
