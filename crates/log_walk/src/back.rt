//! The walk back to the last checkpoint that both clusters have.

ghost use Rattle.std.specs.Prelude.{◌≡◌, ◌≢◌, ◌<◌, ℕ, Err, IfOk, IsErrOf, IsTrue};
ghost use Rattle.cluster_tree.specs.Causes.{Meets, Rose, given};
ghost use Rattle.cluster_tree.specs.Frame.{Reads};
ghost use Rattle.wal_base.specs.Segment.{bytes_of};
ghost use Rattle.wal_records.specs.Cursor.{Knows};
ghost use Rattle.wal_records.specs.Further.{pages_of};
ghost use Rattle.wal_records.specs.Log.{log_of};
ghost use Rattle.wal_records.specs.Place.{place_at};
ghost use Rattle.wal_records.specs.Reading.{lone};
ghost use Rattle.log_walk.specs.Back.{Answer, back_from, common_checkpoint, walk_from, walk_step};
ghost use Rattle.log_walk.specs.Faults.{IsFree};
ghost use Rattle.log_walk.specs.First.{first_record};
ghost use Rattle.log_walk.specs.Steps.{IsFoundBelow, IsLower, LinksFrom, StepsBack, behind};

use crate::checkpoint::{CommonCheckpoint, checkpoint_in, is_checkpoint};
use crate::fault::LogWalkFault;
use crate::first::read_first;
use cluster_tree::Tree;
use wal_base::{Lsn, SegSize};
use wal_records::{Record, RecordCursor, Step, place_at};

/// How a walk back goes on from a record.
#[derive(Clone, Copy, Debug)]
pub enum Back {
    /// The record is the common checkpoint.
    Found(CommonCheckpoint),
    /// At its link.
    Goes(Lsn),
}

/// From a record back, where the fork's place is `below`.
#[tactic(auto, unfolding(crate::specs::Back::back_from))]
fn back_from(rec: &Record, below: Lsn) -> Result<Back, LogWalkFault>
    ensures step { (go : ℕ → Answer) → back_from go below.0 rec.now ≡ given result (behind go) }
    ensures links { IfOk result (LinksFrom rec.now below.0) }
    ensures unread { result ≢ Err LogWalkFault.ReadFault }
{
    if is_checkpoint(rec) && rec.start().0 < below.0 {
        let found = checkpoint_in(rec)?;
        return Ok(Back::Found(found));
    }
    let link = rec.header().prev;
    if link.0 == 0 {
        return Err(LogWalkFault::NoCommonCheckpoint(rec.start()));
    }
    Ok(Back::Goes(link))
}

/// From the record at a place, read by itself, back.
fn step_back<F: Tree>(
    cursor: &mut RecordCursor,
    tree: &mut F,
    below: Lsn,
    place: Lsn,
) -> Result<Back, LogWalkFault>
    requires knows { IsTrue F.tells → Knows cursor.old (F.contents tree.old) }
    ensures step { IsTrue F.tells → StepsBack (λ go. walk_step go below.0 place.0 (lone
        (pages_of cursor.old.log (F.contents tree.old)) (bytes_of cursor.old.log.size) place.0))
        result }
    ensures lower { IfOk result (IsLower place.0 below.0) }
    ensures knows { IsTrue F.tells → Knows cursor.new (F.contents tree.new) }
    ensures log { cursor.new.log ≡ cursor.old.log }
    ensures reads { Reads F.Tree tree.old tree.new }
    ensures read_fault { IsErrOf result LogWalkFault.ReadFault →
        Rose (F.failed_reads tree.old) (F.failed_reads tree.new) }
{
    match cursor.read_alone(tree, place)? {
        Step::Record => {}
        Step::End(_, why) => return Err(LogWalkFault::LogEnds(place, why)),
    }
    let rec = cursor.current().unwrap();
    back_from(rec, below)
}

/// The walk back from a place. Each link lies below its record, so it ends.
fn walk_back<F: Tree>(
    cursor: &mut RecordCursor,
    tree: &mut F,
    below: Lsn,
    from: Lsn,
) -> Result<CommonCheckpoint, LogWalkFault>
    requires knows { IsTrue F.tells → Knows cursor.old (F.contents tree.old) }
    ensures exact { IsTrue F.tells → Meets IsFree (walk_from
        (pages_of cursor.old.log (F.contents tree.old)) (bytes_of cursor.old.log.size) below.0
        from.0) result }
    ensures found { IfOk result (λ found. found.start.0 < below.0) }
    ensures knows { IsTrue F.tells → Knows cursor.new (F.contents tree.new) }
    ensures log { cursor.new.log ≡ cursor.old.log }
    ensures reads { Reads F.Tree tree.old tree.new }
    ensures read_fault { IsErrOf result LogWalkFault.ReadFault →
        Rose (F.failed_reads tree.old) (F.failed_reads tree.new) }
{
    let mut place = from;
    'records: loop {
        match step_back(cursor, tree, below, place) {
            Ok(Back::Found(found)) => return Ok(found),
            Ok(Back::Goes(link)) => place = link,
            Err(e) => return Err(e),
        }
    }
}

/// From the first record of the log from a position on, back.
fn first_back<F: Tree>(
    cursor: &mut RecordCursor,
    tree: &mut F,
    below: Lsn,
    fork: Lsn,
) -> Result<Back, LogWalkFault>
    requires knows { IsTrue F.tells → Knows cursor.old (F.contents tree.old) }
    ensures step { IsTrue F.tells → StepsBack (λ go. given (first_record (log_of
        (pages_of cursor.old.log (F.contents tree.old)) (bytes_of cursor.old.log.size) fork.0))
        (back_from go below.0)) result }
    ensures found { IfOk result (IsFoundBelow below.0) }
    ensures knows { IsTrue F.tells → Knows cursor.new (F.contents tree.new) }
    ensures log { cursor.new.log ≡ cursor.old.log }
    ensures reads { Reads F.Tree tree.old tree.new }
    ensures read_fault { IsErrOf result LogWalkFault.ReadFault →
        Rose (F.failed_reads tree.old) (F.failed_reads tree.new) }
{
    read_first(cursor, tree, fork)?;
    let rec = cursor.current().unwrap();
    back_from(rec, below)
}

/// The last checkpoint that both clusters have (`findLastCheckpoint` in
/// src/bin/pg_rewind/parsexlog.c): from the first record of the target's log from the fork on the
/// links are followed back to the first checkpoint record, of a shutdown or any other, that starts
/// below the fork's place. The cursor is of the target's log, wherever it stands, and `size` that of
/// its segments. From the first link on each record is read at the very place that the link names,
/// and a record that was dropped there doesn't go on.
///
/// Answers `LogEnds` where the log has no record from the fork on, and where a link leads to none;
/// `NoCommonCheckpoint` at the first record that links to 0; `BadParts` and `Compressed` where the
/// checkpoint's record has no parts, and `BadParts` where its main bytes are fewer than a
/// checkpoint's; `ReadFault` only where a read failed, which the tree has counted; and `OutOfMemory`
/// only for want of memory. It makes no changing call, and ends whatever the log holds.
pub fn common_checkpoint<F: Tree>(
    cursor: &mut RecordCursor,
    tree: &mut F,
    size: SegSize,
    fork: Lsn,
) -> Result<CommonCheckpoint, LogWalkFault>
    requires knows { IsTrue F.tells → Knows cursor.old (F.contents tree.old) }
    requires size { size ≡ cursor.old.log.size }
    // The answer is that of the walk back, a device's fault, or want of memory.
    ensures exact { IsTrue F.tells → Meets IsFree (common_checkpoint
        (pages_of cursor.old.log (F.contents tree.old)) (bytes_of size) fork.0) result }
    // Whatever the tree holds, it starts below the fork's place.
    ensures found { IfOk result (λ found. found.start.0 < place_at (bytes_of size) fork.0) }
    ensures knows { IsTrue F.tells → Knows cursor.new (F.contents tree.new) }
    ensures log { cursor.new.log ≡ cursor.old.log }
    ensures reads { Reads F.Tree tree.old tree.new }
    ensures read_fault { IsErrOf result LogWalkFault.ReadFault →
        Rose (F.failed_reads tree.old) (F.failed_reads tree.new) }
{
    let below = place_at(fork, size);
    match first_back(cursor, tree, below, fork) {
        Ok(Back::Found(found)) => Ok(found),
        Ok(Back::Goes(link)) => walk_back(cursor, tree, below, link),
        Err(e) => Err(e),
    }
}
