//! The blocks that the target's log touches.

ghost use Rattle.std.specs.Prelude.{◌≡◌, ◌≢◌, ℕ, Err, None, OnOk, IfOk, IsErrOf, IsTrue};
ghost use Rattle.cluster_tree.specs.Causes.{Passes, Rose};
ghost use Rattle.cluster_tree.specs.Frame.{Reads};
ghost use Rattle.wal_base.specs.Segment.{bytes_of};
ghost use Rattle.block_refs.specs.Outcomes.{record_parts};
ghost use Rattle.block_refs.specs.declared.names.RelName.{RelName};
ghost use Rattle.touched_blocks.specs.Set.{Adds, has_in};
ghost use Rattle.touched_blocks.specs.Touched.{names_in, touches};
ghost use Rattle.wal_records.specs.Cursor.{Knows, to_come};
ghost use Rattle.wal_records.specs.Further.{pages_of};
ghost use Rattle.wal_records.specs.Log.{log_of};
ghost use Rattle.log_walk.specs.Faults.{IsFree, IsMemory};
ghost use Rattle.log_walk.specs.Needed.{named_by, needed, nothing_touched, read_refusal, record_refusal};
ghost use Rattle.log_walk.specs.Steps.{IsTouchedOr, MovesOn, TouchesNext, at_end, turn_behind};

use crate::fault::LogWalkFault;
use block_refs::{Parts, split_into};
use cluster_tree::Tree;
use std::alloc::Global;
use touched_blocks::Touched;
use wal_base::Lsn;
use wal_records::{Record, RecordCursor, Step, Why};

/// How the reading of a log goes on behind a record.
#[derive(Clone, Copy, Debug)]
pub enum Turn {
    /// With the next record.
    More,
    /// No further.
    Done,
}

/// Adds what a record names that is needed. The parts are read into `parts`, whatever it held.
fn add_needed(
    rec: &Record,
    end: Lsn,
    parts: &mut Parts,
    touched: &mut Touched,
) -> Result<(), LogWalkFault>
    ensures refused { Passes IsMemory (record_refusal end.0 rec.now) result }
    ensures added { OnOk result
        (Adds (names_in rec.now (record_parts rec.now)) touched.old touched.new) }
    ensures unread { result ≢ Err LogWalkFault.ReadFault }
{
    split_into(rec, parts)?;
    touched.add_record(rec, parts)?;
    let last = rec.end();
    if end.0 < last.0 {
        return Err(LogWalkFault::EndNotRecord(end, last));
    }
    Ok(())
}

/// At the place at which the log ends.
fn at_end(end: Lsn, place: Lsn, why: Why) -> Result<Turn, LogWalkFault>
    ensures { result ≡ at_end end.0 place.0 why }
{
    if place.0 < end.0 {
        return Err(LogWalkFault::LogEnds(place, why));
    }
    Ok(Turn::Done)
}

/// Behind a record that was added.
fn behind(rec: &Record, end: Lsn) -> Turn
    ensures { result ≡ turn_behind end.0 rec.now }
{
    if rec.end().0 < end.0 {
        Turn::More
    } else {
        Turn::Done
    }
}

/// Reads the next record, and adds what it names if it is needed.
#[tactic(auto, using(crate::proofs::TouchLemmas::moves_on))]
fn touch_next<F: Tree>(
    cursor: &mut RecordCursor,
    tree: &mut F,
    end: Lsn,
    parts: &mut Parts,
    touched: &mut Touched,
) -> Result<Turn, LogWalkFault>
    requires opened { cursor.old.ended ≡ None }
    requires knows { IsTrue F.tells → Knows cursor.old (F.contents tree.old) }
    ensures step { IsTrue F.tells → TouchesNext end.0 (to_come cursor.old (F.contents tree.old))
        (to_come cursor.new (F.contents tree.old)) touched.old touched.new result }
    ensures moves { IfOk result (MovesOn cursor.old cursor.new) }
    ensures knows { IsTrue F.tells → Knows cursor.new (F.contents tree.new) }
    ensures log { cursor.new.log ≡ cursor.old.log }
    ensures reads { Reads F.Tree tree.old tree.new }
    ensures read_fault { IsErrOf result LogWalkFault.ReadFault →
        Rose (F.failed_reads tree.old) (F.failed_reads tree.new) }
{
    match cursor.next_unchanged(tree)? {
        Step::Record => {}
        Step::End(place, why) => return at_end(end, place, why),
    }
    let rec = cursor.current().unwrap();
    if end.0 <= rec.start().0 {
        return Ok(Turn::Done);
    }
    match add_needed(rec, end, parts, touched) {
        Ok(()) => Ok(behind(rec, end)),
        Err(e) => Err(e),
    }
}

/// Reads what a cursor has still to give up to the end, and adds what it names.
#[tactic(auto, using(crate::proofs::TouchLemmas::touched_none))]
fn touch_all<F: Tree>(
    cursor: &mut RecordCursor,
    tree: &mut F,
    end: Lsn,
    parts: &mut Parts,
    touched: &mut Touched,
) -> Result<(), LogWalkFault>
    requires opened { cursor.old.ended ≡ None }
    requires knows { IsTrue F.tells → Knows cursor.old (F.contents tree.old) }
    ensures all { IsTrue F.tells → IsTouchedOr end.0 (to_come cursor.old (F.contents tree.old))
        touched.old touched.new result }
    ensures knows { IsTrue F.tells → Knows cursor.new (F.contents tree.new) }
    ensures log { cursor.new.log ≡ cursor.old.log }
    ensures reads { Reads F.Tree tree.old tree.new }
    ensures read_fault { IsErrOf result LogWalkFault.ReadFault →
        Rose (F.failed_reads tree.old) (F.failed_reads tree.new) }
{
    'records: loop {
        match touch_next(cursor, tree, end, parts, touched) {
            Ok(Turn::More) => {}
            Ok(Turn::Done) => return Ok(()),
            Err(e) => return Err(e),
        }
    }
}

/// The blocks of main forks that the target's log touches from a position up to an end
/// (`extractPageMap` in src/bin/pg_rewind/parsexlog.c): those that its records name that start
/// below the end. The cursor is of the target's log, wherever it stands. PostgreSQL's own tool
/// begins at the checkpoint's record; a caller begins at its redo, since a hint that was logged
/// between the two would be missed.
///
/// Answers, in the order of the log, of a record that starts below the end and first in this order:
/// `BadParts` and `Compressed` where it has no parts, `UnknownSpecial` where it changes relations in
/// a way that isn't known or its fields aren't whole, `EndNotRecord` where it ends past the end; and
/// `LogEnds` where the log ends below the end. `ReadFault` only where a read failed, which the tree
/// has counted, and `OutOfMemory` only for want of memory. It makes no changing call.
pub fn touch_log<F: Tree>(
    alloc: Global,
    cursor: &mut RecordCursor,
    tree: &mut F,
    redo: Lsn,
    end: Lsn,
) -> Result<Touched, LogWalkFault>
    requires knows { IsTrue F.tells → Knows cursor.old (F.contents tree.old) }
    // It is refused as the log is, or for a device's fault or want of memory.
    ensures exact { IsTrue F.tells → Passes IsFree (read_refusal end.0 (log_of
        (pages_of cursor.old.log (F.contents tree.old)) (bytes_of cursor.old.log.size) redo.0))
        result }
    // A block is there exactly where a record that is needed names it.
    ensures marks { IsTrue F.tells → IfOk result (λ touched. (rel : RelName) (block : ℕ) →
        has_in touched rel block ≡ touches (needed end.0 (log_of
        (pages_of cursor.old.log (F.contents tree.old)) (bytes_of cursor.old.log.size) redo.0))
        rel block) }
    // Chunks, cuts and databases are there for what these records name alone.
    ensures bound { IsTrue F.tells → IfOk result (Adds (named_by (needed end.0 (log_of
        (pages_of cursor.old.log (F.contents tree.old)) (bytes_of cursor.old.log.size) redo.0)))
        nothing_touched) }
    ensures knows { IsTrue F.tells → Knows cursor.new (F.contents tree.new) }
    ensures log { cursor.new.log ≡ cursor.old.log }
    ensures reads { Reads F.Tree tree.old tree.new }
    ensures read_fault { IsErrOf result LogWalkFault.ReadFault →
        Rose (F.failed_reads tree.old) (F.failed_reads tree.new) }
{
    cursor.go_to(redo);
    let mut parts = Parts::new();
    let mut touched = Touched::new(alloc);
    match touch_all(cursor, tree, end, &mut parts, &mut touched) {
        Ok(()) => Ok(touched),
        Err(e) => Err(e),
    }
}
