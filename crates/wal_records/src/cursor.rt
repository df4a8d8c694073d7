//! The records of a log, one after another.

ghost use Rattle.std.specs.Prelude.{◌≡◌, ◌≤◌, [], None, Some, Ok, length, IsTrue, IfOk, IfSome, IfNone, OnErr, IsErrOf};
ghost use Rattle.cluster_tree.specs.Causes.{Rose};
ghost use Rattle.cluster_tree.specs.Frame.{Reads};
ghost use Rattle.cluster_tree.specs.Contents.{Contents};
ghost use Rattle.wal_base.specs.Segment.{bytes_of};
ghost use Rattle.wal_records.specs.declared.cursor.LogEnd.{LogEnd};
ghost use Rattle.wal_records.specs.Place.{place_at};
ghost use Rattle.wal_records.specs.Further.{pages_of};
ghost use Rattle.wal_records.specs.Log.{log_of};
ghost use Rattle.wal_records.specs.declared.why.Stop.TheVariants.{Ends};
ghost use Rattle.wal_records.specs.Reading.{Stopped, alone, lone};
ghost use Rattle.wal_records.specs.Cursor.{GivesAlone, IsWhole, Knows, Moves, StandsAlone, Steps, going_on_at, to_come, without_current};

use crate::fault::LogFault;
use crate::log_record::{Record, emptied};
use crate::place::place_at;
use crate::reading::{Found, read_record};
use crate::search::{Sought, find};
use crate::why::{Stop, Why};
use cluster_tree::Tree;
use std::alloc::Global;
use std::marker::Model;
use wal_base::{Lsn, OutOfMemory};
use wal_pages::{LogPath, PageCursor};

/// What a call of `next` or `next_unchanged` gave.
#[derive(Clone, Copy, Debug, PartialEq, Eq)]
pub enum Step {
    /// A record, which `current` lends.
    Record,
    /// The place at which the log ends, and why: there is no record at it.
    End(Lsn, Why),
}

/// The place at which a log ends, and why.
#[derive(Clone, Copy, Debug)]
pub struct LogEnd {
    place: Lsn,
    why: Why,
}

/// Goes over the records of a log, page by page. It holds one page and one record.
#[derive(Drop)]
pub struct RecordCursor {
    alloc: Global,
    pages: PageCursor,
    before: Option<u64>,
    place: u64,
    ended: Option<LogEnd>,
    current: Option<Record>,
}

/// Why a place by itself has no record: one that was dropped doesn't go on.
fn why_alone(stop: Stop) -> Why
    ensures { alone (Stopped stop) ≡ Stopped (Ends result) }
{
    match stop {
        Stop::Ends(why) => why,
        Stop::Dropped(_) => Why::Continuation,
    }
}

impl Model for RecordCursor {
    ghost use Rattle.std.specs.Prelude.{IfSome};
    ghost use Rattle.wal_records.specs.Cursor.{CursorView, IsWhole};

    ghost Value = { CursorView };

    ghost view = { λ c. record {
      log = c.pages.log;
      held = c.pages.held;
      page = c.pages.page;
      before = c.before;
      place = c.place;
      ended = c.ended;
      current = c.current;
    } };

    ghost invariant = { λ c. IfSome c.current IsWhole };
}

impl RecordCursor {
    /// A cursor before the first record of a log from `start` on, or from behind the header of the
    /// page that begins there. The folder of the log has at most 63 parts. Answers `OutOfMemory`
    /// only for want of memory.
    pub fn at(alloc: Global, log: LogPath, start: Lsn) -> Result<RecordCursor, OutOfMemory>
        requires room { length log.folder.parts ≤ 63 }
        ensures ok { IfOk result (λ cursor. cursor ≡ record {
          log = log;
          held = None;
          page = [];
          before = None;
          place = place_at (bytes_of log.size) start.0;
          ended = None;
          current = None;
        }) }
        ensures starts { IfOk result (λ cursor. (contents : Contents) → to_come cursor contents
            ≡ log_of (pages_of log contents) (bytes_of log.size) start.0) }
        ensures knows { IfOk result (λ cursor. (contents : Contents) → Knows cursor contents) }
    {
        let place = place_at(start, log.size).0;
        Ok(RecordCursor {
            alloc,
            pages: PageCursor::new(alloc, log)?,
            before: None,
            place,
            ended: None,
            current: None,
        })
    }

    /// Reads the next record, which `current` then lends, or finds the place at which the log ends,
    /// and why. Over a tree that tells its contents these are the records of the valid log, in
    /// order, and then its place and reason.
    ///
    /// After an `End` every later call answers the same. After a fault the next call tries the same
    /// place again. Answers `ReadFault` only where a read failed, which the tree has counted, and
    /// `OutOfMemory` only for want of memory. It makes no changing call.
    ///
    /// The pages are read from the tree as it now is. Where nothing changes the log's files between
    /// two calls, `next_unchanged` gives the same and is faster.
    pub fn next<F: Tree>(&mut self, tree: &mut F) -> Result<Step, LogFault>
        ensures log { self.new.log ≡ self.old.log }
        ensures step { IsTrue F.tells → self.old.ended ≡ None → IfOk result (λ step.
            Steps self.old self.new step (F.contents tree.old)) }
        ensures knows { IsTrue F.tells → Knows self.new (F.contents tree.new) }
        ensures moves { IfOk result (Moves self.old self.new) }
        ensures sticky { (end : LogEnd) → self.old.ended ≡ Some end →
            result ≡ Ok (Step.End end.place end.why) }
        ensures fault { OnErr result (self.new ≡ without_current self.old) }
        ensures reads { Reads F.Tree tree.old tree.new }
        ensures read_fault { IsErrOf result LogFault.ReadFault →
            Rose (F.failed_reads tree.old) (F.failed_reads tree.new) }
    {
        self.pages.forget(); // the log's files may have changed
        self.next_unchanged(tree)
    }

    /// As `next`, but the page on which the last call stopped isn't read again: right where the
    /// log's files are as they were at the last call, as in a log that no server writes to. Where
    /// one may have changed, `next` is right: what this call then gives may be of the page as it
    /// was.
    pub fn next_unchanged<F: Tree>(&mut self, tree: &mut F) -> Result<Step, LogFault>
        ensures log { self.new.log ≡ self.old.log }
        ensures step { IsTrue F.tells → Knows self.old (F.contents tree.old) →
            self.old.ended ≡ None → IfOk result (λ step.
            Steps self.old self.new step (F.contents tree.old)) }
        ensures knows { IsTrue F.tells → Knows self.old (F.contents tree.old) →
            Knows self.new (F.contents tree.new) }
        ensures moves { IfOk result (Moves self.old self.new) }
        ensures sticky { (end : LogEnd) → self.old.ended ≡ Some end →
            result ≡ Ok (Step.End end.place end.why) }
        ensures fault { OnErr result (self.new ≡ without_current self.old) }
        ensures reads { Reads F.Tree tree.old tree.new }
        ensures read_fault { IsErrOf result LogFault.ReadFault →
            Rose (F.failed_reads tree.old) (F.failed_reads tree.new) }
    {
        let mut bytes = emptied(self.current.take(), self.alloc);
        match self.ended {
            Some(end) => {
                self.pages.forget();
                return Ok(Step::End(end.place, end.why));
            }
            None => {}
        }
        match find(&mut self.pages, tree, self.before, self.place, &mut bytes) {
            Ok(Sought::Record(start, end)) => {
                let size = self.pages.size();
                self.before = Some(start);
                self.place = place_at(Lsn(end), size).0;
                self.current = Some(Record::new(start, end, bytes));
                Ok(Step::Record)
            }
            Ok(Sought::End(place, why)) => {
                let place = Lsn(place);
                self.pages.forget();
                self.ended = Some(LogEnd { place, why });
                Ok(Step::End(place, why))
            }
            Err(fault) => {
                self.pages.forget();
                Err(fault)
            }
        }
    }

    /// Reads the record at a place by itself, which `current` then lends, or tells why the place has
    /// none: as the walk back over the links of records does. The link of the record lies below its
    /// own place. A place in a page's header is none, and a record that was dropped there doesn't go
    /// on: `Place` and `Continuation`.
    ///
    /// `next` then goes on where it would have. The page that is held isn't read again, as in
    /// `next_unchanged`. Answers `ReadFault` only where a read failed, which the tree has counted,
    /// and `OutOfMemory` only for want of memory. It makes no changing call.
    pub fn read_alone<F: Tree>(&mut self, tree: &mut F, place: Lsn) -> Result<Step, LogFault>
        ensures read { IsTrue F.tells → Knows self.old (F.contents tree.old) →
            IfOk result (λ step. GivesAlone self.new step
            (lone (pages_of self.old.log (F.contents tree.old)) (bytes_of self.old.log.size) place.0)) }
        ensures stands { IfOk result (StandsAlone self.old self.new place.0) }
        ensures knows { IsTrue F.tells → Knows self.old (F.contents tree.old) →
            Knows self.new (F.contents tree.new) }
        ensures fault { OnErr result (self.new ≡ without_current self.old) }
        ensures reads { Reads F.Tree tree.old tree.new }
        ensures read_fault { IsErrOf result LogFault.ReadFault →
            Rose (F.failed_reads tree.old) (F.failed_reads tree.new) }
    {
        let mut bytes = emptied(self.current.take(), self.alloc);
        match read_record(&mut self.pages, tree, None, place.0, &mut bytes) {
            Ok(Found::Record(end)) => {
                self.current = Some(Record::new(place.0, end, bytes));
                Ok(Step::Record)
            }
            Ok(Found::Stopped(stop)) => {
                self.pages.forget();
                Ok(Step::End(place, why_alone(stop)))
            }
            Err(fault) => {
                self.pages.forget();
                Err(fault)
            }
        }
    }

    /// Goes to another start, as a new cursor at it: before the first record from there on. The page
    /// that is held stays held, and no memory is taken.
    pub fn go_to(&mut self, start: Lsn)
        ensures value { self.new ≡ going_on_at self.old (place_at (bytes_of self.old.log.size) start.0) }
        ensures starts { (contents : Contents) → to_come self.new contents
            ≡ log_of (pages_of self.old.log contents) (bytes_of self.old.log.size) start.0 }
        ensures knows { (contents : Contents) → Knows self.old contents → Knows self.new contents }
    {
        self.before = None;
        self.place = place_at(start, self.pages.size()).0;
        self.ended = None;
        self.current = None;
    }

    /// The record that the last call of `next`, `next_unchanged` or `read_alone` gave. `None` before
    /// the first call, after one that answered an end or a fault, and after `go_to`.
    pub fn current(&self) -> Option<&Record>
        ensures none { IfNone result (self.now.current ≡ None) }
        ensures some { IfSome result (λ r. self.now.current ≡ Some r.now) }
        ensures bound { IfSome result (λ r. IsWhole r.now) }
    {
        self.current.as_ref()
    }
}
