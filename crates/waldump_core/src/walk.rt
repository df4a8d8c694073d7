//! The dump of a log.

ghost use Rattle.std.specs.Prelude.{◌≡◌, ◌≢◌, ◌⊎◌, ◌≤◌, [], Bool, Err, IfErr, IfOk, IsErrOf, IsTrue, MatchResult, None, OnErr, false, Some, length};
ghost use Rattle.acts.specs.Acts.{Performs, Sunk, seen, sunk};
ghost use Rattle.acts.specs.Texts.{prints};
ghost use Rattle.cluster_tree.specs.Causes.{Meets, Rose};
ghost use Rattle.cluster_tree.specs.Frame.{Reads};
ghost use Rattle.wal_base.specs.Segment.{bytes_of};
ghost use Rattle.wal_records.specs.Cursor.{Knows};
ghost use Rattle.wal_records.specs.Further.{pages_of};
ghost use Rattle.rmgr_hooks.specs.Custom.{handed_in};
ghost use Rattle.waldump_core.specs.Dump.{dump_from, dump_of};
ghost use Rattle.waldump_core.specs.Steps.{EndsBy, Gives, GoesUp, left, left_behind};
ghost use Rattle.waldump_core.specs.Texts.{Extends, IsFree, IsOfReads, ending_of};
ghost use Rattle.waldump_core.specs.Walk.{nothing_shown};

use crate::asked::Asked;
use crate::dumped::Dumped;
use crate::fault::DumpFault;
use crate::first_place::place_from;
use crate::lines::Lines;
use crate::progress::{Progress, Turn};
use crate::selection::Selection;
use crate::turn::take_turn;
use block_refs::Parts;
use cluster_tree::{Sink, Tree};
use rmgr_hooks::{Manager, NoManager};
use std::alloc::Global;
use wal_base::Lsn;
use wal_pages::LogPath;
use wal_records::{RecordCursor, Step};

/// Goes one record on. The tree is as it was at the cursor's last call.
#[tactic(auto, using(crate::proofs::StepLemmas::advance_steps), unfolding(crate::specs::Walk::walk_over))]
fn advance<F: Tree, M: Manager>(
    cursor: &mut RecordCursor,
    tree: &mut F,
    parts: &mut Parts,
    lines: &mut Lines,
    asked: &Asked<M>,
    progress: Progress,
) -> Result<Turn, DumpFault>
    requires opened { cursor.old.ended ≡ None }
    requires size { asked.now.size ≡ cursor.old.log.size }
    requires few { progress.shown ≤ cursor.old.place }
    requires knows { IsTrue F.tells → Knows cursor.old (F.contents tree.old) }
    ensures knows { IsTrue F.tells → Knows cursor.new (F.contents tree.new) }
    ensures step { IsTrue F.tells → MatchResult result
        (λ turn. Gives (left (handed_in M.Manager asked.now.custom) asked.now.sel
        progress cursor.old (F.contents tree.old)) lines.old
        (left_behind (handed_in M.Manager asked.now.custom) asked.now.sel
        turn cursor.new (F.contents tree.old)) lines.new)
        (λ e. IsOfReads e ⊎ EndsBy (left (handed_in M.Manager asked.now.custom) asked.now.sel
        progress cursor.old (F.contents tree.old)) e) }
    ensures kept { OnErr result (lines.new ≡ lines.old) }
    ensures quiet { IsTrue asked.now.sel.quiet → lines.new ≡ lines.old }
    ensures log { cursor.new.log ≡ cursor.old.log }
    ensures goes_up { IfOk result (GoesUp cursor.old cursor.new) }
    ensures unwritten { result ≢ Err DumpFault.SinkFault }
    ensures reads { Reads F.Tree tree.old tree.new }
    ensures read_fault { IsErrOf result DumpFault.ReadFault →
        Rose (F.failed_reads tree.old) (F.failed_reads tree.new) }
{
    match cursor.next_unchanged(tree)? {
        Step::Record => {}
        Step::End(place, why) => return Err(progress.at_end(asked.sel.start, place, why)),
    }
    let rec = cursor.current().unwrap();
    match take_turn(asked, progress, rec, parts, lines) {
        Ok(turn) => Ok(turn),
        Err(e) => Err(e),
    }
}

/// Walks over the log that a cursor has still to give, up to the end of the dump. Whatever ends it,
/// the lines before that are written.
#[tactic(auto, using(crate::proofs::SinkLemmas::walk_steps))]
fn walk<F: Tree, O: Sink, M: Manager>(
    cursor: &mut RecordCursor,
    tree: &mut F,
    parts: &mut Parts,
    out: &mut O,
    lines: &mut Lines,
    asked: &Asked<M>,
) -> Result<Dumped, DumpFault>
    requires opened { cursor.old.ended ≡ None }
    requires size { asked.now.size ≡ cursor.old.log.size }
    requires knows { IsTrue F.tells → Knows cursor.old (F.contents tree.old) }
    requires none { lines.old ≡ [] }
    ensures answer { IsTrue F.tells → Meets IsFree
        (left (handed_in M.Manager asked.now.custom) asked.now.sel nothing_shown cursor.old
        (F.contents tree.old)).answer result }
    ensures shown { IsTrue F.tells → Performs O.tells false (ending_of result)
        (prints (left (handed_in M.Manager asked.now.custom) asked.now.sel nothing_shown
        cursor.old (F.contents tree.old)).lines)
        (seen (F.contents tree.old) (F.calls tree.old)
        (sunk (O.written out.old) (O.failed_writes out.old)) (sunk [] 0))
        (seen (F.contents tree.old) (F.calls tree.old)
        (sunk (O.written out.new) (O.failed_writes out.new)) (sunk [] 0)) }
    ensures extends { IsTrue O.tells → Extends (O.written out.old) (O.written out.new) }
    ensures quiet { IsTrue asked.now.sel.quiet → out.new ≡ out.old }
    ensures unfailed { IsTrue asked.now.sel.quiet → result ≢ Err DumpFault.SinkFault }
    ensures reads { Reads F.Tree tree.old tree.new }
    ensures read_fault { IsErrOf result DumpFault.ReadFault →
        Rose (F.failed_reads tree.old) (F.failed_reads tree.new) }
    ensures later { O.failed_writes out.old ≤ O.failed_writes out.new }
    ensures sink_fault { IsErrOf result DumpFault.SinkFault →
        Rose (O.failed_writes out.old) (O.failed_writes out.new) }
{
    let mut progress = Progress::new();
    'records: loop {
        match advance(cursor, tree, parts, lines, asked, progress) {
            Ok(Turn::Goes(next)) => progress = next,
            Ok(Turn::Stops(dumped)) => {
                lines.flush(out)?;
                return Ok(dumped);
            }
            Err(e) => {
                lines.flush(out)?;
                return Err(e);
            }
        }
        lines.flush_full(out)?;
    }
}

/// Dumps a log from a place on.
#[tactic(auto, using(crate::proofs::SinkLemmas::dump_steps))]
fn dump_at<F: Tree, O: Sink, M: Manager>(
    alloc: Global,
    tree: &mut F,
    out: &mut O,
    log: LogPath,
    sel: &Selection,
    custom: Option<&M>,
    place: u64,
) -> Result<Dumped, DumpFault>
    requires room { length log.folder.parts ≤ 63 }
    ensures answer { IsTrue F.tells → Meets IsFree (dump_from (handed_in M.Manager custom.entry)
        (pages_of log (F.contents tree.old)) (bytes_of log.size) sel.now (Some place)).answer result }
    ensures shown { IsTrue F.tells → Performs O.tells false (ending_of result)
        (prints (dump_from (handed_in M.Manager custom.entry) (pages_of log (F.contents tree.old))
        (bytes_of log.size) sel.now (Some place)).lines)
        (seen (F.contents tree.old) (F.calls tree.old)
        (sunk (O.written out.old) (O.failed_writes out.old)) (sunk [] 0))
        (seen (F.contents tree.old) (F.calls tree.old)
        (sunk (O.written out.new) (O.failed_writes out.new)) (sunk [] 0)) }
    ensures extends { IsTrue O.tells → Extends (O.written out.old) (O.written out.new) }
    ensures quiet { IsTrue sel.now.quiet → out.new ≡ out.old }
    ensures unfailed { IsTrue sel.now.quiet → result ≢ Err DumpFault.SinkFault }
    ensures reads { Reads F.Tree tree.old tree.new }
    ensures read_fault { IsErrOf result DumpFault.ReadFault →
        Rose (F.failed_reads tree.old) (F.failed_reads tree.new) }
    ensures later { O.failed_writes out.old ≤ O.failed_writes out.new }
    ensures sink_fault { IsErrOf result DumpFault.SinkFault →
        Rose (O.failed_writes out.old) (O.failed_writes out.new) }
{
    let asked = Asked {
        sel: *sel,
        size: log.size,
        custom,
    };
    let mut cursor = RecordCursor::at(alloc, log, Lsn(place))?;
    let mut parts = Parts::new();
    let mut lines = Lines::new(alloc);
    walk(&mut cursor, tree, &mut parts, out, &mut lines, &asked)
}

/// Shows the records of a log that are selected on `out`, as pg_waldump does: a line for each, in the
/// order of the log, and with `details` a line for each block reference below it. Where a manager of an
/// extension is handed in, the text of its records is its own. The folder of the log has at most 63
/// parts.
///
/// The first record is looked for on the page that holds the start: at the first place behind the
/// page's header and behind what goes on there of a record begun before, or on a later page where
/// that fills the page. Records that start below the start are passed over. The dump ends before
/// the first record whose last byte lies at or past the stop, and behind the one that fills the
/// limit; then it answers how many records were shown, and where the last record from the start on
/// ends that was walked.
///
/// Answers `NoRecordAt` where no record from the start on lies before the stop; `LogEnds` where the
/// log ends before the stop and the limit; `BadParts` and `Compressed` at the first record from the
/// start on and before these ends that has no parts, shown or not; `ReadFault` and `SinkFault` only
/// where a read or a write failed, which the tree or the sink has counted; and `OutOfMemory` only
/// for want of memory. The lines before a refusal stand; where a read failed or memory was wanting,
/// whole lines do. A quiet dump leaves the sink alone and answers alike. It makes no changing call.
#[tactic(auto, using(crate::proofs::SinkLemmas::dump_steps))]
pub fn dump_with<F: Tree, O: Sink, M: Manager>(
    alloc: Global,
    tree: &mut F,
    out: &mut O,
    log: LogPath,
    sel: &Selection,
    custom: Option<&M>,
) -> Result<Dumped, DumpFault>
    requires room { length log.folder.parts ≤ 63 }
    // The answer is the dump's, a device's fault, or want of memory.
    ensures exact { IsTrue F.tells → Meets IsFree (dump_of (handed_in M.Manager custom.entry)
        (pages_of log (F.contents tree.old)) (bytes_of log.size) sel.now).answer result }
    // Its lines are acts that are done in turn: all of them where the answer is the dump's own, else
    // the first ones, whole, and of one more a part only where a write of it failed.
    ensures shown { IsTrue F.tells → (err_tells : Bool) (err : Sunk) →
        Performs O.tells err_tells (ending_of result)
        (prints (dump_of (handed_in M.Manager custom.entry) (pages_of log (F.contents tree.old))
        (bytes_of log.size) sel.now).lines)
        (seen (F.contents tree.old) (F.calls tree.old)
        (sunk (O.written out.old) (O.failed_writes out.old)) err)
        (seen (F.contents tree.new) (F.calls tree.new)
        (sunk (O.written out.new) (O.failed_writes out.new)) err) }
    ensures extends { IsTrue O.tells → Extends (O.written out.old) (O.written out.new) }
    ensures quiet { IsTrue sel.now.quiet → out.new ≡ out.old }
    ensures unfailed { IsTrue sel.now.quiet → result ≢ Err DumpFault.SinkFault }

    ensures reads { Reads F.Tree tree.old tree.new }
    ensures read_fault { IsErrOf result DumpFault.ReadFault →
        Rose (F.failed_reads tree.old) (F.failed_reads tree.new) }
    ensures later { O.failed_writes out.old ≤ O.failed_writes out.new }
    ensures sink_fault { IsErrOf result DumpFault.SinkFault →
        Rose (O.failed_writes out.old) (O.failed_writes out.new) }
{
    match place_from(alloc, tree, &log, sel.start)? {
        Some(place) => dump_at(alloc, tree, out, log, sel, custom, place),
        None => Err(DumpFault::NoRecordAt(sel.start)),
    }
}

/// Shows the records of a log, as `dump_with` does without a manager of an extension.
pub fn dump<F: Tree, O: Sink>(
    alloc: Global,
    tree: &mut F,
    out: &mut O,
    log: LogPath,
    sel: &Selection,
) -> Result<Dumped, DumpFault>
    requires room { length log.folder.parts ≤ 63 }
    ensures exact { IsTrue F.tells → Meets IsFree (dump_of None (pages_of log (F.contents tree.old))
        (bytes_of log.size) sel.now).answer result }
    ensures shown { IsTrue F.tells → (err_tells : Bool) (err : Sunk) →
        Performs O.tells err_tells (ending_of result)
        (prints (dump_of None (pages_of log (F.contents tree.old)) (bytes_of log.size) sel.now).lines)
        (seen (F.contents tree.old) (F.calls tree.old)
        (sunk (O.written out.old) (O.failed_writes out.old)) err)
        (seen (F.contents tree.new) (F.calls tree.new)
        (sunk (O.written out.new) (O.failed_writes out.new)) err) }
    ensures extends { IsTrue O.tells → Extends (O.written out.old) (O.written out.new) }
    ensures quiet { IsTrue sel.now.quiet → out.new ≡ out.old }
    ensures unfailed { IsTrue sel.now.quiet → result ≢ Err DumpFault.SinkFault }

    ensures reads { Reads F.Tree tree.old tree.new }
    ensures read_fault { IsErrOf result DumpFault.ReadFault →
        Rose (F.failed_reads tree.old) (F.failed_reads tree.new) }
    ensures later { O.failed_writes out.old ≤ O.failed_writes out.new }
    ensures sink_fault { IsErrOf result DumpFault.SinkFault →
        Rose (O.failed_writes out.old) (O.failed_writes out.new) }
{
    dump_with(alloc, tree, out, log, sel, None::<&NoManager>)
}
