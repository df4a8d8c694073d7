//! What a dump does at a record.

ghost use Rattle.std.specs.Prelude.{◌≡◌, ◌⊎◌, ◌+◌, ◌<◌, ◌^◌, ◌++◌, Err, Ok, false, IfErr, IfOk, IsTrue, MatchResult, OnErr, OnOk, ◌≢◌};
ghost use Rattle.acts.specs.Texts.{texts_of};
ghost use Rattle.wal_base.specs.Segment.{bytes_of};
ghost use Rattle.block_refs.specs.Parts.{ArePartsOf};
ghost use Rattle.rmgr_hooks.specs.Custom.{handed_in};
ghost use Rattle.waldump_core.specs.Selecting.{meets};
ghost use Rattle.waldump_core.specs.Steps.{CountsOn};
ghost use Rattle.waldump_core.specs.Texts.{is_read};
ghost use Rattle.waldump_core.specs.Walk.{selected_turn, shown_of, turn_at};

use crate::asked::Asked;
use crate::fault::DumpFault;
use crate::filters::meets;
use crate::last_byte::is_before;
use crate::lines::Lines;
use crate::progress::{Progress, Turn};
use block_refs::{Parts, split_into};
use rmgr_hooks::Manager;
use wal_records::Record;

/// Adds the line of a record that is selected, unless the dump is quiet.
#[tactic(auto, using(crate::proofs::StepLemmas::line_steps))]
fn show_line<M: Manager>(
    asked: &Asked<M>,
    rec: &Record,
    parts: &Parts,
    lines: &mut Lines,
) -> Result<(), DumpFault>
    requires parts { ArePartsOf rec.now parts.now }
    ensures added { OnOk result (lines.new
        ≡ lines.old ++ texts_of (shown_of
        (handed_in M.Manager asked.now.custom) asked.now.sel rec.now parts.now)) }
    ensures kept { OnErr result (lines.new ≡ lines.old) }
    ensures quiet { IsTrue asked.now.sel.quiet → lines.new ≡ lines.old }
    ensures free { IfErr result (λ e. e ≡ DumpFault.OutOfMemory) }
{
    if asked.sel.quiet {
        return Ok(());
    }
    lines.add(rec, parts, asked.sel.details, asked.custom)?;
    Ok(())
}

/// Adds the line of a record with these parts if it is selected, and says how the dump goes on
/// behind it.
#[tactic(auto, using(crate::proofs::StepLemmas::line_steps))]
fn show_parts<M: Manager>(
    asked: &Asked<M>,
    progress: Progress,
    rec: &Record,
    parts: &Parts,
    lines: &mut Lines,
) -> Result<Turn, DumpFault>
    requires parts { ArePartsOf rec.now parts.now }
    requires room { progress.shown + 1 < 2 ^ 64 }
    ensures turn { MatchResult result
        (λ turn. (selected_turn (handed_in M.Manager asked.now.custom) asked.now.sel
        progress.shown rec.now parts.now (meets asked.now.sel rec.now parts.now)).outcome ≡ Ok turn)
        (λ e. e ≡ DumpFault.OutOfMemory) }
    ensures added { OnOk result (lines.new ≡ lines.old ++ texts_of
        (selected_turn (handed_in M.Manager asked.now.custom) asked.now.sel progress.shown
        rec.now parts.now (meets asked.now.sel rec.now parts.now)).lines) }
    ensures kept { OnErr result (lines.new ≡ lines.old) }
    ensures quiet { IsTrue asked.now.sel.quiet → lines.new ≡ lines.old }
    ensures counts { IfOk result (CountsOn progress) }
{
    if !meets(&asked.sel, rec, parts) {
        return Ok(progress.passed(rec.end()));
    }
    show_line(asked, rec, parts, lines)?;
    Ok(progress.shown(asked.sel.limit, rec.end()))
}

/// Adds the line of a record if it is selected, and says how the dump goes on behind it. Answers the
/// flaw of a record between the start and the stop that has no parts, and `NoRecordAt` where the
/// first record from the start on doesn't lie before the stop. The parts are read into `parts`,
/// whatever it held.
#[tactic(auto, using(crate::proofs::StepLemmas::turn_steps), unfolding(crate::specs::Walk::turn_at))]
pub fn take_turn<M: Manager>(
    asked: &Asked<M>,
    progress: Progress,
    rec: &Record,
    parts: &mut Parts,
    lines: &mut Lines,
) -> Result<Turn, DumpFault>
    requires room { progress.shown + 1 < 2 ^ 64 }
    ensures turn { MatchResult result
        (λ turn. (turn_at (handed_in M.Manager asked.now.custom)
        (bytes_of asked.now.size) asked.now.sel progress rec.now).outcome ≡ Ok turn)
        (λ e. (e ≡ DumpFault.OutOfMemory)
        ⊎ ((turn_at (handed_in M.Manager asked.now.custom)
        (bytes_of asked.now.size) asked.now.sel progress rec.now).outcome ≡ Err e)) }
    ensures added { OnOk result (lines.new
        ≡ lines.old ++ texts_of (turn_at (handed_in M.Manager asked.now.custom)
        (bytes_of asked.now.size) asked.now.sel progress rec.now).lines) }
    ensures kept { OnErr result (lines.new ≡ lines.old) }
    ensures quiet { IsTrue asked.now.sel.quiet → lines.new ≡ lines.old }
    ensures counts { IfOk result (CountsOn progress) }
    ensures unread { IfErr result (λ e. is_read e ≡ false) }
    ensures unwritten { result ≢ Err DumpFault.SinkFault }
{
    if rec.start().0 < asked.sel.start.0 {
        return Ok(Turn::Goes(progress));
    }
    if !is_before(asked.size, asked.sel.stop, rec) {
        return progress.at_stop(asked.sel.start);
    }
    split_into(rec, parts)?;
    show_parts(asked, progress, rec, parts, lines)
}
