//! Reading a history file.

ghost use Rattle.std.specs.Prelude.{◌≡◌, ◌≢◌, ◌⊎◌, ◌∷◌, ◌++◌, Some, None, Ok, Err, IfOk, IfErr, MatchResult, OnOk};
ghost use Rattle.std.specs.List.{last_or};
ghost use Rattle.std.specs.Option.{option_to_list};
ghost use Rattle.timeline_history.specs.declared.fault.HistoryFault.TheVariants as faults;
ghost use Rattle.timeline_history.specs.Lines.{lines_of};
ghost use Rattle.timeline_history.specs.Line.{reading_of, entry_in};
ghost use Rattle.timeline_history.specs.History.{entries_of, is_above, is_rising, fault_of, IsFirstFault, IsFaultless, AreRising, spans_of, history_of};
ghost use Rattle.timeline_history.specs.Ancestor.{last_tli};

use crate::fault::HistoryFault;
use crate::history::History;
use crate::line::{Entry, Line, read_line};
use crate::pieces::cut_at;
use std::alloc::Global;
use wal_base::{OutOfMemory, Spans};

fn is_above(before: Option<Entry>, entry: Entry) -> bool
    ensures { result ≡ is_above before entry }
{
    match before {
        None => true,
        Some(before) => before.tli < entry.tli && before.end.0 <= entry.end.0,
    }
}

fn is_rising(tli: u32, before: Option<Entry>, entry: Entry) -> bool
    ensures { result ≡ is_rising tli before entry }
{
    0 < entry.tli && entry.tli < tli && 0 < entry.end.0 && is_above(before, entry)
}

fn last_entry(entries: &[Entry]) -> Option<Entry>
    ensures { result ≡ last_or None entries.now }
{
    entries.last().copied()
}

/// Adds the entry that a line has, if it has one, where the line has no fault.
fn add_line(
    entries: &mut Vec<Entry>,
    tli: u32,
    line: &[u8],
    number: u64,
) -> Result<(), HistoryFault>
    ensures ok { OnOk result
        (fault_of tli (last_or None entries.old.items) number (reading_of line.now) ≡ None) }
    ensures added { OnOk result
        (entries.new.items ≡ entries.old.items ++ option_to_list (entry_in (reading_of line.now))) }
    ensures fault { IfErr result (λ fault. fault ≢ faults.OutOfMemory →
        fault_of tli (last_or None entries.old.items) number (reading_of line.now) ≡ Some fault) }
{
    match read_line(line) {
        Line::Skipped => Ok(()),
        Line::Bad => Err(HistoryFault::BadLine(number)),
        Line::Ends(entry) => {
            if !is_rising(tli, last_entry(entries), entry) {
                return Err(HistoryFault::NotRising(number));
            }
            entries.push(entry)?;
            Ok(())
        }
    }
}

/// The entries of a file, where none of its lines has a fault.
fn read_entries(alloc: Global, tli: u32, bytes: &[u8]) -> Result<Vec<Entry>, HistoryFault>
    ensures ok { IfOk result (λ entries. IsFaultless tli (lines_of bytes.now)) }
    ensures entries { IfOk result (λ entries. entries.items ≡ entries_of (lines_of bytes.now)) }
    ensures rising { IfOk result (λ entries. AreRising tli None entries.items) }
    ensures fault { IfErr result (λ fault. fault ≢ faults.OutOfMemory →
        IsFirstFault tli (lines_of bytes.now) fault) }
{
    let mut entries = Vec::new(alloc);
    let mut number = 0;
    let mut rest = bytes;
    while !rest.is_empty() {
        let (line, after) = cut_at(b'\n', rest);
        number += 1;
        add_line(&mut entries, tli, line, number)?;
        rest = after;
    }
    Ok(entries)
}

/// The spans of a first entry and later ones, with the timeline `tli` at the end.
fn spans_after(alloc: Global, tli: u32, first: Entry, later: &[Entry]) -> Result<Spans, OutOfMemory>
    requires rising { AreRising tli None (first ∷ later.now) }
    ensures ok { IfOk result (λ spans. spans ≡ spans_of tli (first ∷ later.now)) }
{
    let mut spans = Spans::one(alloc, first.tli)?;
    let mut end = first.end;
    for entry in later {
        spans.end_and_add(end, entry.tli)?;
        end = entry.end;
    }
    spans.end_and_add(end, tli)?;
    Ok(spans)
}

/// The spans of entries, with the timeline `tli` at the end.
fn spans_of(alloc: Global, tli: u32, entries: &[Entry]) -> Result<Spans, OutOfMemory>
    requires rising { AreRising tli None entries.now }
    ensures ok { IfOk result (λ spans. spans ≡ spans_of tli entries.now) }
{
    match entries {
        [] => Spans::one(alloc, tli),
        [first, later @ ..] => spans_after(alloc, tli, *first, later),
    }
}

/// The history that a file tells, where none of its lines has a fault.
fn read_faultless(alloc: Global, tli: u32, bytes: &[u8]) -> Result<History, HistoryFault>
    ensures ok { IfOk result (λ history. IsFaultless tli (lines_of bytes.now)) }
    ensures spans { IfOk result (λ history. history ≡ spans_of tli (entries_of (lines_of bytes.now))) }
    ensures fault { IfErr result (λ fault. fault ≢ faults.OutOfMemory →
        IsFirstFault tli (lines_of bytes.now) fault) }
{
    let entries = read_entries(alloc, tli, bytes)?;
    Ok(History::new(spans_of(alloc, tli, &entries)?))
}

/// The history of the timeline `tli`, from the bytes of its file: each entry ends its timeline's span at its position,
/// and `tli` is the last. Answers the fault of the least line that has one: `BadLine` where the line isn't of the form,
/// `NotRising` where its timeline or its position doesn't rise. Answers `OutOfMemory` only for want of memory.
pub fn read_history(alloc: Global, tli: u32, bytes: &[u8]) -> Result<History, HistoryFault>
    ensures exact { MatchResult result (λ spans. history_of tli bytes.now ≡ Ok spans)
        (λ e. (e ≡ faults.OutOfMemory) ⊎ (history_of tli bytes.now ≡ Err e)) }
    ensures last { IfOk result (λ history. last_tli history ≡ tli) }
{
    read_faultless(alloc, tli, bytes)
}
