//! One line of a history file.

ghost use Rattle.std.specs.Prelude.{◌≡◌, not, position};
ghost use Rattle.wal_base.specs.Lsn.{lsn_of};
ghost use Rattle.timeline_history.specs.Line.{is_blank, without_blanks, is_skipped, timeline_of, entry_of, reading_of};

use crate::pieces::cut_at;
use std::str;
use wal_base::{Lsn, decimal_u32};

/// A timeline, and the position at which it ended.
#[derive(Clone, Copy, Debug)]
pub struct Entry {
    /// The timeline.
    pub tli: u32,
    /// The position.
    pub end: Lsn,
}

/// What a line says.
#[derive(Clone, Copy, Debug)]
pub enum Line {
    /// Nothing: it is empty or a comment.
    Skipped,
    /// That a timeline ended.
    Ends(Entry),
    /// Something else.
    Bad,
}

fn is_blank(byte: u8) -> bool
    ensures { result ≡ is_blank byte }
{
    byte == b' ' || byte == b'\t'
}

/// The place of the first byte that is no blank.
fn text_start(line: &[u8]) -> Option<usize>
    ensures { result ≡ position (λ byte. not (is_blank byte)) line.now }
{
    line.iter().position(|byte| !is_blank(*byte))
}

/// The line from its first byte that is no blank.
fn without_blanks(line: &[u8]) -> &[u8]
    ensures { result.now ≡ without_blanks line.now }
{
    match text_start(line) {
        Some(at) => &line[at..],
        None => &line[line.len()..],
    }
}

/// Whether a line without blanks at its front is empty or a comment.
fn is_skipped(text: &[u8]) -> bool
    ensures { result ≡ is_skipped text.now }
{
    matches!(text, [] | [b'#', ..])
}

/// The timeline that a text names, if it names one.
fn timeline(text: &[u8]) -> Option<u32>
    ensures { result ≡ timeline_of text.now }
{
    decimal_u32(text)
}

/// The position that a text names, if it names one.
fn position(text: &[u8]) -> Option<Lsn>
    ensures { result ≡ lsn_of text.now }
{
    match str::from_utf8(text) {
        Ok(text) => Lsn::parse(text),
        Err(_) => None,
    }
}

/// The entry that a line without blanks at its front has, if it has one.
#[tactic(auto, unfolding(crate::specs::Line::entry_of))]
fn entry_at(text: &[u8]) -> Option<Entry>
    ensures { result ≡ entry_of text.now }
{
    let (tli, rest) = cut_at(b'\t', text);
    let (end, _) = cut_at(b'\t', rest);
    let tli = timeline(tli)?;
    let end = position(end)?;
    Some(Entry { tli, end })
}

/// What a line says.
#[tactic(auto, unfolding(crate::specs::Line::reading_of))]
pub fn read_line(line: &[u8]) -> Line
    ensures { result ≡ reading_of line.now }
{
    let text = without_blanks(line);
    if is_skipped(text) {
        return Line::Skipped;
    }
    match entry_at(text) {
        Some(entry) => Line::Ends(entry),
        None => Line::Bad,
    }
}
