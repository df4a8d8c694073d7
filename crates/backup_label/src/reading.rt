// What a label says.
ghost use Rattle.std.specs.Prelude.{◌≡◌};
ghost use Rattle.std.specs.Option.{option_copied};
ghost use Rattle.wal_base.specs.Lsn.{lsn_of};
ghost use Rattle.backup_label.specs.Reading.{checkpoint_in, is_file, label_of, start_in, start_named};

use crate::fault::LabelFault;
use crate::pieces::{after_first, before_first, behind, first_line};
use std::str;
use wal_base::{Lsn, is_long_name};

/// Where a label says that replay starts.
#[derive(Clone, Copy, Debug, PartialEq, Eq)]
pub struct LabelPlaces {
    /// The position from which the log is read.
    pub start: Lsn,
    /// Where the record of the checkpoint starts.
    pub checkpoint: Lsn,
}

// The position that a text names, if it names one.
fn position(text: &[u8]) -> Option<Lsn>
    ensures { result ≡ lsn_of text.now }
{
    match str::from_utf8(text) {
        Ok(text) => Lsn::parse(text),
        Err(_) => None,
    }
}

// Whether a text names a segment file, in brackets.
fn is_file(text: &[u8]) -> bool
    ensures { result ≡ is_file text.now }
{
    text.len() == 31
        && text.starts_with(b"(file ")
        && is_long_name(&text[6..30])
        && text[30] == b')'
}

// A position, a space and a segment file.
fn start_named(text: &[u8]) -> Option<Lsn>
    ensures { result ≡ start_named text.now }
{
    if is_file(after_first(b' ', text)) {
        position(before_first(b' ', text))
    } else {
        None
    }
}

#[tactic(auto, unfolding(crate::specs::Reading::start_in))]
fn start_in(bytes: &[u8]) -> Option<Lsn>
    ensures { result ≡ start_in bytes.now }
{
    start_named(behind(b"START WAL LOCATION: ", first_line(bytes)?)?)
}

#[tactic(auto, unfolding(crate::specs::Reading::checkpoint_in))]
fn checkpoint_in(bytes: &[u8]) -> Option<Lsn>
    ensures { result ≡ checkpoint_in bytes.now }
{
    position(behind(b"CHECKPOINT LOCATION: ", first_line(bytes)?)?)
}

/// Where a label says that replay starts, by its first two lines; what else it says is free. Each
/// of the two has to be there with its newline.
///
/// Answers `Start` where the first line isn't `START WAL LOCATION: LSN (file NAME)` with a position
/// and 24 digits 0 to 9 and A to F, and then `Checkpoint` where the second isn't
/// `CHECKPOINT LOCATION: LSN`.
#[tactic(auto, unfolding(crate::specs::Reading::label_of))]
pub fn read_label(bytes: &[u8]) -> Result<LabelPlaces, LabelFault>
    ensures value { result ≡ label_of bytes.now }
{
    let start = start_in(bytes).ok_or(LabelFault::Start)?;
    let rest = after_first(b'\n', bytes);
    let checkpoint = checkpoint_in(rest).ok_or(LabelFault::Checkpoint)?;
    Ok(LabelPlaces { start, checkpoint })
}
