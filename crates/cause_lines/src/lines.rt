// The line of a cause.
ghost use Rattle.std.specs.Prelude.{◌≡◌, string_bytes, false, IfOk, IsOk};
ghost use Rattle.cause_lines.specs.Lines.{line_of, line_with, made_text};
ghost use Rattle.cause_lines.specs.Pieces.{crc_pieces, difference_pieces, end_pieces, number_pieces, path_pieces, place_pieces};
ghost use Rattle.cause_lines.specs.Pieces.{record_pieces, shape_pieces, why_name};
ghost use Rattle.run_acts.specs.Causes.{has_values};

use crate::fixed::Fixed;
use crate::replay::replay_line;
use crate::unfit::{history_line, unfit_line};
use cluster_tree::Path;
use commands::{CommandName, name_text};
use control_file::Field;
use run_acts::{Cause, ControlCause, LogCause, PathCause};
use std::alloc::{AllocError, Global};
use wal_base::{HexWord, Lsn};
use wal_records::Why;

// The line of a cause with a path.
pub(crate) fn path_line(
    alloc: Global,
    name: Option<CommandName>,
    what: &str,
    path: &Path,
) -> Result<String, AllocError>
    ensures { IfOk result (λ line. string_bytes line ≡ line_with name
        (path_pieces what.now path.now)) }
{
    let name = name_text(name);
    format!(in alloc; "{name}: error: {what} {path}\n")
}

// The line of a cause with a path and a number.
pub(crate) fn number_line(
    alloc: Global,
    name: Option<CommandName>,
    what: &str,
    path: &Path,
    number: u64,
) -> Result<String, AllocError>
    ensures { IfOk result (λ line. string_bytes line ≡ line_with name
        (number_pieces what.now path.now number)) }
{
    let name = name_text(name);
    format!(in alloc; "{name}: error: {what} {path} {number}\n")
}

// The line of where two clusters differ.
fn difference_line(
    alloc: Global,
    name: Option<CommandName>,
    path: &Path,
    block: Option<u32>,
) -> Result<String, AllocError>
    ensures { IfOk result (λ line. string_bytes line ≡ line_with name
        (difference_pieces path.now block)) }
{
    match block {
        None => path_line(alloc, name, "Differs", path),
        Some(block) => number_line(alloc, name, "Differs", path, u64::from(block)),
    }
}

// The line of a field that is out of shape.
fn shape_line(
    alloc: Global,
    name: Option<CommandName>,
    root: &Path,
    field: Field,
    value: u64,
) -> Result<String, AllocError>
    ensures { IfOk result (λ line. string_bytes line ≡ line_with name
        (shape_pieces root.now field value)) }
{
    let name = name_text(name);
    format!(in alloc; "{name}: error: Shape {root} {field} {value}\n")
}

// A checksum as it stands in a line.
fn checksum(sum: u32) -> HexWord
    ensures { result ≡ record { width = 8; number = sum } }
{
    let number = u64::from(sum);
    HexWord { width: 8, number }
}

// The line of a checksum that differs.
fn crc_line(
    alloc: Global,
    name: Option<CommandName>,
    root: &Path,
    stored: u32,
    computed: u32,
) -> Result<String, AllocError>
    ensures { IfOk result (λ line. string_bytes line ≡ line_with name
        (crc_pieces root.now stored computed)) }
{
    let name = name_text(name);
    let stored = checksum(stored);
    let computed = checksum(computed);
    format!(in alloc; "{name}: error: Crc {root} {stored} {computed}\n")
}

// The line of what is wrong with a control file.
fn control_line(
    alloc: Global,
    name: Option<CommandName>,
    control: &ControlCause,
) -> Result<String, AllocError>
    ensures { IfOk result (λ line. string_bytes line ≡
        line_of name (Cause.Control control.now)) }
{
    match control {
        ControlCause::ControlMissing(root) => path_line(alloc, name, "ControlMissing", root),
        ControlCause::Size(root, bytes) => number_line(alloc, name, "Size", root, *bytes),
        ControlCause::Crc(root, stored, computed) => {
            crc_line(alloc, name, root, *stored, *computed)
        }
        ControlCause::Version(root, version) => {
            number_line(alloc, name, "Version", root, u64::from(*version))
        }
        ControlCause::Catalog(root, version) => {
            number_line(alloc, name, "Catalog", root, u64::from(*version))
        }
        ControlCause::Shape(root, field, value) => shape_line(alloc, name, root, *field, *value),
    }
}

fn why_name(why: Why) -> &'static str
    ensures { result.now ≡ why_name why }
{
    match why {
        Why::Place => "Place",
        Why::NoSegment => "NoSegment",
        Why::ShortSegment => "ShortSegment",
        Why::Page => "Page",
        Why::Continuation => "Continuation",
        Why::ZeroLength => "ZeroLength",
        Why::ShortLength => "ShortLength",
        Why::TooLong => "TooLong",
        Why::Manager => "Manager",
        Why::Prev => "Prev",
        Why::Crc => "Crc",
    }
}

// The line of where a log ends.
fn end_line(
    alloc: Global,
    name: Option<CommandName>,
    at: Lsn,
    why: Why,
) -> Result<String, AllocError>
    ensures { IfOk result (λ line. string_bytes line ≡ line_with name (end_pieces at why)) }
{
    let name = name_text(name);
    let why = why_name(why);
    format!(in alloc; "{name}: error: LogEnds {at} {why}\n")
}

// The line of a cause with a position.
pub(crate) fn place_line(
    alloc: Global,
    name: Option<CommandName>,
    what: &str,
    at: Lsn,
) -> Result<String, AllocError>
    ensures { IfOk result (λ line. string_bytes line ≡ line_with name
        (place_pieces what.now at)) }
{
    let name = name_text(name);
    format!(in alloc; "{name}: error: {what} {at}\n")
}

// The line of a record that can't be read, with a number.
fn record_line(
    alloc: Global,
    name: Option<CommandName>,
    what: &str,
    at: Lsn,
    number: u32,
) -> Result<String, AllocError>
    ensures { IfOk result (λ line. string_bytes line ≡ line_with name
        (record_pieces what.now at number)) }
{
    let name = name_text(name);
    format!(in alloc; "{name}: error: {what} {at} {number}\n")
}

// The line of what is wrong with a log.
fn log_line(alloc: Global, name: Option<CommandName>, log: &LogCause) -> Result<String, AllocError>
    ensures { IfOk result (λ line. string_bytes line ≡ line_of name (Cause.Log log.now)) }
{
    match log {
        LogCause::LogEnds(at, why) => end_line(alloc, name, *at, *why),
        LogCause::BadParts(at, offset) => record_line(alloc, name, "BadParts", *at, *offset),
        LogCause::Compressed(at, id) => record_line(alloc, name, "Compressed", *at, u32::from(*id)),
        LogCause::NoRecordAt(at) => place_line(alloc, name, "NoRecordAt", *at),
        LogCause::NoWal(path) => path_line(alloc, name, "NoWal", path),
        LogCause::BadSegment(path) => path_line(alloc, name, "BadSegment", path),
    }
}

/// A line on its way: none, one that takes no memory, or one that was made.
#[derive(Drop)]
pub enum Line {
    Nothing,
    Known(Fixed),
    Made(String),
}

// The line of what is wrong with a path.
fn path_cause_line(
    alloc: Global,
    name: Option<CommandName>,
    paths: &PathCause,
) -> Result<Line, AllocError>
    ensures line { IfOk result (λ line. made_text name line ≡
        line_of name (Cause.Paths paths.now)) }
    ensures known { has_values (Cause.Paths paths.now) ≡ false → IsOk result }
{
    Ok(match paths {
        PathCause::DotDot => Line::Known(Fixed::DotDot),
        PathCause::TooDeep(path) => Line::Made(path_line(alloc, name, "TooDeep", path)?),
        PathCause::PathsOverlap => Line::Known(Fixed::PathsOverlap),
        PathCause::NotFolder(path) => Line::Made(path_line(alloc, name, "NotFolder", path)?),
        PathCause::Link(path) => Line::Made(path_line(alloc, name, "Link", path)?),
        PathCause::NameNotText(path) => Line::Made(path_line(alloc, name, "NameNotText", path)?),
        PathCause::Occupied(path) => Line::Made(path_line(alloc, name, "Occupied", path)?),
    })
}

/// The line of a cause. One with values is made in memory.
pub fn line_of(alloc: Global, name: Option<CommandName>, cause: &Cause) -> Result<Line, AllocError>
    ensures line { IfOk result (λ line. made_text name line ≡ line_of name cause.now) }
    ensures known { has_values cause.now ≡ false → IsOk result }
{
    Ok(match cause {
        Cause::Done => Line::Nothing,
        Cause::Usage => Line::Known(Fixed::Usage),
        Cause::ReadFault => Line::Known(Fixed::ReadFault),
        Cause::WriteFault => Line::Known(Fixed::WriteFault),
        Cause::SinkFault => Line::Known(Fixed::SinkFault),
        Cause::OutOfMemory => Line::Known(Fixed::OutOfMemory),
        Cause::Changed(path) => Line::Made(path_line(alloc, name, "Changed", path)?),
        Cause::Unfinished(path) => Line::Made(path_line(alloc, name, "Unfinished", path)?),
        Cause::Paths(paths) => path_cause_line(alloc, name, paths)?,
        Cause::Control(control) => Line::Made(control_line(alloc, name, control)?),
        Cause::History(history) => history_line(alloc, name, history)?,
        Cause::Rewind(unfit) => Line::Made(unfit_line(alloc, name, unfit)?),
        Cause::Log(log) => Line::Made(log_line(alloc, name, log)?),
        Cause::Replay(replay) => Line::Made(replay_line(alloc, name, replay)?),
        Cause::Differs(path, block) => Line::Made(difference_line(alloc, name, path, *block)?),
    })
}
