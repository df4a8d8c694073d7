// The lines of clusters, files, histories and plans that are unfit.
ghost use Rattle.std.specs.Prelude.{◌≡◌, string_bytes, false, IfOk, IsOk};
ghost use Rattle.cause_lines.specs.Lines.{line_of, line_with, made_text};
ghost use Rattle.cause_lines.specs.Pieces.{ends_pieces, entry_pieces, missing_pieces, special_pieces, systems_pieces};
ghost use Rattle.run_acts.specs.Causes.{has_values};

use crate::fixed::Fixed;
use crate::lines::{Line, number_line, path_line, place_line};
use cluster_tree::Path;
use commands::{CommandName, name_text};
use run_acts::{Cause, HistoryCause, RewindCause};
use std::alloc::{AllocError, Global};
use wal_base::Lsn;

// The line of two systems.
fn systems_line(
    alloc: Global,
    name: Option<CommandName>,
    target: u64,
    source: u64,
) -> Result<String, AllocError>
    ensures { IfOk result (λ line. string_bytes line ≡ line_with name
        (systems_pieces target source)) }
{
    let name = name_text(name);
    format!(in alloc; "{name}: error: SystemsDiffer {target} {source}\n")
}

// The line of a cause with two positions.
pub(crate) fn ends_line(
    alloc: Global,
    name: Option<CommandName>,
    what: &str,
    first: Lsn,
    second: Lsn,
) -> Result<String, AllocError>
    ensures { IfOk result (λ line. string_bytes line ≡ line_with name
        (ends_pieces what.now first second)) }
{
    let name = name_text(name);
    format!(in alloc; "{name}: error: {what} {first} {second}\n")
}

// The line of a record that isn't taken.
pub(crate) fn special_line(
    alloc: Global,
    name: Option<CommandName>,
    what: &str,
    at: Lsn,
    manager: u8,
    info: u8,
) -> Result<String, AllocError>
    ensures { IfOk result (λ line. string_bytes line ≡ line_with name
        (special_pieces what.now at manager info)) }
{
    let name = name_text(name);
    format!(in alloc; "{name}: error: {what} {at} {manager} {info}\n")
}

/// The line of clusters, files or plans that are unfit.
pub(crate) fn unfit_line(
    alloc: Global,
    name: Option<CommandName>,
    unfit: &RewindCause,
) -> Result<String, AllocError>
    ensures { IfOk result (λ line. string_bytes line ≡
        line_of name (Cause.Rewind unfit.now)) }
{
    match unfit {
        RewindCause::SystemsDiffer(target, source) => systems_line(alloc, name, *target, *source),
        RewindCause::NoHints(root) => path_line(alloc, name, "NoHints", root),
        RewindCause::NotClean(root, state) => {
            number_line(alloc, name, "NotClean", root, u64::from(*state))
        }
        RewindCause::EndNotRecord(end, found) => {
            ends_line(alloc, name, "EndNotRecord", *end, *found)
        }
        RewindCause::NoCommonCheckpoint(at) => place_line(alloc, name, "NoCommonCheckpoint", *at),
        RewindCause::UnknownSpecial(at, manager, info) => {
            special_line(alloc, name, "UnknownSpecial", *at, *manager, *info)
        }
        RewindCause::KindsDiffer(path) => path_line(alloc, name, "KindsDiffer", path),
        RewindCause::OddSize(path, bytes) => number_line(alloc, name, "OddSize", path, *bytes),
        RewindCause::BadPlan(root, line) => number_line(alloc, name, "BadPlan", root, *line),
        RewindCause::SourceDiffers(path) => path_line(alloc, name, "SourceDiffers", path),
        RewindCause::TargetDiffers(path) => path_line(alloc, name, "TargetDiffers", path),
    }
}

// The line of a history that isn't there.
fn missing_line(
    alloc: Global,
    name: Option<CommandName>,
    root: &Path,
    tli: u32,
) -> Result<String, AllocError>
    ensures { IfOk result (λ line. string_bytes line ≡ line_with name
        (missing_pieces root.now tli)) }
{
    let name = name_text(name);
    format!(in alloc; "{name}: error: HistoryMissing {root} {tli}\n")
}

// The line of a line of a history.
fn entry_line(
    alloc: Global,
    name: Option<CommandName>,
    what: &str,
    root: &Path,
    tli: u32,
    number: u64,
) -> Result<String, AllocError>
    ensures { IfOk result (λ line. string_bytes line ≡ line_with name
        (entry_pieces what.now root.now tli number)) }
{
    let name = name_text(name);
    format!(in alloc; "{name}: error: {what} {root} {tli} {number}\n")
}

/// The line of what is wrong with a history.
pub(crate) fn history_line(
    alloc: Global,
    name: Option<CommandName>,
    history: &HistoryCause,
) -> Result<Line, AllocError>
    ensures line { IfOk result (λ line. made_text name line ≡
        line_of name (Cause.History history.now)) }
    ensures known { has_values (Cause.History history.now) ≡ false → IsOk result }
{
    match history {
        HistoryCause::HistoryMissing(root, tli) => {
            Ok(Line::Made(missing_line(alloc, name, root, *tli)?))
        }
        HistoryCause::BadLine(root, tli, number) => {
            let line = entry_line(alloc, name, "BadLine", root, *tli, *number)?;
            Ok(Line::Made(line))
        }
        HistoryCause::NotRising(root, tli, number) => {
            let line = entry_line(alloc, name, "NotRising", root, *tli, *number)?;
            Ok(Line::Made(line))
        }
        HistoryCause::NoCommonAncestor => Ok(Line::Known(Fixed::NoCommonAncestor)),
    }
}
