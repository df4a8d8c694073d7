// The lines of replays.
ghost use Rattle.std.specs.Prelude.{◌≡◌, string_bytes, IfOk};
ghost use Rattle.cause_lines.specs.Lines.{line_of, line_with};
ghost use Rattle.cause_lines.specs.Pieces.{block_pieces, redo_name, redo_pieces};

use crate::lines::{number_line, path_line};
use crate::unfit::{ends_line, special_line};
use block_refs::BlockName;
use commands::{CommandName, name_text};
use page_layout::RedoWhy;
use run_acts::{Cause, ReplayCause};
use std::alloc::{AllocError, Global};
use wal_base::Lsn;

fn redo_name(why: RedoWhy) -> &'static str
    ensures { result.now ≡ redo_name why }
{
    match why {
        RedoWhy::Layout => "Layout",
        RedoWhy::Place => "Place",
        RedoWhy::Room => "Room",
        RedoWhy::PageShape => "PageShape",
    }
}

// The line of a record that isn't redone.
fn redo_line(
    alloc: Global,
    name: Option<CommandName>,
    at: Lsn,
    block: BlockName,
    why: RedoWhy,
) -> Result<String, AllocError>
    ensures { IfOk result (λ line. string_bytes line ≡ line_with name (redo_pieces at block why)) }
{
    let name = name_text(name);
    let why = redo_name(why);
    format!(in alloc; "{name}: error: RedoFailed {at} {block} {why}\n")
}

// The line of a cause with a block.
fn block_line(
    alloc: Global,
    name: Option<CommandName>,
    what: &str,
    block: BlockName,
) -> Result<String, AllocError>
    ensures { IfOk result (λ line. string_bytes line ≡ line_with name
        (block_pieces what.now block)) }
{
    let name = name_text(name);
    format!(in alloc; "{name}: error: {what} {block}\n")
}

/// The line of why a log isn't replayed, or not to its end.
pub(crate) fn replay_line(
    alloc: Global,
    name: Option<CommandName>,
    replay: &ReplayCause,
) -> Result<String, AllocError>
    ensures { IfOk result (λ line. string_bytes line ≡
        line_of name (Cause.Replay replay.now)) }
{
    match replay {
        ReplayCause::ChecksumsOn(root) => path_line(alloc, name, "ChecksumsOn", root),
        ReplayCause::NoLabel(root) => path_line(alloc, name, "NoLabel", root),
        ReplayCause::BadLabel(root, line) => number_line(alloc, name, "BadLabel", root, *line),
        ReplayCause::NotInProfile(at, manager, info) => {
            special_line(alloc, name, "NotInProfile", *at, *manager, *info)
        }
        ReplayCause::EndsTooSoon(end, least) => {
            ends_line(alloc, name, "EndsTooSoon", *end, *least)
        }
        ReplayCause::RedoFailed(at, block, why) => redo_line(alloc, name, *at, *block, *why),
        ReplayCause::MissingPage(block) => block_line(alloc, name, "MissingPage", *block),
        ReplayCause::ShadowDiffers(copy) => path_line(alloc, name, "ShadowDiffers", copy),
        ReplayCause::NotRestartable(block) => block_line(alloc, name, "NotRestartable", *block),
    }
}
