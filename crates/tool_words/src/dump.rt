// A dump of the log in a folder.
ghost use Rattle.std.specs.Prelude.{◌≡◌, IfOk, Ok, Some};
ghost use Rattle.cluster_tree.specs.Causes.{Meets};
ghost use Rattle.commands.specs.Faults.{IsFree};
ghost use Rattle.commands.specs.Fit.{IsFit};
ghost use Rattle.tool_words.specs.Command.{folder_text, front_text, segment_of, waldump_asked};
ghost use Rattle.tool_words.specs.declared.waldump.WaldumpTexts.TheVariants as texts;

use crate::paths::{MOST_OF_FOLDER, path_named};
use crate::waldump::{DumpTexts, SegmentWord};
use commands::{Command, CommandFault, DumpWords, WaldumpWords};
use std::alloc::Global;
use wal_base::Text;

// What stands before the name of STARTSEG.
fn front_text(first: &Option<SegmentWord>) -> &str
    ensures { result.now ≡ front_text first.now }
{
    match first {
        Some(word) => {
            let front = word.folder.as_str();
            if front.is_empty() { "." } else { front }
        }
        None => ".",
    }
}

#[tactic(auto, unfolding(crate::specs::Command::folder_text))]
fn folder_text(words: &DumpTexts) -> &str
    ensures { result.now ≡ folder_text words.now }
{
    match &words.path {
        Some(text) => text.as_str(),
        None => front_text(&words.first),
    }
}

fn segment_of(first: Option<SegmentWord>) -> Option<Text>
    ensures { result ≡ segment_of first }
{
    match first {
        Some(word) => Some(word.name),
        None => None,
    }
}

/// A dump of the log in the folder that the texts name. Answers `DotDot` and `TooDeep` for it.
pub(crate) fn dump_asked(alloc: Global, words: DumpTexts) -> Result<Command, CommandFault>
    ensures answer { Meets IsFree (waldump_asked (Some (texts.Dump words))) result }
    ensures fit { IfOk result IsFit }
{
    let folder = path_named(alloc, MOST_OF_FOLDER, folder_text(&words))?;
    Ok(Command::Waldump(WaldumpWords::Dump(DumpWords {
        folder,
        first: segment_of(words.first),
        last: words.last,
        start: words.start,
        stop: words.stop,
        timeline: words.timeline,
        filters: words.filters,
    })))
}
