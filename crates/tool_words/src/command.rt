// What the program's words ask for.
ghost use Rattle.std.specs.Prelude.{◌≡◌, ℕ, List, Option, map, string_bytes, IfOk};
ghost use Rattle.cluster_tree.specs.Causes.{Meets};
ghost use Rattle.commands.specs.Faults.{IsFree};
ghost use Rattle.commands.specs.Fit.{IsFit, IsFitRoot};
ghost use Rattle.command_words.specs.Answers.{AnswersAs};
ghost use Rattle.tool_words.specs.Command.{archivecleanup_asked, command_of, resetwal_asked, rewind_asked};
ghost use Rattle.tool_words.specs.Command.{pair_asked, root_asked, walcompare_asked, waldump_asked, walreplay_asked};
ghost use Rattle.tool_words.specs.Archivecleanup.{archivecleanup_of};
ghost use Rattle.tool_words.specs.Pair.{pair_texts_of};
ghost use Rattle.tool_words.specs.Resetwal.{resetwal_of};
ghost use Rattle.tool_words.specs.Rewind.{rewind_of};
ghost use Rattle.tool_words.specs.Walcompare.{walcompare_of};
ghost use Rattle.tool_words.specs.Waldump.{waldump_of};
ghost use Rattle.tool_words.specs.Walreplay.{walreplay_of};

use crate::archivecleanup::archivecleanup_words;
use crate::controldata::controldata_words;
use crate::dump::dump_asked;
use crate::pair::pair_words;
use crate::paths::{MOST_OF_FOLDER, MOST_OF_PAIR, MOST_OF_ROOT, path_named};
use crate::resetwal::resetwal_words;
use crate::rewind::rewind_words;
use crate::roots::two_roots;
use crate::walcompare::walcompare_words;
use crate::waldump::{WaldumpTexts, waldump_words};
use crate::walreplay::walreplay_words;
use cluster_tree::Path;
use command_words::WordsFault;
use commands::{
    ArchivecleanupWords, Command, CommandFault, CommandName, ControldataWords, PairWords,
    ResetwalWords, RewindWords, WalcompareWords, WaldumpWords, WalreplayWords, name_of,
};
use std::alloc::Global;
use wal_base::Text;

// The one root that words give.
fn root_asked(alloc: Global, read: Result<Text, WordsFault>) -> Result<Path, CommandFault>
    ensures answer { (asked : Option (List ℕ)) → AnswersAs asked read →
        Meets IsFree (root_asked asked) result }
    ensures fit { IfOk result IsFitRoot }
{
    match read {
        Ok(text) => path_named(alloc, MOST_OF_ROOT, text.as_str()),
        Err(WordsFault::Usage) => Err(CommandFault::Usage),
        Err(WordsFault::OutOfMemory) => Err(CommandFault::OutOfMemory),
    }
}

fn rewind_asked(alloc: Global, words: &[String]) -> Result<Command, CommandFault>
    ensures answer { Meets IsFree (rewind_asked (rewind_of (map string_bytes words.now))) result }
    ensures fit { IfOk result IsFit }
{
    match rewind_words(alloc, words) {
        Ok(texts) => {
            let target = texts.target.as_str();
            let source = texts.source.as_str();
            let (target, source) = two_roots(alloc, target, source)?;
            let asked = RewindWords {
                target,
                source,
                dry_run: texts.dry_run,
            };
            if texts.resume {
                Ok(Command::Resume(asked))
            } else {
                Ok(Command::Rewind(asked))
            }
        }
        Err(WordsFault::Usage) => Err(CommandFault::Usage),
        Err(WordsFault::OutOfMemory) => Err(CommandFault::OutOfMemory),
    }
}

fn walcompare_asked(alloc: Global, words: &[String]) -> Result<Command, CommandFault>
    ensures answer { Meets IsFree (walcompare_asked (walcompare_of (map string_bytes words.now))) result }
    ensures fit { IfOk result IsFit }
{
    match walcompare_words(alloc, words) {
        Ok(texts) => {
            let (first, second) = two_roots(alloc, texts.first.as_str(), texts.second.as_str())?;
            Ok(Command::Walcompare(WalcompareWords { first, second }))
        }
        Err(WordsFault::Usage) => Err(CommandFault::Usage),
        Err(WordsFault::OutOfMemory) => Err(CommandFault::OutOfMemory),
    }
}

fn waldump_asked(alloc: Global, words: &[String]) -> Result<Command, CommandFault>
    ensures answer { Meets IsFree (waldump_asked (waldump_of (map string_bytes words.now))) result }
    ensures fit { IfOk result IsFit }
{
    match waldump_words(alloc, words) {
        Ok(WaldumpTexts::Managers) => Ok(Command::Waldump(WaldumpWords::Managers)),
        Ok(WaldumpTexts::Dump(texts)) => dump_asked(alloc, texts),
        Err(WordsFault::Usage) => Err(CommandFault::Usage),
        Err(WordsFault::OutOfMemory) => Err(CommandFault::OutOfMemory),
    }
}

#[tactic(auto, using(crate::proofs::FitLemmas::fit_steps))]
fn resetwal_asked(alloc: Global, words: &[String]) -> Result<Command, CommandFault>
    ensures answer { Meets IsFree (resetwal_asked (resetwal_of (map string_bytes words.now))) result }
    ensures fit { IfOk result IsFit }
{
    match resetwal_words(alloc, words) {
        Ok(texts) => {
            let root = path_named(alloc, MOST_OF_ROOT, texts.root.as_str())?;
            let options = texts.options;
            Ok(Command::Resetwal(ResetwalWords { root, options }))
        }
        Err(WordsFault::Usage) => Err(CommandFault::Usage),
        Err(WordsFault::OutOfMemory) => Err(CommandFault::OutOfMemory),
    }
}

#[tactic(auto, using(crate::proofs::CleanupLemmas::words_steps))]
fn archivecleanup_asked(alloc: Global, words: &[String]) -> Result<Command, CommandFault>
    ensures answer { Meets IsFree (archivecleanup_asked (archivecleanup_of (map string_bytes words.now))) result }
    ensures fit { IfOk result IsFit }
{
    match archivecleanup_words(alloc, words) {
        Ok(texts) => {
            let folder = path_named(alloc, MOST_OF_FOLDER, texts.folder.as_str())?;
            Ok(Command::Archivecleanup(ArchivecleanupWords {
                folder,
                kept: texts.kept,
                extension: texts.extension,
                debug: texts.debug,
                dry_run: texts.dry_run,
            }))
        }
        Err(WordsFault::Usage) => Err(CommandFault::Usage),
        Err(WordsFault::OutOfMemory) => Err(CommandFault::OutOfMemory),
    }
}

fn walreplay_asked(alloc: Global, words: &[String]) -> Result<Command, CommandFault>
    ensures answer { Meets IsFree (walreplay_asked (walreplay_of (map string_bytes words.now))) result }
    ensures fit { IfOk result IsFit }
{
    match walreplay_words(alloc, words) {
        Ok(texts) => {
            let root = path_named(alloc, MOST_OF_ROOT, texts.root.as_str())?;
            let asked = WalreplayWords { root };
            if texts.restart {
                Ok(Command::Restart(asked))
            } else {
                Ok(Command::Walreplay(asked))
            }
        }
        Err(WordsFault::Usage) => Err(CommandFault::Usage),
        Err(WordsFault::OutOfMemory) => Err(CommandFault::OutOfMemory),
    }
}

fn pair_asked(alloc: Global, words: &[String]) -> Result<Command, CommandFault>
    ensures answer { Meets IsFree (pair_asked (pair_texts_of (map string_bytes words.now))) result }
    ensures fit { IfOk result IsFit }
{
    match pair_words(alloc, words) {
        Ok(texts) => {
            let root = path_named(alloc, MOST_OF_PAIR, texts.root.as_str())?;
            Ok(Command::Pair(PairWords {
                seed: texts.seed,
                blocks: texts.blocks,
                root,
            }))
        }
        Err(WordsFault::Usage) => Err(CommandFault::Usage),
        Err(WordsFault::OutOfMemory) => Err(CommandFault::OutOfMemory),
    }
}

/// What the words ask for, the first of them being a command's name.
///
/// Answers `Usage` where they are in no command's grammar, `DotDot` and `TooDeep` for a root or a
/// folder, and `PathsOverlap` for two roots; and `OutOfMemory` only for want of memory.
#[tactic(auto, unfolding(crate::specs::Command::command_named))]
pub fn read_command(alloc: Global, words: &[String]) -> Result<Command, CommandFault>
    ensures answer { Meets IsFree (command_of (map string_bytes words.now)) result }
    ensures fit { IfOk result IsFit }
{
    match name_of(words) {
        None => Err(CommandFault::Usage),
        Some(CommandName::PgRewind) => rewind_asked(alloc, words),
        Some(CommandName::PgWaldump) => waldump_asked(alloc, words),
        Some(CommandName::PgControldata) => {
            let root = root_asked(alloc, controldata_words(alloc, words))?;
            Ok(Command::Controldata(ControldataWords { root }))
        }
        Some(CommandName::PgResetwal) => resetwal_asked(alloc, words),
        Some(CommandName::PgArchivecleanup) => archivecleanup_asked(alloc, words),
        Some(CommandName::PgWalreplay) => walreplay_asked(alloc, words),
        Some(CommandName::PgWalcompare) => walcompare_asked(alloc, words),
        Some(CommandName::Pair) => pair_asked(alloc, words),
    }
}
