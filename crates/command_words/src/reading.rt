//! Reading the words of a command.

ghost use Rattle.std.specs.Prelude.{◌≡◌, true, false, IfOk, map};
ghost use Rattle.std.specs.String.{string_bytes};
ghost use Rattle.clap.specs.Faults.{is_simple_and_free};
ghost use Rattle.clap.specs.Simple.{app_of};
ghost use Rattle.clap.specs.Walk.{rule_of};
ghost use Rattle.command_words.specs.Table.{command_with, found_in, rule_of_entry, rules_of};
ghost use Rattle.command_words.specs.Answers.{AnswersAs};

use crate::entry::{Entry, Takes};
use crate::fault::WordsFault;
use crate::found::Found;
use clap::error::ErrorKind;
use clap::{Arg, ArgAction, Command};
use std::alloc::{AllocError, Global};

// An entry as an argument of clap's.
fn argument<'a>(alloc: Global, entry: Entry) -> Arg<'a>
    ensures rule { rule_of result ≡ rule_of_entry entry }
    ensures local { result.global ≡ false }
{
    let mut argument = Arg::new(alloc, entry.id);
    if let Some(letter) = entry.letter {
        argument = argument.short(letter);
    }
    if let Some(long) = entry.long {
        argument = argument.long(long);
    }
    match entry.takes {
        Takes::Value => argument.action(ArgAction::Set),
        Takes::Nothing => argument.action(ArgAction::SetTrue),
    }
}

// The command of a table. It has no help flag and no version, so that words for them are unknown.
fn command<'a>(alloc: Global, table: &[Entry]) -> Result<Command<'a>, AllocError>
    ensures { IfOk result (λ c. app_of c ≡ command_with (rules_of table.now)) }
{
    let mut command = Command::new(alloc, "command").disable_help_flag(true);
    for entry in table {
        command = command.arg(argument(alloc, *entry))?;
    }
    Ok(command)
}

/// What the words give to a command with just the options, flags and words of this table. The first
/// word is the command's name.
///
/// The table is one of which `clap` promises what it takes, which a table of literals shows by
/// computing (`simple`). Answers `Usage` exactly where the words are not in the command's grammar.
pub fn find<'a>(
    alloc: Global,
    table: &[Entry],
    words: &'a [String],
) -> Result<Found<'a>, WordsFault>
    requires simple { is_simple_and_free (command_with (rules_of table.now)) ≡ true }
    ensures exact { AnswersAs (found_in (rules_of table.now) (map string_bytes words.now)) result }
{
    let command = command(alloc, table)?;
    match command.try_get_matches_from(words) {
        Ok(matches) => Ok(Found::new(matches)),
        Err(error) => match error.kind() {
            ErrorKind::OutOfMemory => Err(WordsFault::OutOfMemory),
            _ => Err(WordsFault::Usage),
        },
    }
}
