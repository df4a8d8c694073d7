// What the words ask for.
ghost use Rattle.std.specs.Prelude.{◌≡◌, Err, IfOk, None, map, string_bytes};
ghost use Rattle.cluster_tree.specs.Causes.{Meets};
ghost use Rattle.commands.specs.Faults.{IsFree};
ghost use Rattle.commands.specs.Fit.{IsFit};
ghost use Rattle.commands.specs.Name.{name_of};
ghost use Rattle.tool_words.specs.Command.{command_of};
ghost use Rattle.wal_tools.specs.Words.{words_cause};

use commands::{Command, CommandFault, name_of};
use run_acts::{Cause, PathCause};
use std::alloc::Global;
use tool_words::read_command;

/// What the words ask for, the first of them being the command's name.
#[tactic(auto, unfolding(tool_words::specs::Command::command_named))]
pub(crate) fn command_of(alloc: Global, words: &[String]) -> Result<Command, CommandFault>
    ensures answer { Meets IsFree (command_of (map string_bytes words.now)) result }
    ensures fit { IfOk result IsFit }
    ensures nameless { name_of (map string_bytes words.now) ≡ None →
        result ≡ Err CommandFault.Usage }
{
    match name_of(words) {
        None => Err(CommandFault::Usage),
        Some(_) => read_command(alloc, words),
    }
}

/// The cause of words that ask for no command.
pub(crate) fn words_cause(fault: CommandFault) -> Cause
    ensures { result ≡ words_cause fault }
{
    match fault {
        CommandFault::Usage => Cause::Usage,
        CommandFault::DotDot => Cause::Paths(PathCause::DotDot),
        CommandFault::TooDeep(path) => Cause::Paths(PathCause::TooDeep(path)),
        CommandFault::PathsOverlap => Cause::Paths(PathCause::PathsOverlap),
        CommandFault::OutOfMemory => Cause::OutOfMemory,
    }
}
