// The last line of a run, and its exit.
ghost use Rattle.std.specs.Prelude.{◌≡◌, ◌⊎◌, ◌≤◌, IsTrue};
ghost use Rattle.acts.specs.Acts.{sunk};
ghost use Rattle.run_acts.specs.Causes.{has_values, status_of};
ghost use Rattle.cause_lines.specs.Lines.{line_of};
ghost use Rattle.wal_tools.specs.Runs.{Says};

use acts::put;
use cause_lines::{Fixed, Line, fixed_line, line_of};
use cluster_tree::Sink;
use commands::CommandName;
use run_acts::{Cause, Exit};
use std::alloc::Global;

// Writes a line, whatever becomes of it, and nothing where it is empty.
fn say<E: Sink>(err: &mut E, line: &str)
    ensures says { Says E.tells line.now
        (sunk (E.written err.old) (E.failed_writes err.old))
        (sunk (E.written err.new) (E.failed_writes err.new)) }
    ensures later { E.failed_writes err.old ≤ E.failed_writes err.new }
{
    if line.is_empty() {
        return;
    }
    match put(err, line) {
        Ok(()) => (),
        Err(_) => (),
    }
}

/// Ends a run with a cause: writes its line on `err`, which begins with the command's name, and gives
/// the exit. `Done` has no line. Where there is no memory for the line of a cause with values, the
/// cause becomes `OutOfMemory`. Where writing the line fails, cause and status stay.
#[tactic(auto, using(crate::proofs::RunLemmas::line_steps))]
pub fn finish<E: Sink>(alloc: Global, name: Option<CommandName>, cause: Cause, err: &mut E) -> Exit
    ensures cause { (result.cause ≡ cause) ⊎
        (IsTrue (has_values cause) × (result.cause ≡ Cause.OutOfMemory)) }
    ensures status { result.status ≡ status_of result.cause }
    ensures says { Says E.tells (line_of name result.cause)
        (sunk (E.written err.old) (E.failed_writes err.old))
        (sunk (E.written err.new) (E.failed_writes err.new)) }
    ensures later { E.failed_writes err.old ≤ E.failed_writes err.new }
{
    match line_of(alloc, name, &cause) {
        Ok(Line::Nothing) => {
            say(err, "");
            Exit::of(cause)
        }
        Ok(Line::Known(fixed)) => {
            say(err, fixed_line(name, fixed));
            Exit::of(cause)
        }
        Ok(Line::Made(line)) => {
            say(err, line.as_str());
            Exit::of(cause)
        }
        Err(_) => {
            say(err, fixed_line(name, Fixed::OutOfMemory));
            Exit::of(Cause::OutOfMemory)
        }
    }
}
