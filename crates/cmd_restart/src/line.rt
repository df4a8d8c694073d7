// The line on what was done.
ghost use Rattle.std.specs.Prelude.{◌≡◌, ◌≤◌, IfErr, IsErrOf, OnErr, OnOk};
ghost use Rattle.cluster_tree.specs.Causes.{Rose};
ghost use Rattle.acts.specs.Acts.{Breaks, Puts, sunk};
ghost use Rattle.cmd_restart.specs.Restart.{ended_line, told_line};

use cluster_tree::Sink;
use cmd_walreplay::replayed_line;
use replay_restart::Restarted;
use run_acts::{Cause, tell};

// What is told where a replay had ended before.
#[tactic(auto, unfolding(crate::specs::Restart::ended_line))]
fn ended_line() -> &'static str
    ensures { result.now ≡ ended_line }
{
    "pg_walreplay: replay had ended\n"
}

/// Puts the line on what was done, by one write and without memory. Answers `SinkFault` only where that
/// write failed.
pub(crate) fn tell_restarted<O: Sink>(out: &mut O, done: Restarted) -> Result<(), Cause>
    ensures whole { OnOk result (Puts O.tells (told_line done)
        (sunk (O.written out.old) (O.failed_writes out.old))
        (sunk (O.written out.new) (O.failed_writes out.new))) }
    ensures part { OnErr result (Breaks O.tells (told_line done)
        (sunk (O.written out.old) (O.failed_writes out.old))
        (sunk (O.written out.new) (O.failed_writes out.new))) }
    ensures only { IfErr result (λ e. e ≡ Cause.SinkFault) }
    ensures later { O.failed_writes out.old ≤ O.failed_writes out.new }
    ensures sink_fault { IsErrOf result Cause.SinkFault →
        Rose (O.failed_writes out.old) (O.failed_writes out.new) }
{
    match done {
        Restarted::Replayed(count) => tell(out, replayed_line(count).as_str()),
        Restarted::HadEnded => tell(out, ended_line()),
    }
}
