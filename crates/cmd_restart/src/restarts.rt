// A replay of a cluster's log that can be started again.
ghost use Rattle.std.specs.Prelude.{◌≡◌, ◌≢◌, ◌⊎◌, ℕ, Bool, Err, IfErr, IsTrue, OnOk};
ghost use Rattle.cluster_tree.specs.Frame.{Came, moment_of};
ghost use Rattle.cluster_tree.specs.PathValue.{PathValue};
ghost use Rattle.cluster_tree.specs.Stops.{LeavesOnly};
ghost use Rattle.commands.specs.Fit.{IsFitRoot};
ghost use Rattle.acts.specs.Acts.{Sunk, seen, sunk};
ghost use Rattle.run_acts.specs.Answers.{Blames};
ghost use Rattle.run_acts.specs.Causes.{IsFree, cause_of, is_deep, is_of_files};
ghost use Rattle.run_acts.specs.Unseen.{CarriesUnseen};
ghost use Rattle.replay_core.specs.Stops.{IsDurable};
ghost use Rattle.cmd_restart.specs.Restart.{IsLeftByStart, IsRefused, IsRestartIn, LeavesRestarted, LeavesToGoOn, StaysRestarted, unknown_answer};
ghost use Rattle.rmgr_hooks.specs.Custom.{handed_in};

use crate::causes::restart_cause;
use crate::line::tell_restarted;
use cluster_tree::{Sink, Tree};
use commands::WalreplayWords;
use replay_restart::restart;
use rmgr_hooks::Manager;
use run_acts::Cause;
use std::alloc::Global;

/// Replays a cluster's log into its files so that it can be started again, and tells on `out` how many
/// records there were, where the last of them ends, and the cluster's timeline; or, where an earlier
/// replay had ended and only its mark and copies were left to remove, that it had. The line takes no
/// memory.
///
/// Answers the first fault that `restart` of `replay_restart` tells, as `restart_cause` names it. Up to
/// `NotRestartable`, in the order that it tells, nothing was changed; behind it a refusal leaves the
/// mark, and the same words start the replay again. `ReadFault`, `WriteFault` and `SinkFault` come only
/// where a call of that device failed, which it has counted, and `Changed` never where the tree tells
/// its contents. A line that failed leaves the cluster replayed. A stop at any moment leaves it
/// untouched, marked, or replayed.
pub fn restart_replay<F: Tree, O: Sink, M: Manager>(
    alloc: Global,
    tree: &mut F,
    out: &mut O,
    words: &WalreplayWords,
    custom: Option<&M>,
) -> Result<(), Cause>
    requires { IsFitRoot words.now.root }
    // the acts of an answer, whatever the tree is taken to have; one that is meant where it tells
    ensures carries { (err_tells : Bool) (err : Sunk) → CarriesUnseen (IsTrue F.tells) ⊥
        unknown_answer (IsRestartIn (IsTrue F.tells) (handed_in M.Manager custom.entry)
        (F.contents tree.old) words.now)
        O.tells err_tells (cause_of result)
        (seen (F.contents tree.old) (F.calls tree.old)
        (sunk (O.written out.old) (O.failed_writes out.old)) err)
        (seen (F.contents tree.new) (F.calls tree.new)
        (sunk (O.written out.new) (O.failed_writes out.new)) err) }
    // a replay that is done leaves what is meant, and tells it
    ensures restarted { IsTrue F.tells → OnOk result (LeavesRestarted
        (handed_in M.Manager custom.entry) words.now O.tells (F.contents tree.old)
        (F.contents tree.new) (O.written out.old) (O.written out.new)) }
    // and one that isn't has the cause of the first point that refuses, or a free one
    ensures refused { IsTrue F.tells → IfErr result (λ e. IsFree e ⊎
        IsRefused (handed_in M.Manager custom.entry) words.now (F.contents tree.old) e) }
    // the log stays, nothing is changed before every check has passed, and where it is refused behind
    // that, the mark stays
    ensures stays { IsTrue F.tells → StaysRestarted (handed_in M.Manager custom.entry) words.now
        (F.contents tree.old) (F.contents tree.new) (cause_of result) }
    // this is what a stop at any moment leaves; and once the replay is done, what stands
    ensures stops { IsTrue F.tells → LeavesOnly
        (IsLeftByStart (handed_in M.Manager custom.entry) words.now (moment_of F.Tree tree.old))
        (F.stops tree.old) (F.stops tree.new) }
    // and what the same words go on from
    ensures left { IsTrue F.tells → LeavesToGoOn F.Tree (handed_in M.Manager custom.entry)
        words.now tree.old tree.new }
    ensures synced { IsTrue F.tells → OnOk result (IsDurable (moment_of F.Tree tree.new)) }
    ensures blames { (n : ℕ) → Blames (cause_of result)
        (F.failed_reads tree.old) (F.failed_reads tree.new)
        (F.failed_changes tree.old) (F.failed_changes tree.new)
        (O.failed_writes out.old) (O.failed_writes out.new) n n }
    ensures only { IfErr result (λ e. IsTrue (is_of_files e) ⊎ IsTrue (is_deep e) ⊎
        (e ≡ Cause.WriteFault)) }
    ensures changed { IsTrue F.tells → (p : PathValue) → result ≢ Err (Cause.Changed p) }
    ensures frame { Came F.Tree tree.old tree.new }
{
    match restart(alloc, tree, &words.root, custom) {
        Ok(done) => tell_restarted(out, done),
        Err(fault) => Err(restart_cause(fault)),
    }
}
