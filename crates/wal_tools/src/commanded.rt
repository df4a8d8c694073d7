// A command, carried out.
ghost use Rattle.std.specs.Prelude.{◌≡◌, ◌≢◌, ◌⊎◌, Err, IfErr, IsTrue, Ok, OnOk, Some};
ghost use Rattle.cluster_tree.specs.Frame.{Came, Reads, moment_of};
ghost use Rattle.cluster_tree.specs.PathValue.{PathValue};
ghost use Rattle.cluster_tree.specs.Stops.{LeavesOnly};
ghost use Rattle.commands.specs.Fit.{IsFit};
ghost use Rattle.acts.specs.Acts.{seen, sunk};
ghost use Rattle.run_acts.specs.Answers.{Blames};
ghost use Rattle.run_acts.specs.Causes.{cause_of, is_deep, is_of_files};
ghost use Rattle.run_acts.specs.Unseen.{CarriesUnseen};
ghost use Rattle.rmgr_hooks.specs.Custom.{handed_in};
ghost use Rattle.wal_tools.specs.Answers.{IsAnswer, answered};
ghost use Rattle.wal_tools.specs.Leaves.{LeavesAsked, StaysAsked};
ghost use Rattle.wal_tools.specs.Resumable.{LeavesFresh, LeavesStopped, LeavesToRestart, LeavesToResume, MakesResumed};
ghost use Rattle.wal_tools.specs.Stopped.{IsDurableAsked, IsLeftAsked};
ghost use Rattle.wal_tools.specs.Words.{AreFaulty, IsKnown, IsSeen, MayChange, NeedsNoTree, Walks, refused_by_words};

use cluster_tree::{Sink, Tree};
use cmd_archivecleanup::archivecleanup;
use cmd_controldata::controldata;
use cmd_pair::pair;
use cmd_resetwal::resetwal;
use cmd_restart::restart_replay;
use cmd_resume::resume;
use cmd_rewind::{OwnMark, rewind};
use cmd_walcompare::walcompare;
use cmd_waldump::waldump;
use cmd_walreplay::walreplay;
use commands::Command;
use rmgr_hooks::Manager;
use run_acts::Cause;
use std::alloc::Global;

/// Carries out a command; where a manager of an extension is handed in, the text of its records is its
/// own, and so is what they make of a page.
pub(crate) fn carry_out<F: Tree, O: Sink, E: Sink, M: Manager>(
    alloc: Global,
    command: &Command,
    tree: &mut F,
    out: &mut O,
    err: &mut E,
    now: i64,
    custom: Option<&M>,
) -> Result<(), Cause>
    requires { IsFit command.now }
    ensures carries { CarriesUnseen (IsSeen (IsTrue F.tells) (Ok command.now))
        (IsKnown (IsTrue F.tells) (Ok command.now))
        (answered (handed_in M.Manager custom.entry) (F.contents tree.old) now (Ok command.now))
        (IsAnswer (IsTrue F.tells) (handed_in M.Manager custom.entry) (F.contents tree.old) now
        (Ok command.now)) O.tells E.tells (cause_of result)
        (seen (F.contents tree.old) (F.calls tree.old)
        (sunk (O.written out.old) (O.failed_writes out.old))
        (sunk (E.written err.old) (E.failed_writes err.old)))
        (seen (F.contents tree.new) (F.calls tree.new)
        (sunk (O.written out.new) (O.failed_writes out.new))
        (sunk (E.written err.new) (E.failed_writes err.new))) }
    ensures blames { Blames (cause_of result)
        (F.failed_reads tree.old) (F.failed_reads tree.new)
        (F.failed_changes tree.old) (F.failed_changes tree.new)
        (O.failed_writes out.old) (O.failed_writes out.new)
        (E.failed_writes err.old) (E.failed_writes err.new) }
    ensures only { IfErr result (λ e. IsTrue (is_of_files e) ⊎
        ((e ≡ Cause.Usage) × AreFaulty (Ok command.now)) ⊎
        ((e ≡ Cause.WriteFault) × MayChange (Ok command.now)) ⊎
        (IsTrue (is_deep e) × Walks (Ok command.now))) }
    ensures unfit { (e : Cause) → refused_by_words (Ok command.now) ≡ Some e → result ≡ Err e }
    ensures apart { NeedsNoTree (Ok command.now) → tree.new ≡ tree.old }
    ensures changed { IsTrue F.tells → (p : PathValue) → result ≢ Err (Cause.Changed p) }
    ensures reads { ¬ MayChange (Ok command.now) → Reads F.Tree tree.old tree.new }
    ensures frame { Came F.Tree tree.old tree.new }
    ensures leaves { IsTrue F.tells → OnOk result
        (LeavesAsked (handed_in M.Manager custom.entry) (Ok command.now) now O.tells
        (F.contents tree.old) (F.contents tree.new) (O.written out.old) (O.written out.new)) }
    ensures stays { IsTrue F.tells →
        StaysAsked (handed_in M.Manager custom.entry) (Ok command.now)
        (F.contents tree.old) (F.contents tree.new) (cause_of result) }
    ensures stops { IsTrue F.tells →
        LeavesOnly (IsLeftAsked (handed_in M.Manager custom.entry) (Ok command.now) now
        (moment_of F.Tree tree.old)) (F.stops tree.old) (F.stops tree.new) }
    ensures resumable { IsTrue F.tells →
        LeavesToResume F.Tree (Ok command.now) now tree.old tree.new }
    ensures fresh { IsTrue F.tells → LeavesFresh F.Tree (Ok command.now) now tree.old tree.new }
    ensures again { IsTrue F.tells → LeavesStopped F.Tree (Ok command.now) tree.old tree.new }
    ensures restartable { IsTrue F.tells → LeavesToRestart F.Tree (handed_in M.Manager custom.entry)
        (Ok command.now) tree.old tree.new }
    ensures tries { IsTrue F.tells →
        MakesResumed F.Tree (Ok command.now) tree.old tree.new (cause_of result) }
    ensures durable { IsTrue F.tells → OnOk result (IsDurableAsked
        (Ok command.now) now (F.contents tree.old) (moment_of F.Tree tree.new)) }
{
    match command {
        Command::Rewind(words) => rewind(alloc, tree, err, words, now, OwnMark::Refused),
        Command::Resume(words) => resume(alloc, tree, err, words, now),
        Command::Controldata(words) => controldata(alloc, tree, out, words),
        Command::Waldump(words) => waldump(alloc, tree, out, words, custom),
        Command::Resetwal(words) => resetwal(alloc, tree, out, words, now),
        Command::Archivecleanup(words) => archivecleanup(alloc, tree, out, err, words),
        Command::Walreplay(words) => walreplay(alloc, tree, out, words, custom),
        Command::Restart(words) => restart_replay(alloc, tree, out, words, custom),
        Command::Walcompare(words) => walcompare(alloc, tree, out, words),
        Command::Pair(words) => pair(alloc, tree, out, words),
    }
}
