// The top calls.
ghost use Rattle.std.specs.Prelude.{◌≡◌, ◌≢◌, ◌⊎◌, Err, IsTrue, None, OnOk, Some, map, string_bytes};
ghost use Rattle.cluster_tree.specs.Frame.{Came, Reads, moment_of};
ghost use Rattle.cluster_tree.specs.PathValue.{PathValue};
ghost use Rattle.cluster_tree.specs.Stops.{LeavesOnly};
ghost use Rattle.commands.specs.Name.{name_of};
ghost use Rattle.tool_words.specs.Command.{command_of};
ghost use Rattle.acts.specs.Acts.{seen, sunk};
ghost use Rattle.run_acts.specs.Answers.{Blames, cause_in};
ghost use Rattle.run_acts.specs.Causes.{IsFree, cause_of, is_deep, is_of_text, status_of};
ghost use Rattle.run_acts.specs.Unseen.{CarriesUnseen};
ghost use Rattle.rmgr_hooks.specs.Custom.{handed_in};
ghost use Rattle.cause_lines.specs.Lines.{line_of};
ghost use Rattle.wal_tools.specs.Answers.{IsAnswer, answered};
ghost use Rattle.wal_tools.specs.Converges.{ConvergesAsked};
ghost use Rattle.wal_tools.specs.Leaves.{LeavesAsked, StaysAsked};
ghost use Rattle.wal_tools.specs.Runs.{Runs};
ghost use Rattle.wal_tools.specs.Restarted.{GoesOn, LeavesStops};
ghost use Rattle.wal_tools.specs.Resumable.{LeavesFresh, LeavesStopped, LeavesToRestart, LeavesToResume, MakesResumed};
ghost use Rattle.wal_tools.specs.Stopped.{IsDurableAsked, IsLeftAsked};
ghost use Rattle.wal_tools.specs.Words.{AreFaulty, IsKnown, IsSeen, MayChange, NeedsNoTree, Walks, refused_by_words};

use crate::commanded::carry_out;
use crate::ending::finish;
use crate::words::{command_of, words_cause};
use cluster_tree::{Sink, Tree};
use commands::{CommandFault, name_of};
use rmgr_hooks::{Manager, NoManager};
use run_acts::{Cause, Exit, PathCause};
use std::alloc::Global;

// Answers the words, but for the line of the cause.
fn answer<F: Tree, O: Sink, E: Sink, M: Manager>(
    alloc: Global,
    words: &[String],
    tree: &mut F,
    out: &mut O,
    err: &mut E,
    now: i64,
    custom: Option<&M>,
) -> Result<(), Cause>
    ensures carries { CarriesUnseen
        (IsSeen (IsTrue F.tells) (command_of (map string_bytes words.now)))
        (IsKnown (IsTrue F.tells) (command_of (map string_bytes words.now)))
        (answered (handed_in M.Manager custom.entry) (F.contents tree.old) now
        (command_of (map string_bytes words.now)))
        (IsAnswer (IsTrue F.tells) (handed_in M.Manager custom.entry) (F.contents tree.old) now
        (command_of (map string_bytes words.now))) O.tells E.tells (cause_of result)
        (seen (F.contents tree.old) (F.calls tree.old)
        (sunk (O.written out.old) (O.failed_writes out.old))
        (sunk (E.written err.old) (E.failed_writes err.old)))
        (seen (F.contents tree.new) (F.calls tree.new)
        (sunk (O.written out.new) (O.failed_writes out.new))
        (sunk (E.written err.new) (E.failed_writes err.new))) }
    ensures blames { Blames (cause_of result)
        (F.failed_reads tree.old) (F.failed_reads tree.new)
        (F.failed_changes tree.old) (F.failed_changes tree.new)
        (O.failed_writes out.old) (O.failed_writes out.new)
        (E.failed_writes err.old) (E.failed_writes err.new) }
    ensures usage { result ≡ Err Cause.Usage → AreFaulty (command_of (map string_bytes words.now)) }
    ensures nameless { name_of (map string_bytes words.now) ≡ None → result ≡ Err Cause.Usage }
    ensures unfit { (e : Cause) → refused_by_words (command_of (map string_bytes words.now))
        ≡ Some e → (result ≡ Err e) ⊎ (result ≡ Err Cause.OutOfMemory) }
    ensures texts { (p : PathCause) → IsTrue (is_of_text p) → result ≡ Err (Cause.Paths p) →
        (refused_by_words (command_of (map string_bytes words.now)) ≡ Some (Cause.Paths p)) ⊎
        (IsTrue (is_deep (Cause.Paths p)) × Walks (command_of (map string_bytes words.now))) }
    ensures apart { NeedsNoTree (command_of (map string_bytes words.now)) → tree.new ≡ tree.old }
    ensures changed { IsTrue F.tells → (p : PathValue) → result ≢ Err (Cause.Changed p) }
    ensures write_fault { result ≡ Err Cause.WriteFault →
        MayChange (command_of (map string_bytes words.now)) }
    ensures reads { ¬ MayChange (command_of (map string_bytes words.now)) →
        Reads F.Tree tree.old tree.new }
    ensures frame { Came F.Tree tree.old tree.new }
    ensures leaves { IsTrue F.tells → OnOk result (LeavesAsked (handed_in M.Manager custom.entry)
        (command_of (map string_bytes words.now)) now O.tells (F.contents tree.old)
        (F.contents tree.new) (O.written out.old) (O.written out.new)) }
    ensures stays { IsTrue F.tells → StaysAsked (handed_in M.Manager custom.entry)
        (command_of (map string_bytes words.now)) (F.contents tree.old) (F.contents tree.new)
        (cause_of result) }
    ensures stops { IsTrue F.tells → LeavesOnly (IsLeftAsked (handed_in M.Manager custom.entry)
        (command_of (map string_bytes words.now)) now (moment_of F.Tree tree.old))
        (F.stops tree.old) (F.stops tree.new) }
    ensures resumable { IsTrue F.tells → LeavesToResume F.Tree
        (command_of (map string_bytes words.now)) now tree.old tree.new }
    ensures fresh { IsTrue F.tells → LeavesFresh F.Tree
        (command_of (map string_bytes words.now)) now tree.old tree.new }
    ensures again { IsTrue F.tells → LeavesStopped F.Tree
        (command_of (map string_bytes words.now)) tree.old tree.new }
    ensures restartable { IsTrue F.tells → LeavesToRestart F.Tree (handed_in M.Manager custom.entry)
        (command_of (map string_bytes words.now)) tree.old tree.new }
    ensures tries { IsTrue F.tells → MakesResumed F.Tree
        (command_of (map string_bytes words.now)) tree.old tree.new (cause_of result) }
    ensures durable { IsTrue F.tells → OnOk result (IsDurableAsked
        (command_of (map string_bytes words.now)) now (F.contents tree.old)
        (moment_of F.Tree tree.new)) }
    ensures undone { result ≢ Err Cause.Done }
{
    match command_of(alloc, words) {
        Ok(command) => carry_out(alloc, &command, tree, out, err, now, custom),
        Err(CommandFault::OutOfMemory) => Err(Cause::OutOfMemory),
        Err(fault) => Err(words_cause(fault)),
    }
}

fn cause_of(outcome: Result<(), Cause>) -> Cause
    ensures { result ≡ cause_of outcome }
{
    match outcome {
        Ok(()) => Cause::Done,
        Err(cause) => cause,
    }
}

/// Carries out the command that the words ask for, and tells how it ended.
///
/// `words` are the command and its words, `tree` holds the files, `out` and `err` are standard
/// output and standard error, and `now` is in seconds since 1970. Where a manager of an extension is
/// handed in, pg_waldump shows the text of its records as its own, and pg_walreplay replays the records
/// that it knows. Where the run ends in another cause than `Done`, one line on `err` names it.
pub fn run_with<F: Tree, O: Sink, E: Sink, M: Manager>(
    alloc: Global,
    words: &[String],
    tree: &mut F,
    out: &mut O,
    err: &mut E,
    now: i64,
    custom: Option<&M>,
) -> Exit
    ensures status { result.status ≡ status_of result.cause }
    // the cause is that of the words and the contents, a fault of a device, or want of memory
    ensures exact { IsKnown (IsTrue F.tells) (command_of (map string_bytes words.now)) →
        IsFree result.cause ⊎ (result.cause ≡ cause_in (answered
        (handed_in M.Manager custom.entry) (F.contents tree.old) now
        (command_of (map string_bytes words.now))).refusal) }
    // the acts of the command, in order, as far as they came, and then the line of the cause
    ensures runs { Runs (IsSeen (IsTrue F.tells) (command_of (map string_bytes words.now)))
        (IsKnown (IsTrue F.tells) (command_of (map string_bytes words.now)))
        (answered (handed_in M.Manager custom.entry) (F.contents tree.old) now
        (command_of (map string_bytes words.now)))
        (IsAnswer (IsTrue F.tells) (handed_in M.Manager custom.entry) (F.contents tree.old) now
        (command_of (map string_bytes words.now))) O.tells E.tells result.cause
        (line_of (name_of (map string_bytes words.now)) result.cause)
        (seen (F.contents tree.old) (F.calls tree.old)
        (sunk (O.written out.old) (O.failed_writes out.old))
        (sunk (E.written err.old) (E.failed_writes err.old)))
        (seen (F.contents tree.new) (F.calls tree.new)
        (sunk (O.written out.new) (O.failed_writes out.new))
        (sunk (E.written err.new) (E.failed_writes err.new))) }

    // each fault of a device comes only where its own count rose
    ensures blames { Blames result.cause
        (F.failed_reads tree.old) (F.failed_reads tree.new)
        (F.failed_changes tree.old) (F.failed_changes tree.new)
        (O.failed_writes out.old) (O.failed_writes out.new)
        (E.failed_writes err.old) (E.failed_writes err.new) }
    ensures write_fault { result.cause ≡ Cause.WriteFault →
        MayChange (command_of (map string_bytes words.now)) }
    ensures changed { IsTrue F.tells → (p : PathValue) → result.cause ≢ Cause.Changed p }

    // a rewind that is done leaves the rewound tree, a resume what its changes make, and a replay the
    // replayed tree, which it tells; of a comparison that is done the clusters are the same; and a pair
    // that is done was made and tried
    ensures leaves { IsTrue F.tells → result.cause ≡ Cause.Done → LeavesAsked
        (handed_in M.Manager custom.entry) (command_of (map string_bytes words.now)) now O.tells
        (F.contents tree.old) (F.contents tree.new) (O.written out.old) (O.written out.new) }
    // and the rewound target follows its source, also of a rewind that was stopped and is resumed: where
    // both grew from one state, replay of the source's log gives below it what it gives below a whole
    // copy of the source; and a replay that was stopped and is started again leaves what one run does
    ensures converges { IsTrue F.tells → result.cause ≡ Cause.Done → ConvergesAsked
        (handed_in M.Manager custom.entry) (command_of (map string_bytes words.now)) now
        (F.contents tree.old) (F.contents tree.new) }
    // whatever its cause, a replay leaves the log, and a refusal behind its first change the mark; and
    // pair all but its clusters
    ensures stays { IsTrue F.tells → StaysAsked (handed_in M.Manager custom.entry)
        (command_of (map string_bytes words.now)) (F.contents tree.old) (F.contents tree.new)
        result.cause }
    // a stop at any moment, of a resume too, leaves a cluster untouched, marked as unfinished or whole
    ensures stops { IsTrue F.tells → LeavesOnly (IsLeftAsked (handed_in M.Manager custom.entry)
        (command_of (map string_bytes words.now)) now (moment_of F.Tree tree.old))
        (F.stops tree.old) (F.stops tree.new) }
    // a rewind that begins on synced contents leaves these at any stop, or what a plan of just what is
    // needed left, which a resume completes where its mark reads as complete
    ensures resumable { IsTrue F.tells → LeavesToResume F.Tree
        (command_of (map string_bytes words.now)) now tree.old tree.new }
    // so does a resume where no complete mark stands
    ensures fresh { IsTrue F.tells → LeavesFresh F.Tree
        (command_of (map string_bytes words.now)) now tree.old tree.new }
    // and a resume of a rewind that was stopped, from synced contents on, leaves that rewind, stopped again,
    // or the rewound tree
    ensures again { IsTrue F.tells → LeavesStopped F.Tree
        (command_of (map string_bytes words.now)) tree.old tree.new }
    // a stop of a replay that can be started again, from synced contents on that such stops left, leaves
    // what such stops leave
    ensures restartable { IsTrue F.tells → LeavesStops F.Tree (handed_in M.Manager custom.entry)
        (command_of (map string_bytes words.now)) tree.old tree.new }
    // and it goes on from that, unless something is in its way or the run that was stopped would have
    // broken off too
    ensures goes_on { IsTrue F.tells → GoesOn (handed_in M.Manager custom.entry)
        (command_of (map string_bytes words.now)) (F.contents tree.old) result.cause }
    // the calls of a resume are the first of the changes that its mark's plan says; where what stands
    // differs, just those before the first change that it refuses
    ensures tries { IsTrue F.tells → MakesResumed F.Tree
        (command_of (map string_bytes words.now)) tree.old tree.new result.cause }
    // and once it is done, what stands
    ensures durable { IsTrue F.tells → result.cause ≡ Cause.Done → IsDurableAsked
        (command_of (map string_bytes words.now)) now (F.contents tree.old)
        (moment_of F.Tree tree.new) }

    // what the words alone decide, over every tree
    ensures usage { result.cause ≡ Cause.Usage →
        AreFaulty (command_of (map string_bytes words.now)) }
    ensures nameless { name_of (map string_bytes words.now) ≡ None → result.cause ≡ Cause.Usage }
    ensures unfit { (e : Cause) → refused_by_words (command_of (map string_bytes words.now))
        ≡ Some e → (result.cause ≡ e) ⊎ (result.cause ≡ Cause.OutOfMemory) }
    // and where a walk over folders finds a path that is too deep
    ensures texts { (p : PathCause) → IsTrue (is_of_text p) → result.cause ≡ Cause.Paths p →
        (refused_by_words (command_of (map string_bytes words.now)) ≡ Some (Cause.Paths p)) ⊎
        (IsTrue (is_deep (Cause.Paths p)) × Walks (command_of (map string_bytes words.now))) }

    // the list of resource managers, and words that refuse, need no tree; what only reads changes none
    ensures apart { NeedsNoTree (command_of (map string_bytes words.now)) → tree.new ≡ tree.old }
    ensures reads { ¬ MayChange (command_of (map string_bytes words.now)) →
        Reads F.Tree tree.old tree.new }
    ensures frame { Came F.Tree tree.old tree.new }
{
    let name = name_of(words);
    let outcome = answer(alloc, words, tree, out, err, now, custom);
    finish(alloc, name, cause_of(outcome), err)
}

/// Carries out the command that the words ask for, and tells how it ended, as `run_with` does without a
/// manager of an extension.
pub fn run<F: Tree, O: Sink, E: Sink>(
    alloc: Global,
    words: &[String],
    tree: &mut F,
    out: &mut O,
    err: &mut E,
    now: i64,
) -> Exit
    ensures status { result.status ≡ status_of result.cause }
    ensures exact { IsKnown (IsTrue F.tells) (command_of (map string_bytes words.now)) →
        IsFree result.cause ⊎ (result.cause ≡ cause_in (answered
        None (F.contents tree.old) now
        (command_of (map string_bytes words.now))).refusal) }
    ensures runs { Runs (IsSeen (IsTrue F.tells) (command_of (map string_bytes words.now)))
        (IsKnown (IsTrue F.tells) (command_of (map string_bytes words.now)))
        (answered None (F.contents tree.old) now
        (command_of (map string_bytes words.now)))
        (IsAnswer (IsTrue F.tells) None (F.contents tree.old) now
        (command_of (map string_bytes words.now))) O.tells E.tells result.cause
        (line_of (name_of (map string_bytes words.now)) result.cause)
        (seen (F.contents tree.old) (F.calls tree.old)
        (sunk (O.written out.old) (O.failed_writes out.old))
        (sunk (E.written err.old) (E.failed_writes err.old)))
        (seen (F.contents tree.new) (F.calls tree.new)
        (sunk (O.written out.new) (O.failed_writes out.new))
        (sunk (E.written err.new) (E.failed_writes err.new))) }

    ensures blames { Blames result.cause
        (F.failed_reads tree.old) (F.failed_reads tree.new)
        (F.failed_changes tree.old) (F.failed_changes tree.new)
        (O.failed_writes out.old) (O.failed_writes out.new)
        (E.failed_writes err.old) (E.failed_writes err.new) }
    ensures write_fault { result.cause ≡ Cause.WriteFault →
        MayChange (command_of (map string_bytes words.now)) }
    ensures changed { IsTrue F.tells → (p : PathValue) → result.cause ≢ Cause.Changed p }

    ensures leaves { IsTrue F.tells → result.cause ≡ Cause.Done → LeavesAsked None
        (command_of (map string_bytes words.now)) now O.tells (F.contents tree.old)
        (F.contents tree.new) (O.written out.old) (O.written out.new) }
    ensures converges { IsTrue F.tells → result.cause ≡ Cause.Done → ConvergesAsked None
        (command_of (map string_bytes words.now)) now (F.contents tree.old) (F.contents tree.new) }
    ensures stays { IsTrue F.tells → StaysAsked None (command_of (map string_bytes words.now))
        (F.contents tree.old) (F.contents tree.new) result.cause }
    ensures stops { IsTrue F.tells → LeavesOnly (IsLeftAsked None
        (command_of (map string_bytes words.now)) now (moment_of F.Tree tree.old))
        (F.stops tree.old) (F.stops tree.new) }
    ensures resumable { IsTrue F.tells → LeavesToResume F.Tree
        (command_of (map string_bytes words.now)) now tree.old tree.new }
    ensures fresh { IsTrue F.tells → LeavesFresh F.Tree
        (command_of (map string_bytes words.now)) now tree.old tree.new }
    ensures again { IsTrue F.tells → LeavesStopped F.Tree
        (command_of (map string_bytes words.now)) tree.old tree.new }
    ensures restartable { IsTrue F.tells → LeavesStops F.Tree None
        (command_of (map string_bytes words.now)) tree.old tree.new }
    ensures goes_on { IsTrue F.tells → GoesOn None (command_of (map string_bytes words.now))
        (F.contents tree.old) result.cause }
    ensures tries { IsTrue F.tells → MakesResumed F.Tree
        (command_of (map string_bytes words.now)) tree.old tree.new result.cause }
    ensures durable { IsTrue F.tells → result.cause ≡ Cause.Done → IsDurableAsked
        (command_of (map string_bytes words.now)) now (F.contents tree.old)
        (moment_of F.Tree tree.new) }

    ensures usage { result.cause ≡ Cause.Usage →
        AreFaulty (command_of (map string_bytes words.now)) }
    ensures nameless { name_of (map string_bytes words.now) ≡ None → result.cause ≡ Cause.Usage }
    ensures unfit { (e : Cause) → refused_by_words (command_of (map string_bytes words.now))
        ≡ Some e → (result.cause ≡ e) ⊎ (result.cause ≡ Cause.OutOfMemory) }
    ensures texts { (p : PathCause) → IsTrue (is_of_text p) → result.cause ≡ Cause.Paths p →
        (refused_by_words (command_of (map string_bytes words.now)) ≡ Some (Cause.Paths p)) ⊎
        (IsTrue (is_deep (Cause.Paths p)) × Walks (command_of (map string_bytes words.now))) }

    ensures apart { NeedsNoTree (command_of (map string_bytes words.now)) → tree.new ≡ tree.old }
    ensures reads { ¬ MayChange (command_of (map string_bytes words.now)) →
        Reads F.Tree tree.old tree.new }
    ensures frame { Came F.Tree tree.old tree.new }
{
    run_with(alloc, words, tree, out, err, now, None::<&NoManager>)
}
