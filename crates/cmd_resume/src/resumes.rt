// A rewind that is resumed.
ghost use Rattle.std.specs.Prelude.{◌≡◌, ◌≢◌, ◌≤◌, ◌⊎◌, ℕ, ℤ, Bool, false, Err, IfErr, IfOk, IsErrOf, IsTrue, None, Ok, OnOk, string_bytes};
ghost use Rattle.cluster_tree.specs.Causes.{Rose};
ghost use Rattle.cluster_tree.specs.Contents.{Contents};
ghost use Rattle.cluster_tree.specs.Frame.{Came, Reads, moment_of};
ghost use Rattle.cluster_tree.specs.PathValue.{PathValue};
ghost use Rattle.cluster_tree.specs.Stops.{LeavesOnly};
ghost use Rattle.marked_runs.specs.Moments.{IsMarked, StandsSynced};
ghost use Rattle.plan_text.specs.Text.{said_by};
ghost use Rattle.resumed_laws.specs.Resumed.{resumed_changes};
ghost use Rattle.resumed_writes.specs.Again.{AreReadable, IsOnWayOrFinished, IsResumable, resumed_end};
ghost use Rattle.rewind_core.specs.Over.{without_own};
ghost use Rattle.rewind_core.specs.Planned.{Needing};
ghost use Rattle.rewind_core.specs.declared.outcome.Plan.{Plan};
ghost use Rattle.stored_laws.specs.Laws.{IsStopped, IsStoppedAgain};
ghost use Rattle.resume_core.specs.Stored.{IsStoredBetween, stored_of};
ghost use Rattle.commands.specs.Fit.{AreFitRoots};
ghost use Rattle.acts.specs.Acts.{Sunk, seen, sunk};
ghost use Rattle.run_acts.specs.Answers.{Blames};
ghost use Rattle.run_acts.specs.Causes.{cause_of, is_deep, is_of_files};
ghost use Rattle.run_acts.specs.Unseen.{CarriesUnseen};
ghost use Rattle.cmd_rewind.specs.Rewind.{IsLeftToResume, diverged, rewinding};
ghost use Rattle.cmd_resume.specs.Calls.{MakesAgain, MakesTried};
ghost use Rattle.cmd_resume.specs.Rests.{IsLeftAgain, again_answer};
ghost use Rattle.cmd_resume.specs.Resume.{IsLeftByResume, IsResume, IsResumedDurably, LeavesResumed, resume_answer};

use crate::causes::resume_cause;
use crate::makes::make_told;
use cluster_tree::{Sink, Tree};
use cmd_rewind::{Lines, OwnMark, diverged, report, rewind, rewinding};
use commands::RewindWords;
use plan_text::StoredPlan;
use resume_core::stored_rewind;
use run_acts::Cause;
use std::alloc::{AllocError, Global};

// The two lines of a rewind.
fn lines_of(alloc: Global, stored: &StoredPlan) -> Result<(String, String), AllocError>
    ensures first { IfOk result (λ lines. string_bytes lines.0 ≡ diverged stored.now.told.fork) }
    ensures second { IfOk result (λ lines. string_bytes lines.1 ≡ rewinding stored.now.told) }
{
    let first = diverged(alloc, stored.told.fork)?;
    let second = rewinding(alloc, stored.told)?;
    Ok((first, second))
}

// Reports what is stored, in a dry run, or else makes it again.
fn resume_stored<F: Tree, E: Sink>(
    alloc: Global,
    tree: &mut F,
    err: &mut E,
    words: &RewindWords,
    stored: StoredPlan,
) -> Result<(), Cause>
    requires between { IsStoredBetween words.now.target words.now.source stored }
    requires readable { IsTrue F.tells → AreReadable (F.contents tree.old) stored.plan.steps.items }
    requires marked { IsTrue F.tells → IsMarked stored.plan.mark (F.contents tree.old) }
    ensures carries { (out_tells : Bool) (out : Sunk) → CarriesUnseen
        (IsTrue F.tells ⊎ IsTrue words.now.dry_run) (IsTrue F.tells)
        (again_answer words.now (F.contents tree.old) stored) (IsResume words.now) out_tells E.tells
        (cause_of result)
        (seen (F.contents tree.old) (F.calls tree.old) out
        (sunk (E.written err.old) (E.failed_writes err.old)))
        (seen (F.contents tree.new) (F.calls tree.new) out
        (sunk (E.written err.new) (E.failed_writes err.new))) }
    ensures resumed { IsTrue F.tells → words.now.dry_run ≡ false →
        OnOk result (F.contents tree.new ≡ resumed_end (F.contents tree.old) stored.plan) }
    ensures tries { IsTrue F.tells → words.now.dry_run ≡ false →
        MakesTried (F.contents tree.old) (resumed_changes (F.contents tree.old) stored.plan)
        (F.calls tree.old) (F.calls tree.new) (cause_of result) }
    ensures stops { IsTrue F.tells → LeavesOnly
        (IsLeftAgain words.now stored.plan (moment_of F.Tree tree.old)) (F.stops tree.old)
        (F.stops tree.new) }
    ensures again { IsTrue F.tells → (found c : Contents) →
        IsResumable found c stored.plan (moment_of F.Tree tree.old) →
        LeavesOnly (IsOnWayOrFinished found c stored.plan) (F.stops tree.old) (F.stops tree.new) }
    ensures synced { IsTrue F.tells → words.now.dry_run ≡ false →
        OnOk result (StandsSynced (F.contents tree.new) (moment_of F.Tree tree.new)) }
    ensures blames { (n : ℕ) → Blames (cause_of result)
        (F.failed_reads tree.old) (F.failed_reads tree.new)
        (F.failed_changes tree.old) (F.failed_changes tree.new) n n
        (E.failed_writes err.old) (E.failed_writes err.new) }
    ensures only { IfErr result (λ e. IsTrue (is_of_files e) ⊎
        ((e ≡ Cause.WriteFault) × (words.now.dry_run ≡ false))) }
    ensures changed { IsTrue F.tells → (p : PathValue) → result ≢ Err (Cause.Changed p) }
    ensures frame { Came F.Tree tree.old tree.new }
    ensures reads { IsTrue words.now.dry_run → Reads F.Tree tree.old tree.new }
{
    match lines_of(alloc, &stored) {
        Err(_) => Err(Cause::OutOfMemory),
        Ok((first, second)) => {
            if words.dry_run {
                report(err, &Lines::Rewind(first, second))
            } else {
                make_told(
                    alloc,
                    tree,
                    err,
                    first.as_str(),
                    second.as_str(),
                    &words.target,
                    stored,
                )
            }
        }
    }
}

/// Resumes a rewind that was stopped under its mark, by the plan that the mark holds, and reports it on
/// `err` as a rewind does: two lines, the changes, and a last line. With `dry_run` the three lines alone;
/// then nothing is changed. Where no complete mark stands there it is a rewind of what is seen without the
/// mark, which is then made anew. `now` is in seconds since 1970, and matters to such a rewind alone.
///
/// Answers the first fault that `stored_rewind` tells, as `resume_cause` names it; all that, and want of
/// memory, comes before the first line. Behind the two lines `TargetDiffers` comes at the first change
/// that what stands in the target refuses, with its way from the root; or want of memory in its place.
/// `ReadFault`, `WriteFault` and `SinkFault` come only where a call of that device failed, which it has
/// counted, and `Changed` never where the tree tells its contents. The mark stands until it is removed,
/// and as long as it stands the resume can be tried again; behind that, at the last sync or the last
/// line, the target is made. A stop at any moment leaves the target untouched, with its mark, or as the
/// changes leave it, and once it is done as it stands. Of a rewind that was stopped it leaves that rewind,
/// stopped again, or the rewound tree, where the run begins on synced contents.
pub fn resume<F: Tree, E: Sink>(
    alloc: Global,
    tree: &mut F,
    err: &mut E,
    words: &RewindWords,
    now: i64,
) -> Result<(), Cause>
    requires { AreFitRoots words.now.target words.now.source }
    // the answer's acts, whatever the tree is taken to have; the answer that is meant where it tells
    ensures carries { (out_tells : Bool) (out : Sunk) → CarriesUnseen
        (IsTrue F.tells ⊎ IsTrue words.now.dry_run) (IsTrue F.tells)
        (resume_answer (F.contents tree.old) words.now now) (IsResume words.now) out_tells E.tells
        (cause_of result)
        (seen (F.contents tree.old) (F.calls tree.old) out
        (sunk (E.written err.old) (E.failed_writes err.old)))
        (seen (F.contents tree.new) (F.calls tree.new) out
        (sunk (E.written err.new) (E.failed_writes err.new))) }
    // a resume that is done leaves what its changes make, and a rewind the rewound tree
    ensures resumed { IsTrue F.tells → OnOk result
        (LeavesResumed words.now now (F.contents tree.old) (F.contents tree.new)) }
    // and the calls are the first of these changes; where what stands differs, just those before the
    // first change that it refuses
    ensures tries { IsTrue F.tells → MakesAgain words.now (F.contents tree.old)
        (F.calls tree.old) (F.calls tree.new) (cause_of result) }
    // a stop at any moment leaves it untouched, marked or made; once it is done, what stands
    ensures stops { IsTrue F.tells → LeavesOnly
        (IsLeftByResume words.now now (moment_of F.Tree tree.old)) (F.stops tree.old)
        (F.stops tree.new) }
    // and where no complete mark stands and it begins on synced contents, these or what its plan left, for
    // the next resume
    ensures resumable { IsTrue F.tells →
        stored_of (F.contents tree.old) words.now.target words.now.source ≡ Ok None →
        StandsSynced (F.contents tree.old) (moment_of F.Tree tree.old) → LeavesOnly
        (IsLeftToResume words.now now (without_own (F.contents tree.old) words.now.target)
        (F.contents tree.old)) (F.stops tree.old) (F.stops tree.new) }
    // and of a rewind that was stopped, from synced contents on, that rewind, stopped again, or the
    // rewound tree
    ensures again { IsTrue F.tells → (c : Contents) (before : ℤ) (n : Needing) (plan : Plan) →
        IsStopped c words.now.target words.now.source before n plan (F.contents tree.old) →
        StandsSynced (F.contents tree.old) (moment_of F.Tree tree.old) →
        LeavesOnly (IsStoppedAgain c words.now.target words.now.source before n plan)
        (F.stops tree.old) (F.stops tree.new) }
    ensures synced { IsTrue F.tells → OnOk result
        (IsResumedDurably words.now now (F.contents tree.old) (moment_of F.Tree tree.new)) }
    ensures blames { (n : ℕ) → Blames (cause_of result)
        (F.failed_reads tree.old) (F.failed_reads tree.new)
        (F.failed_changes tree.old) (F.failed_changes tree.new) n n
        (E.failed_writes err.old) (E.failed_writes err.new) }
    ensures only { IfErr result (λ e. IsTrue (is_of_files e) ⊎ IsTrue (is_deep e) ⊎
        ((e ≡ Cause.WriteFault) × (words.now.dry_run ≡ false))) }
    ensures changed { IsTrue F.tells → (p : PathValue) → result ≢ Err (Cause.Changed p) }
    ensures frame { Came F.Tree tree.old tree.new }
    ensures reads { IsTrue words.now.dry_run → Reads F.Tree tree.old tree.new }
{
    match stored_rewind(alloc, tree, &words.target, &words.source) {
        Ok(None) => rewind(alloc, tree, err, words, now, OwnMark::PassedOver),
        Ok(Some(stored)) => resume_stored(alloc, tree, err, words, stored),
        Err(fault) => Err(resume_cause(alloc, &words.source, fault)),
    }
}
