// A rewind.
ghost use Rattle.std.specs.Prelude.{◌≡◌, ◌≢◌, ◌⊎◌, ℕ, Bool, false, Err, IfErr, IfOk, IsErrOf, IsTrue, MatchResult, OnOk};
ghost use Rattle.cluster_tree.specs.Causes.{Rose};
ghost use Rattle.cluster_tree.specs.Contents.{Contents};
ghost use Rattle.cluster_tree.specs.Frame.{Came, Reads, moment_of};
ghost use Rattle.cluster_tree.specs.PathValue.{PathValue};
ghost use Rattle.cluster_tree.specs.Stops.{LeavesOnly};
ghost use Rattle.commands.specs.Fit.{AreFitRoots};
ghost use Rattle.acts.specs.Acts.{Sunk, seen, sunk};
ghost use Rattle.marked_runs.specs.Moments.{StandsSynced};
ghost use Rattle.clusters.specs.declared.fault.ClusterFault.TheVariants as cluster;
ghost use Rattle.rewind_core.specs.Fits.{FitsMeant, IsFitPlanned, IsMadeBetween, IsSaidPlanned, Plans};
ghost use Rattle.rewind_core.specs.Planned.{planned_of};
ghost use Rattle.run_acts.specs.Answers.{Blames, does, refused};
ghost use Rattle.run_acts.specs.Causes.{IsFree, IsOfLook, cause_of, is_deep, is_of_files};
ghost use Rattle.run_acts.specs.Unseen.{CarriesUnseen};
ghost use Rattle.cmd_rewind.specs.Marks.{IsPassable, seen_by};
ghost use Rattle.cmd_rewind.specs.Rewind.{IsDurable, IsLeftByRewind, IsLeftToResume, IsRewind, LeavesRewound, rewind_answer};
ghost use Rattle.cmd_rewind.specs.Tasks.{IsFitTask, IsSaidTask, IsTaskFor, IsWet, task_acts};

use crate::makes::make_told;
use crate::marks::OwnMark;
use crate::reports::report;
use crate::tasks::{Task, task_of};
use cluster_causes::rewind_cause;
use cluster_tree::{Sink, Tree};
use commands::RewindWords;
use rewind_core::{Planned, RewindFault, plan, plan_anew};
use run_acts::Cause;
use std::alloc::Global;

// What is to be done, planned by what is seen.
fn plan_by<F: Tree>(
    alloc: Global,
    tree: &mut F,
    words: &RewindWords,
    now: i64,
    own: OwnMark,
) -> Result<Planned, RewindFault>
    requires { AreFitRoots words.now.target words.now.source }
    ensures exact { IsTrue F.tells → Plans (seen_by own words.now.target (F.contents tree.old))
        (planned_of (seen_by own words.now.target (F.contents tree.old))
        words.now.target words.now.source now) result }
    ensures made { IfOk result (IsMadeBetween words.now.target words.now.source) }
    ensures said { IsTrue F.tells → IfOk result
        (IsSaidPlanned (seen_by own words.now.target (F.contents tree.old))
        words.now.target words.now.source) }
    ensures fit { IfOk result IsFitPlanned }
    ensures reads { Reads F.Tree tree.old tree.new }
    ensures read_fault { IsErrOf result (RewindFault.Cluster cluster.ReadFault) →
        Rose (F.failed_reads tree.old) (F.failed_reads tree.new) }
    ensures changed { IsTrue F.tells → (p : PathValue) →
        result ≢ Err (RewindFault.Cluster (cluster.Changed p)) }
    ensures never_writes { result ≢ Err RewindFault.WriteFault }
{
    match own {
        OwnMark::Refused => plan(alloc, tree, &words.target, &words.source, now),
        OwnMark::PassedOver => plan_anew(alloc, tree, &words.target, &words.source, now),
    }
}

// What the target needs.
fn look<F: Tree>(
    alloc: Global,
    tree: &mut F,
    words: &RewindWords,
    now: i64,
    own: OwnMark,
) -> Result<Planned, Cause>
    requires { AreFitRoots words.now.target words.now.source }
    ensures exact { IsTrue F.tells → MatchResult result
        (FitsMeant (seen_by own words.now.target (F.contents tree.old))
        (planned_of (seen_by own words.now.target (F.contents tree.old))
        words.now.target words.now.source now))
        (λ e. IsFree e ⊎ (rewind_answer (seen_by own words.now.target (F.contents tree.old))
        (F.contents tree.old) words.now now ≡ refused e)) }
    ensures made { IfOk result (IsMadeBetween words.now.target words.now.source) }
    ensures said { IsTrue F.tells → IfOk result
        (IsSaidPlanned (seen_by own words.now.target (F.contents tree.old))
        words.now.target words.now.source) }
    ensures fit { IfOk result IsFitPlanned }
    ensures look { IfErr result IsOfLook }
    ensures only { IfErr result (λ e. IsTrue (is_of_files e) ⊎ IsTrue (is_deep e)) }
    ensures reads { Reads F.Tree tree.old tree.new }
    ensures read_fault { IsErrOf result Cause.ReadFault →
        Rose (F.failed_reads tree.old) (F.failed_reads tree.new) }
    ensures changed { IsTrue F.tells → (p : PathValue) → result ≢ Err (Cause.Changed p) }
{
    match plan_by(alloc, tree, words, now, own) {
        Ok(planned) => Ok(planned),
        Err(fault) => Err(rewind_cause(fault)),
    }
}

// What is to be done. All its lines are made before the first is put.
fn check<F: Tree>(
    alloc: Global,
    tree: &mut F,
    words: &RewindWords,
    now: i64,
    own: OwnMark,
) -> Result<Task, Cause>
    requires { AreFitRoots words.now.target words.now.source }
    ensures exact { IsTrue F.tells → MatchResult result
        (λ task. does (task_acts task (F.contents tree.old))
        ≡ rewind_answer (seen_by own words.now.target (F.contents tree.old))
        (F.contents tree.old) words.now now)
        (λ e. IsFree e ⊎ (rewind_answer (seen_by own words.now.target (F.contents tree.old))
        (F.contents tree.old) words.now now ≡ refused e)) }
    ensures form { IfOk result (λ task. (c : Contents) →
        IsRewind words.now (does (task_acts task c))) }
    ensures planned { IsTrue F.tells → IfOk result (IsTaskFor words.now.dry_run
        (seen_by own words.now.target (F.contents tree.old))
        (planned_of (seen_by own words.now.target (F.contents tree.old))
        words.now.target words.now.source now)) }
    ensures said { IsTrue F.tells → IfOk result
        (IsSaidTask (seen_by own words.now.target (F.contents tree.old))
        words.now.target words.now.source) }
    ensures fit { IfOk result IsFitTask }
    ensures wet { IfOk result (IsWet words.now.dry_run) }
    ensures look { IfErr result IsOfLook }
    ensures only { IfErr result (λ e. IsTrue (is_of_files e) ⊎ IsTrue (is_deep e)) }
    ensures reads { Reads F.Tree tree.old tree.new }
    ensures read_fault { IsErrOf result Cause.ReadFault →
        Rose (F.failed_reads tree.old) (F.failed_reads tree.new) }
    ensures changed { IsTrue F.tells → (p : PathValue) → result ≢ Err (Cause.Changed p) }
{
    let planned = look(alloc, tree, words, now, own)?;
    match task_of(alloc, planned, words.dry_run) {
        Ok(task) => Ok(task),
        Err(_) => Err(Cause::OutOfMemory),
    }
}

/// Rewinds the target so that it can follow the source's log, and reports it on `err`: two lines, the
/// changes, and a last line. With `dry_run` the three lines alone, and where nothing is to be done two
/// lines that say so; then nothing is changed. `now` is in seconds since 1970.
///
/// Answers the first fault that `plan` tells, as `rewind_cause` names it; all that, and
/// want of memory, comes before the first line. `ReadFault`, `WriteFault` and `SinkFault` come only
/// where a call of that device failed, which it has counted, and `Changed` never where the tree tells
/// its contents. Where a change failed the target has its mark, and a later run answers `Unfinished`;
/// a first line that failed leaves it untouched, and a last one rewound. A stop at any moment leaves it
/// untouched, with its mark, or rewound, and once a rewind is done as it stands. Where the run begins on
/// synced contents and the mark reads as complete, a resume completes what the stop left.
///
/// With `OwnMark::PassedOver` all this is so of what is seen without a rewind's own mark in the target,
/// which must not be whole: then it is cut to nothing in place of being made.
pub fn rewind<F: Tree, E: Sink>(
    alloc: Global,
    tree: &mut F,
    err: &mut E,
    words: &RewindWords,
    now: i64,
    own: OwnMark,
) -> Result<(), Cause>
    requires roots { AreFitRoots words.now.target words.now.source }
    requires passable { IsTrue F.tells → IsPassable own words.now.target (F.contents tree.old) }
    // the answer's acts, whatever the tree is taken to have; the answer that is meant where it tells
    ensures carries { (out_tells : Bool) (out : Sunk) → CarriesUnseen
        (IsTrue F.tells ⊎ IsTrue words.now.dry_run) (IsTrue F.tells)
        (rewind_answer (seen_by own words.now.target (F.contents tree.old)) (F.contents tree.old)
        words.now now) (IsRewind words.now) out_tells E.tells (cause_of result)
        (seen (F.contents tree.old) (F.calls tree.old) out
        (sunk (E.written err.old) (E.failed_writes err.old)))
        (seen (F.contents tree.new) (F.calls tree.new) out
        (sunk (E.written err.new) (E.failed_writes err.new))) }
    // a rewind that is done leaves the rewound tree
    ensures rewound { IsTrue F.tells → OnOk result (LeavesRewound words.now now
        (seen_by own words.now.target (F.contents tree.old)) (F.contents tree.new)) }
    // a stop at any moment leaves it untouched, marked or rewound; once a rewind is done, what stands
    ensures stops { IsTrue F.tells → LeavesOnly
        (IsLeftByRewind words.now now (seen_by own words.now.target (F.contents tree.old))
        (moment_of F.Tree tree.old)) (F.stops tree.old) (F.stops tree.new) }
    // and where it begins on synced contents, these or what its plan left, for a resume
    ensures resumable { IsTrue F.tells →
        StandsSynced (F.contents tree.old) (moment_of F.Tree tree.old) → LeavesOnly
        (IsLeftToResume words.now now (seen_by own words.now.target (F.contents tree.old))
        (F.contents tree.old)) (F.stops tree.old) (F.stops tree.new) }
    ensures synced { IsTrue F.tells → OnOk result
        (IsDurable words.now now (seen_by own words.now.target (F.contents tree.old))
        (moment_of F.Tree tree.new)) }
    ensures blames { (n : ℕ) → Blames (cause_of result)
        (F.failed_reads tree.old) (F.failed_reads tree.new)
        (F.failed_changes tree.old) (F.failed_changes tree.new) n n
        (E.failed_writes err.old) (E.failed_writes err.new) }
    ensures only { IfErr result (λ e. IsTrue (is_of_files e) ⊎ IsTrue (is_deep e) ⊎
        ((e ≡ Cause.WriteFault) × (words.now.dry_run ≡ false))) }
    ensures changed { IsTrue F.tells → (p : PathValue) → result ≢ Err (Cause.Changed p) }
    ensures frame { Came F.Tree tree.old tree.new }
    ensures reads { IsTrue words.now.dry_run → Reads F.Tree tree.old tree.new }
{
    match check(alloc, tree, words, now, own) {
        Ok(Task::Tell(lines)) => report(err, &lines),
        Ok(Task::Rewind(first, second, plan)) => {
            make_told(tree, err, first.as_str(), second.as_str(), plan)
        }
        Err(e) => Err(e),
    }
}
