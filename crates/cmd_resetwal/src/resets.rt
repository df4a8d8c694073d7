// A reset of a cluster's log.
ghost use Rattle.std.specs.Prelude.{◌≡◌, ◌≢◌, ◌⊎◌, ℕ, Bool, [], ◌∷◌, false, true, is_some, Err, IfErr, IfOk, IsErrOf, IsTrue, MatchResult, None, OnOk};
ghost use Rattle.cluster_tree.specs.Causes.{Rose};
ghost use Rattle.cluster_tree.specs.Frame.{Came, Reads, moment_of};
ghost use Rattle.cluster_tree.specs.PathValue.{PathValue};
ghost use Rattle.cluster_tree.specs.Stops.{LeavesOnly};
ghost use Rattle.commands.specs.Fit.{IsFitResetwal};
ghost use Rattle.marked_runs.specs.Moments.{StandsSynced};
ghost use Rattle.acts.specs.Acts.{Print, Sunk, seen, sunk};
ghost use Rattle.run_acts.specs.Answers.{Blames, Carries, does, refused};
ghost use Rattle.run_acts.specs.Causes.{IsFree, IsOfLook, cause_of, is_of_files};
ghost use Rattle.run_acts.specs.Unseen.{CarriesUnseen};
ghost use Rattle.cmd_resetwal.specs.Resetwal.{IsLeftByReset, IsResetwal, resetwal_answer};

use crate::causes::reset_cause;
use cluster_tree::{Sink, Tree};
use commands::ResetwalWords;
use control_file::control_text;
use reset_cleanup::reset_log;
use run_acts::{Cause, tell};
use std::alloc::Global;
use wal_base::Text;

// The text of a dry run.
fn dry_text<F: Tree>(
    alloc: Global,
    tree: &mut F,
    words: &ResetwalWords,
    now: i64,
) -> Result<Text, Cause>
    requires fit { IsFitResetwal words.now }
    requires dry { is_some words.now.options.dry ≡ true }
    ensures exact { IsTrue F.tells → MatchResult result
        (λ text. does (Print text ∷ []) ≡ resetwal_answer (F.contents tree.old) words.now now)
        (λ e. IsFree e ⊎ (resetwal_answer (F.contents tree.old) words.now now ≡ refused e)) }
    ensures form { IfOk result (λ text. IsResetwal words.now now (does (Print text ∷ []))) }
    ensures look { IfErr result IsOfLook }
    ensures only { IfErr result (λ e. IsTrue (is_of_files e)) }
    ensures reads { Reads F.Tree tree.old tree.new }
    ensures read_fault { IsErrOf result Cause.ReadFault →
        Rose (F.failed_reads tree.old) (F.failed_reads tree.new) }
    ensures changed { IsTrue F.tells → (p : PathValue) → result ≢ Err (Cause.Changed p) }
{
    let control = match reset_log(alloc, tree, &words.root, &words.options, now) {
        Ok(control) => control,
        Err(fault) => return Err(reset_cause(fault)),
    };
    match control_text(alloc, &control) {
        Ok(text) => Ok(text),
        Err(_) => Err(Cause::OutOfMemory),
    }
}

// A dry run.
fn show<F: Tree, O: Sink>(
    alloc: Global,
    tree: &mut F,
    out: &mut O,
    words: &ResetwalWords,
    now: i64,
) -> Result<(), Cause>
    requires fit { IsFitResetwal words.now }
    requires dry { is_some words.now.options.dry ≡ true }
    ensures carries { (err_tells : Bool) (err : Sunk) → Carries (IsTrue F.tells)
        (resetwal_answer (F.contents tree.old) words.now now) (IsResetwal words.now now)
        O.tells err_tells (cause_of result)
        (seen (F.contents tree.old) (F.calls tree.old)
        (sunk (O.written out.old) (O.failed_writes out.old)) err)
        (seen (F.contents tree.new) (F.calls tree.new)
        (sunk (O.written out.new) (O.failed_writes out.new)) err) }
    ensures blames { (n : ℕ) → Blames (cause_of result)
        (F.failed_reads tree.old) (F.failed_reads tree.new)
        (F.failed_changes tree.old) (F.failed_changes tree.new)
        (O.failed_writes out.old) (O.failed_writes out.new) n n }
    ensures only { IfErr result (λ e. IsTrue (is_of_files e)) }
    ensures changed { IsTrue F.tells → (p : PathValue) → result ≢ Err (Cause.Changed p) }
    ensures reads { Reads F.Tree tree.old tree.new }
{
    match dry_text(alloc, tree, words, now) {
        Ok(text) => tell(out, text.as_str()),
        Err(e) => Err(e),
    }
}

// A reset that is made.
fn reset<F: Tree, O: Sink>(
    alloc: Global,
    tree: &mut F,
    out: &mut O,
    words: &ResetwalWords,
    now: i64,
) -> Result<(), Cause>
    requires fit { IsFitResetwal words.now }
    requires wet { is_some words.now.options.dry ≡ false }
    ensures carries { (err_tells : Bool) (err : Sunk) → CarriesUnseen
        (IsTrue F.tells) (IsTrue F.tells)
        (resetwal_answer (F.contents tree.old) words.now now) (IsResetwal words.now now)
        O.tells err_tells (cause_of result)
        (seen (F.contents tree.old) (F.calls tree.old)
        (sunk (O.written out.old) (O.failed_writes out.old)) err)
        (seen (F.contents tree.new) (F.calls tree.new)
        (sunk (O.written out.new) (O.failed_writes out.new)) err) }
    ensures blames { (n : ℕ) → Blames (cause_of result)
        (F.failed_reads tree.old) (F.failed_reads tree.new)
        (F.failed_changes tree.old) (F.failed_changes tree.new)
        (O.failed_writes out.old) (O.failed_writes out.new) n n }
    ensures stops { IsTrue F.tells → LeavesOnly
        (IsLeftByReset words.now now (moment_of F.Tree tree.old)) (F.stops tree.old)
        (F.stops tree.new) }
    ensures synced { IsTrue F.tells → words.now.options.dry ≡ None → OnOk result
        (StandsSynced (F.contents tree.new) (moment_of F.Tree tree.new)) }
    ensures only { IfErr result (λ e. IsTrue (is_of_files e) ⊎ (e ≡ Cause.WriteFault)) }
    ensures changed { IsTrue F.tells → (p : PathValue) → result ≢ Err (Cause.Changed p) }
    ensures frame { Came F.Tree tree.old tree.new }
{
    match reset_log(alloc, tree, &words.root, &words.options, now) {
        Ok(_) => tell(out, "Write-ahead log reset\n"),
        Err(fault) => Err(reset_cause(fault)),
    }
}

/// Resets the log of a cluster, and tells it on `out`. With the option for a dry run it prints there
/// the text of the control file that the reset would leave, and changes nothing. `now` is in seconds
/// since 1970.
///
/// Answers the first of these: `Unfinished` with a mark; `Control` with the root, where its control
/// file is missing or refused; `NotFolder`, `Link` or `NameNotText` with pg_wal; `BadSegment` with it,
/// where no new segment can be; and unless it is a dry run `NotClean`, where the cluster wasn't shut
/// down and no force is used, and why the files that go can't be removed: `NotFolder`, `Link` or
/// `NameNotText` with archive_status, then `Link` or `KindsDiffer` with the path of the first that is no
/// file. All that, and want of memory, comes before the first change. `ReadFault`, `WriteFault` and
/// `SinkFault` come only where a call of that device failed, which it has counted, and `Changed` never
/// where the tree tells its contents.
pub fn resetwal<F: Tree, O: Sink>(
    alloc: Global,
    tree: &mut F,
    out: &mut O,
    words: &ResetwalWords,
    now: i64,
) -> Result<(), Cause>
    requires { IsFitResetwal words.now }
    // the acts of an answer about what was read, whatever the tree is taken to have
    ensures carries { (err_tells : Bool) (err : Sunk) → CarriesUnseen
        (IsTrue F.tells ⊎ IsTrue (is_some words.now.options.dry)) (IsTrue F.tells)
        (resetwal_answer (F.contents tree.old) words.now now) (IsResetwal words.now now)
        O.tells err_tells (cause_of result)
        (seen (F.contents tree.old) (F.calls tree.old)
        (sunk (O.written out.old) (O.failed_writes out.old)) err)
        (seen (F.contents tree.new) (F.calls tree.new)
        (sunk (O.written out.new) (O.failed_writes out.new)) err) }
    // a stop at any moment leaves the files untouched, marked or reset; once they are reset, what stands
    ensures stops { IsTrue F.tells → LeavesOnly
        (IsLeftByReset words.now now (moment_of F.Tree tree.old)) (F.stops tree.old)
        (F.stops tree.new) }
    ensures synced { IsTrue F.tells → words.now.options.dry ≡ None → OnOk result
        (StandsSynced (F.contents tree.new) (moment_of F.Tree tree.new)) }
    ensures blames { (n : ℕ) → Blames (cause_of result)
        (F.failed_reads tree.old) (F.failed_reads tree.new)
        (F.failed_changes tree.old) (F.failed_changes tree.new)
        (O.failed_writes out.old) (O.failed_writes out.new) n n }
    ensures only { IfErr result (λ e. IsTrue (is_of_files e) ⊎
        ((e ≡ Cause.WriteFault) × (is_some words.now.options.dry ≡ false))) }
    ensures changed { IsTrue F.tells → (p : PathValue) → result ≢ Err (Cause.Changed p) }
    ensures frame { Came F.Tree tree.old tree.new }
    ensures reads { IsTrue (is_some words.now.options.dry) → Reads F.Tree tree.old tree.new }
{
    if words.options.dry.is_some() {
        show(alloc, tree, out, words, now)
    } else {
        reset(alloc, tree, out, words, now)
    }
}
