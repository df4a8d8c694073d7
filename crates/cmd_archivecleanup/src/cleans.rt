// A clean-up.
ghost use Rattle.std.specs.Prelude.{◌≡◌, ◌≢◌, ◌⊎◌, ℕ, Bool, false, true, Err, IfErr, IfOk, IsErrOf, IsTrue, MatchResult};
ghost use Rattle.cluster_tree.specs.Causes.{Rose};
ghost use Rattle.cluster_tree.specs.Contents.{Contents};
ghost use Rattle.cluster_tree.specs.Frame.{Came, Reads, moment_of};
ghost use Rattle.cluster_tree.specs.PathValue.{PathValue};
ghost use Rattle.cluster_tree.specs.Stops.{LeavesOnly};
ghost use Rattle.commands.specs.Fit.{IsFitArchivecleanup};
ghost use Rattle.acts.specs.Acts.{Sunk, seen, sunk};
ghost use Rattle.run_acts.specs.Answers.{Blames, Carries, does, refused};
ghost use Rattle.run_acts.specs.Causes.{IsFree, IsOfLook, cause_of, is_of_files};
ghost use Rattle.run_acts.specs.Unseen.{CarriesUnseen};
ghost use Rattle.cmd_archivecleanup.specs.Archivecleanup.{AreFiles, IsArchivecleanup, archivecleanup_answer, printed, removals};
ghost use Rattle.cmd_archivecleanup.specs.Left.{IsLeftByCleanup, leaving};
ghost use Rattle.cmd_archivecleanup.specs.Steps.{paths_of};

use crate::archive::gone;
use crate::names::{path_lines, print_text};
use crate::plan::{Removal, removals};
use crate::removing::remove_all;
use cluster_tree::{Sink, Tree};
use commands::ArchivecleanupWords;
use run_acts::Cause;
use std::alloc::Global;
use std::collections::VecDeque;
use wal_base::Text;

// The text of a dry run.
fn named<F: Tree>(alloc: Global, tree: &mut F, words: &ArchivecleanupWords) -> Result<Text, Cause>
    requires fit { IsFitArchivecleanup words.now }
    requires dry_run { words.now.dry_run ≡ true }
    ensures exact { IsTrue F.tells → MatchResult result
        (λ text. does (printed text) ≡ archivecleanup_answer (F.contents tree.old) words.now)
        (λ e. IsFree e ⊎ (archivecleanup_answer (F.contents tree.old) words.now ≡ refused e)) }
    ensures form { IfOk result (λ text. IsArchivecleanup words.now (does (printed text))) }
    ensures look { IfErr result IsOfLook }
    ensures only { IfErr result (λ e. IsTrue (is_of_files e)) }
    ensures reads { Reads F.Tree tree.old tree.new }
    ensures read_fault { IsErrOf result Cause.ReadFault →
        Rose (F.failed_reads tree.old) (F.failed_reads tree.new) }
    ensures changed { IsTrue F.tells → (p : PathValue) → result ≢ Err (Cause.Changed p) }
{
    let names = gone(alloc, tree, words)?;
    match path_lines(alloc, &words.folder, &names) {
        Ok(text) => Ok(text),
        Err(_) => Err(Cause::OutOfMemory),
    }
}

// The removals of a run that isn't dry.
fn planned<F: Tree>(
    alloc: Global,
    tree: &mut F,
    words: &ArchivecleanupWords,
) -> Result<VecDeque<Removal>, Cause>
    requires fit { IsFitArchivecleanup words.now }
    requires wet { words.now.dry_run ≡ false }
    ensures exact { IsTrue F.tells → MatchResult result
        (λ queue. does (removals (F.contents tree.old) queue.items)
        ≡ archivecleanup_answer (F.contents tree.old) words.now)
        (λ e. IsFree e ⊎ (archivecleanup_answer (F.contents tree.old) words.now ≡ refused e)) }
    ensures form { IfOk result (λ queue. (contents : Contents) →
        IsArchivecleanup words.now (does (removals contents queue.items))) }
    ensures files { IsTrue F.tells → IfOk result (λ queue. AreFiles (F.contents tree.old) queue.items) }
    ensures leaving { IsTrue F.tells → IfOk result (λ queue.
        paths_of queue.items ≡ leaving (F.contents tree.old) words.now) }
    ensures look { IfErr result IsOfLook }
    ensures only { IfErr result (λ e. IsTrue (is_of_files e)) }
    ensures reads { Reads F.Tree tree.old tree.new }
    ensures read_fault { IsErrOf result Cause.ReadFault →
        Rose (F.failed_reads tree.old) (F.failed_reads tree.new) }
    ensures changed { IsTrue F.tells → (p : PathValue) → result ≢ Err (Cause.Changed p) }
{
    let names = match gone(alloc, tree, words) {
        Ok(names) => names,
        Err(e) => return Err(e),
    };
    match removals(alloc, tree, words.debug, &words.folder, &names) {
        Ok(queue) => Ok(queue),
        Err(e) => Err(e),
    }
}

// A dry run.
fn name_files<F: Tree, O: Sink>(
    alloc: Global,
    tree: &mut F,
    out: &mut O,
    words: &ArchivecleanupWords,
) -> Result<(), Cause>
    requires fit { IsFitArchivecleanup words.now }
    requires dry_run { words.now.dry_run ≡ true }
    ensures carries { (err_tells : Bool) (err : Sunk) → Carries (IsTrue F.tells)
        (archivecleanup_answer (F.contents tree.old) words.now) (IsArchivecleanup words.now)
        O.tells err_tells (cause_of result)
        (seen (F.contents tree.old) (F.calls tree.old)
        (sunk (O.written out.old) (O.failed_writes out.old)) err)
        (seen (F.contents tree.new) (F.calls tree.new)
        (sunk (O.written out.new) (O.failed_writes out.new)) err) }
    ensures stops { IsTrue F.tells → LeavesOnly
        (IsLeftByCleanup words.now (moment_of F.Tree tree.old)) (F.stops tree.old)
        (F.stops tree.new) }
    ensures blames { (n : ℕ) → Blames (cause_of result)
        (F.failed_reads tree.old) (F.failed_reads tree.new)
        (F.failed_changes tree.old) (F.failed_changes tree.new)
        (O.failed_writes out.old) (O.failed_writes out.new) n n }
    ensures only { IfErr result (λ e. IsTrue (is_of_files e)) }
    ensures changed { IsTrue F.tells → (p : PathValue) → result ≢ Err (Cause.Changed p) }
    ensures reads { Reads F.Tree tree.old tree.new }
{
    match named(alloc, tree, words) {
        Ok(text) => print_text(out, &text),
        Err(e) => Err(e),
    }
}

// The removals.
fn remove_files<F: Tree, E: Sink>(
    alloc: Global,
    tree: &mut F,
    err: &mut E,
    words: &ArchivecleanupWords,
) -> Result<(), Cause>
    requires fit { IsFitArchivecleanup words.now }
    requires wet { words.now.dry_run ≡ false }
    ensures carries { (out_tells : Bool) (out : Sunk) → CarriesUnseen
        (IsTrue F.tells) (IsTrue F.tells)
        (archivecleanup_answer (F.contents tree.old) words.now) (IsArchivecleanup words.now)
        out_tells E.tells (cause_of result)
        (seen (F.contents tree.old) (F.calls tree.old) out
        (sunk (E.written err.old) (E.failed_writes err.old)))
        (seen (F.contents tree.new) (F.calls tree.new) out
        (sunk (E.written err.new) (E.failed_writes err.new))) }
    ensures stops { IsTrue F.tells → LeavesOnly
        (IsLeftByCleanup words.now (moment_of F.Tree tree.old)) (F.stops tree.old)
        (F.stops tree.new) }
    ensures blames { (n : ℕ) → Blames (cause_of result)
        (F.failed_reads tree.old) (F.failed_reads tree.new)
        (F.failed_changes tree.old) (F.failed_changes tree.new) n n
        (E.failed_writes err.old) (E.failed_writes err.new) }
    ensures only { IfErr result (λ e. IsTrue (is_of_files e) ⊎ (e ≡ Cause.WriteFault)) }
    ensures changed { IsTrue F.tells → (p : PathValue) → result ≢ Err (Cause.Changed p) }
    ensures frame { Came F.Tree tree.old tree.new }
{
    match planned(alloc, tree, words) {
        Ok(queue) => remove_all(tree, err, queue),
        Err(e) => Err(e),
    }
}

/// Removes the files of an archive that aren't needed from a segment on, in ascending order, or with
/// `dry_run` prints their paths on `out`, a line each, and changes nothing. With `debug` the line of
/// each removal stands on `err` before it, also of one that fails.
///
/// Answers `NotFolder`, `Link` or `NameNotText` with the archive's folder, and `Link` or `KindsDiffer`
/// with the path of the first that is to go and is no file: all before anything is changed. All memory
/// is taken before that too, but for the line of a cause. `ReadFault`, `WriteFault` and `SinkFault` come
/// only where a call of that device failed, which it has counted, and `Changed` never where the tree
/// tells its contents.
pub fn archivecleanup<F: Tree, O: Sink, E: Sink>(
    alloc: Global,
    tree: &mut F,
    out: &mut O,
    err: &mut E,
    words: &ArchivecleanupWords,
) -> Result<(), Cause>
    requires { IsFitArchivecleanup words.now }
    // the acts of an answer about the names that were listed, whatever the tree is taken to have
    ensures carries { CarriesUnseen (IsTrue F.tells ⊎ IsTrue words.now.dry_run) (IsTrue F.tells)
        (archivecleanup_answer (F.contents tree.old) words.now) (IsArchivecleanup words.now)
        O.tells E.tells (cause_of result)
        (seen (F.contents tree.old) (F.calls tree.old)
        (sunk (O.written out.old) (O.failed_writes out.old))
        (sunk (E.written err.old) (E.failed_writes err.old)))
        (seen (F.contents tree.new) (F.calls tree.new)
        (sunk (O.written out.new) (O.failed_writes out.new))
        (sunk (E.written err.new) (E.failed_writes err.new))) }
    // a stop at any moment leaves the files as they were, less some of those that go
    ensures stops { IsTrue F.tells → LeavesOnly
        (IsLeftByCleanup words.now (moment_of F.Tree tree.old)) (F.stops tree.old)
        (F.stops tree.new) }
    ensures blames { Blames (cause_of result)
        (F.failed_reads tree.old) (F.failed_reads tree.new)
        (F.failed_changes tree.old) (F.failed_changes tree.new)
        (O.failed_writes out.old) (O.failed_writes out.new)
        (E.failed_writes err.old) (E.failed_writes err.new) }
    ensures only { IfErr result (λ e. IsTrue (is_of_files e) ⊎
        ((e ≡ Cause.WriteFault) × (words.now.dry_run ≡ false))) }
    ensures changed { IsTrue F.tells → (p : PathValue) → result ≢ Err (Cause.Changed p) }
    ensures frame { Came F.Tree tree.old tree.new }
    ensures reads { IsTrue words.now.dry_run → Reads F.Tree tree.old tree.new }
{
    if words.dry_run {
        name_files(alloc, tree, out, words)
    } else {
        remove_files(alloc, tree, err, words)
    }
}
