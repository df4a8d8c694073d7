// A comparison of two clusters.
ghost use Rattle.std.specs.Prelude.{◌≡◌, ◌≢◌, ◌⊎◌, ℕ, Bool, Err, IfErr, IfOk, IsErrOf, IsTrue, MatchResult, OnOk};
ghost use Rattle.cluster_tree.specs.Causes.{Rose};
ghost use Rattle.cluster_tree.specs.Frame.{Reads};
ghost use Rattle.cluster_tree.specs.PathValue.{PathValue};
ghost use Rattle.commands.specs.Fit.{AreFitRoots};
ghost use Rattle.acts.specs.Acts.{Sunk, seen, sunk};
ghost use Rattle.run_acts.specs.Answers.{Blames, Carries, refused};
ghost use Rattle.run_acts.specs.Causes.{IsFree, IsOfLook, cause_of, is_deep, is_of_files};
ghost use Rattle.cmd_walcompare.specs.Walcompare.{AreSame, IsWalcompare, no_difference, verdict_answer};
ghost use Rattle.cmd_walcompare.specs.Walcompare.{walcompare_answer};

use crate::causes::compare_cause;
use cluster_compare::{Compared, compare_clusters};
use cluster_tree::{Sink, Tree};
use commands::WalcompareWords;
use run_acts::{Cause, tell};
use std::alloc::Global;

#[tactic(auto, unfolding(crate::specs::Walcompare::no_difference))]
fn no_difference() -> &'static str
    ensures { result.now ≡ no_difference }
{
    "pg_walcompare: no difference\n"
}

// Whether the clusters are the same, or where they differ.
fn verdict_of<F: Tree>(
    alloc: Global,
    tree: &mut F,
    words: &WalcompareWords,
) -> Result<Compared, Cause>
    requires { AreFitRoots words.now.first words.now.second }
    ensures exact { IsTrue F.tells → MatchResult result
        (λ verdict. verdict_answer verdict ≡ walcompare_answer (F.contents tree.old) words.now)
        (λ e. IsFree e ⊎ (walcompare_answer (F.contents tree.old) words.now ≡ refused e)) }
    ensures same { IsTrue F.tells → IfOk result (λ verdict.
        verdict ≡ Compared.Same → AreSame (F.contents tree.old) words.now) }
    ensures look { IfErr result IsOfLook }
    ensures only { IfErr result (λ e. IsTrue (is_of_files e) ⊎ IsTrue (is_deep e)) }
    ensures reads { Reads F.Tree tree.old tree.new }
    ensures read_fault { IsErrOf result Cause.ReadFault →
        Rose (F.failed_reads tree.old) (F.failed_reads tree.new) }
    ensures changed { IsTrue F.tells → (p : PathValue) → result ≢ Err (Cause.Changed p) }
{
    match compare_clusters(alloc, tree, &words.first, &words.second) {
        Ok(verdict) => Ok(verdict),
        Err(fault) => Err(compare_cause(fault)),
    }
}

/// Compares two clusters, and puts one line on `out` where they are the same. It changes nothing.
///
/// Answers the first of these that refuses: `Unfinished` with the mark of a run on the first cluster, and
/// then on the second; `Control` where the first control file is missing or refused; `Paths` with
/// `NotFolder` where the second root is no folder; and of the least path below the first root, and then
/// below the second, `Link`, `NameNotText`, `TooDeep`, or `Rewind` with `OddSize`. Then `Differs` with
/// the least path at which they differ, and the first block where both have a main fork's file of one
/// size. `ReadFault` and `SinkFault` come only where a read or the write failed, which the tree or the
/// sink has counted, `Changed` never where the tree tells its contents, and `OutOfMemory` only for want
/// of memory. Only a done run and one whose write failed leave anything on `out`.
pub fn walcompare<F: Tree, O: Sink>(
    alloc: Global,
    tree: &mut F,
    out: &mut O,
    words: &WalcompareWords,
) -> Result<(), Cause>
    requires { AreFitRoots words.now.first words.now.second }
    // the answer's acts, over every tree; the answer that is meant where the tree tells
    ensures carries { (err_tells : Bool) (err : Sunk) → Carries (IsTrue F.tells)
        (walcompare_answer (F.contents tree.old) words.now) IsWalcompare O.tells err_tells
        (cause_of result)
        (seen (F.contents tree.old) (F.calls tree.old)
        (sunk (O.written out.old) (O.failed_writes out.old)) err)
        (seen (F.contents tree.new) (F.calls tree.new)
        (sunk (O.written out.new) (O.failed_writes out.new)) err) }
    // where it is done, the clusters are the same
    ensures same { IsTrue F.tells → OnOk result (AreSame (F.contents tree.old) words.now) }
    ensures blames { (n : ℕ) → Blames (cause_of result)
        (F.failed_reads tree.old) (F.failed_reads tree.new)
        (F.failed_changes tree.old) (F.failed_changes tree.new)
        (O.failed_writes out.old) (O.failed_writes out.new) n n }
    ensures only { IfErr result (λ e. IsTrue (is_of_files e) ⊎ IsTrue (is_deep e)) }
    ensures changed { IsTrue F.tells → (p : PathValue) → result ≢ Err (Cause.Changed p) }
    ensures reads { Reads F.Tree tree.old tree.new }
{
    match verdict_of(alloc, tree, words) {
        Ok(Compared::Same) => tell(out, no_difference()),
        Ok(Compared::Differs(path, block)) => Err(Cause::Differs(path, block)),
        Err(e) => Err(e),
    }
}
