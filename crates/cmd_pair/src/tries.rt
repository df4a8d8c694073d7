// pair: what it looks at, what it does, and its line.
ghost use Rattle.std.specs.Prelude.{◌≡◌, ◌≢◌, ◌⊎◌, ℕ, Bool, Err, IfErr, IfOk, IsErrOf, IsTrue, MatchResult, None, OnOk, string_bytes};
ghost use Rattle.cluster_tree.specs.Causes.{Rose};
ghost use Rattle.cluster_tree.specs.Frame.{Came, Reads, moment_of};
ghost use Rattle.cluster_tree.specs.PathValue.{PathValue};
ghost use Rattle.cluster_tree.specs.Stops.{LeavesOnly};
ghost use Rattle.commands.specs.Fit.{IsFitPair};
ghost use Rattle.pair_maker.specs.Pair.{HasRoom, StaysBeside};
ghost use Rattle.acts.specs.Acts.{Sunk, seen, sunk};
ghost use Rattle.run_acts.specs.Answers.{Blames, refused};
ghost use Rattle.run_acts.specs.Causes.{IsFree, IsOfLook, cause_of, is_of_files};
ghost use Rattle.run_acts.specs.Unseen.{CarriesUnseen};
ghost use Rattle.cmd_pair.specs.Left.{IsLeftByPair};
ghost use Rattle.cmd_pair.specs.Pair.{IsPair, pair_answer, pair_line, room_refusal};
ghost use Rattle.cmd_pair.specs.Tried.{LeavesPair};

use crate::line::pair_line;
use crate::room::check_room;
use crate::trial::try_pair;
use cluster_tree::{Sink, Tree};
use commands::PairWords;
use run_acts::{Cause, tell};
use std::alloc::Global;

// Whether there is room for the pair. Answers its line.
#[tactic(auto, using(crate::proofs::RoomLemmas::look_steps))]
fn look<F: Tree>(alloc: Global, tree: &mut F, words: &PairWords) -> Result<String, Cause>
    requires fit { IsFitPair words.now }
    ensures exact { IsTrue F.tells → MatchResult result
        (λ _. room_refusal (F.contents tree.old) words.now.root ≡ None)
        (λ e. IsFree e ⊎ (pair_answer (F.contents tree.old) words.now ≡ refused e)) }
    ensures line { IfOk result (λ line.
        string_bytes line ≡ pair_line words.now.seed words.now.blocks) }
    ensures look { IfErr result IsOfLook }
    ensures only { IfErr result (λ e. IsTrue (is_of_files e)) }
    ensures reads { Reads F.Tree tree.old tree.new }
    ensures read_fault { IsErrOf result Cause.ReadFault →
        Rose (F.failed_reads tree.old) (F.failed_reads tree.new) }
    ensures changed { IsTrue F.tells → (p : PathValue) → result ≢ Err (Cause.Changed p) }
{
    check_room(alloc, tree, &words.root)?;
    match pair_line(alloc, words.seed, words.blocks) {
        Ok(line) => Ok(line),
        Err(_) => Err(Cause::OutOfMemory),
    }
}

// Tries the pair, and tells the line.
fn try_told<F: Tree, O: Sink>(
    alloc: Global,
    tree: &mut F,
    out: &mut O,
    words: &PairWords,
    line: &str,
) -> Result<(), Cause>
    requires fit { IsFitPair words.now }
    requires room { IsTrue F.tells → room_refusal (F.contents tree.old) words.now.root ≡ None }
    requires line { line.now ≡ pair_line words.now.seed words.now.blocks }
    ensures carries { (err_tells : Bool) (err : Sunk) → CarriesUnseen (IsTrue F.tells) (IsTrue F.tells)
        (pair_answer (F.contents tree.old) words.now) (IsPair words.now) O.tells err_tells
        (cause_of result)
        (seen (F.contents tree.old) (F.calls tree.old)
        (sunk (O.written out.old) (O.failed_writes out.old)) err)
        (seen (F.contents tree.new) (F.calls tree.new)
        (sunk (O.written out.new) (O.failed_writes out.new)) err) }
    ensures leaves { IsTrue F.tells → OnOk result (LeavesPair words.now O.tells
        (F.contents tree.old) (F.contents tree.new) (O.written out.old) (O.written out.new)) }
    ensures beside { IsTrue F.tells →
        StaysBeside words.now.root (F.contents tree.old) (F.contents tree.new) }
    ensures stops { IsTrue F.tells → LeavesOnly
        (IsLeftByPair words.now (moment_of F.Tree tree.old)) (F.stops tree.old)
        (F.stops tree.new) }
    ensures blames { (n : ℕ) → Blames (cause_of result)
        (F.failed_reads tree.old) (F.failed_reads tree.new)
        (F.failed_changes tree.old) (F.failed_changes tree.new)
        (O.failed_writes out.old) (O.failed_writes out.new) n n }
    ensures only { IfErr result (λ e. IsTrue (is_of_files e) ⊎ (e ≡ Cause.WriteFault)) }
    ensures changed { IsTrue F.tells → (p : PathValue) → result ≢ Err (Cause.Changed p) }
    ensures frame { Came F.Tree tree.old tree.new }
{
    match try_pair(alloc, tree, words) {
        Ok(()) => tell(out, line),
        Err(e) => Err(e),
    }
}

/// Makes a pair of clusters and a copy from a number, rewinds its target, replays target and copy,
/// compares them, and puts one line on `out`. The line is made before the first change.
///
/// Answers `NotFolder` where the root is no folder, and `Occupied` with the first of the three paths
/// below it at which something stands; up to there nothing is changed. `ReadFault`, `WriteFault` and
/// `SinkFault` come only where a call of that device failed, which it has counted, `OutOfMemory` only
/// for want of memory, and `Changed` never where the tree tells its contents: over one that doesn't it
/// says that what was made isn't there any more, with the root where a call was refused or a difference
/// was found. After these what stands at the three paths is open; all else in the tree stays.
pub fn pair<F: Tree, O: Sink>(
    alloc: Global,
    tree: &mut F,
    out: &mut O,
    words: &PairWords,
) -> Result<(), Cause>
    requires fit { IsFitPair words.now }
    // the acts of an answer, whatever the tree is taken to have; the one that is meant where it tells
    ensures carries { (err_tells : Bool) (err : Sunk) → CarriesUnseen (IsTrue F.tells) (IsTrue F.tells)
        (pair_answer (F.contents tree.old) words.now) (IsPair words.now) O.tells err_tells
        (cause_of result)
        (seen (F.contents tree.old) (F.calls tree.old)
        (sunk (O.written out.old) (O.failed_writes out.old)) err)
        (seen (F.contents tree.new) (F.calls tree.new)
        (sunk (O.written out.new) (O.failed_writes out.new)) err) }
    // where it is done, the pair was made and tried, and both clusters end as the same
    ensures leaves { IsTrue F.tells → OnOk result (LeavesPair words.now O.tells
        (F.contents tree.old) (F.contents tree.new) (O.written out.old) (O.written out.new)) }
    // whatever its cause, all but the three clusters is as it was
    ensures beside { IsTrue F.tells →
        StaysBeside words.now.root (F.contents tree.old) (F.contents tree.new) }
    // a stop at any moment leaves all but the three clusters as it was
    ensures stops { IsTrue F.tells → LeavesOnly
        (IsLeftByPair words.now (moment_of F.Tree tree.old)) (F.stops tree.old)
        (F.stops tree.new) }
    ensures blames { (n : ℕ) → Blames (cause_of result)
        (F.failed_reads tree.old) (F.failed_reads tree.new)
        (F.failed_changes tree.old) (F.failed_changes tree.new)
        (O.failed_writes out.old) (O.failed_writes out.new) n n }
    ensures only { IfErr result (λ e. IsTrue (is_of_files e) ⊎ (e ≡ Cause.WriteFault)) }
    ensures changed { IsTrue F.tells → (p : PathValue) → result ≢ Err (Cause.Changed p) }
    ensures frame { Came F.Tree tree.old tree.new }
{
    match look(alloc, tree, words) {
        Ok(line) => try_told(alloc, tree, out, words, line.as_str()),
        Err(e) => Err(e),
    }
}
