// A pair that is made and tried.
ghost use Rattle.std.specs.Prelude.{◌≡◌, ◌≢◌, Err, IfErr, IsErrOf, IsTrue, OnOk};
ghost use Rattle.cluster_tree.specs.Causes.{Rose};
ghost use Rattle.cluster_tree.specs.Contents.{Contents};
ghost use Rattle.cluster_tree.specs.Frame.{Came};
ghost use Rattle.cluster_tree.specs.PathValue.{PathValue};
ghost use Rattle.cluster_tree.specs.Run.{state_by};
ghost use Rattle.commands.specs.Fit.{IsFitPair};
ghost use Rattle.pair_laws.specs.Stands.{HasPair, copy_of, source_of, target_of};
ghost use Rattle.pair_maker.specs.Pair.{HasRoom};
ghost use Rattle.cmd_pair.specs.Stays.{StaysInPair};
ghost use Rattle.cmd_pair.specs.Tried.{IsOfTrial, IsReplayedPair, IsTriedPair};

use crate::compares::compare;
use crate::makes::make;
use crate::replays::replay_cluster;
use crate::rewinds::rewind_target;
use cluster_tree::Tree;
use commands::PairWords;
use pair_maker::Pair;
use run_acts::Cause;
use std::alloc::Global;

// Rewinds the target of a pair that stands, replays it, and then its copy.
fn replay_both<F: Tree>(
    alloc: Global,
    tree: &mut F,
    words: &PairWords,
    pair: &Pair,
) -> Result<(), Cause>
    requires fit { IsFitPair words.now }
    requires target { pair.now.target ≡ target_of words.now.root }
    requires source { pair.now.source ≡ source_of words.now.root }
    requires copy { pair.now.copy ≡ copy_of words.now.root }
    requires stands { IsTrue F.tells →
        HasPair words.now.root words.now.seed words.now.blocks (F.contents tree.old) }
    ensures replayed { IsTrue F.tells → OnOk result (IsReplayedPair words.now.root words.now.seed
        words.now.blocks (F.contents tree.old) (F.contents tree.new)) }
    ensures within { IsTrue F.tells → StaysInPair words.now.root
        (state_by F.contents F.calls tree.old) (state_by F.contents F.calls tree.new) }
    ensures trial { IfErr result IsOfTrial }
    ensures changed { IsTrue F.tells → (p : PathValue) → result ≢ Err (Cause.Changed p) }
    ensures frame { Came F.Tree tree.old tree.new }
    ensures read_fault { IsErrOf result Cause.ReadFault →
        Rose (F.failed_reads tree.old) (F.failed_reads tree.new) }
    ensures write_fault { IsErrOf result Cause.WriteFault →
        Rose (F.failed_changes tree.old) (F.failed_changes tree.new) }
{
    rewind_target(alloc, tree, words, pair)?;
    replay_cluster(alloc, tree, words, &pair.target)?;
    replay_cluster(alloc, tree, words, &pair.copy)
}

/// Makes the pair, rewinds and replays its target, replays its copy, and compares the two.
pub(crate) fn try_pair<F: Tree>(alloc: Global, tree: &mut F, words: &PairWords) -> Result<(), Cause>
    requires fit { IsFitPair words.now }
    requires room { IsTrue F.tells → HasRoom (F.contents tree.old) words.now.root }
    ensures tried { IsTrue F.tells → OnOk result (IsTriedPair words.now.root words.now.seed
        words.now.blocks (F.contents tree.new)) }
    ensures within { IsTrue F.tells → StaysInPair words.now.root
        (state_by F.contents F.calls tree.old) (state_by F.contents F.calls tree.new) }
    ensures trial { IfErr result IsOfTrial }
    ensures changed { IsTrue F.tells → (p : PathValue) → result ≢ Err (Cause.Changed p) }
    ensures frame { Came F.Tree tree.old tree.new }
    ensures read_fault { IsErrOf result Cause.ReadFault →
        Rose (F.failed_reads tree.old) (F.failed_reads tree.new) }
    ensures write_fault { IsErrOf result Cause.WriteFault →
        Rose (F.failed_changes tree.old) (F.failed_changes tree.new) }
{
    let pair = make(alloc, tree, words)?;
    replay_both(alloc, tree, words, &pair)?;
    compare(alloc, tree, words, &pair)
}
