// A pair that is made.
ghost use Rattle.std.specs.Prelude.{◌≡◌, ◌≢◌, Err, IfErr, IfOk, IsErrOf, IsTrue, OnOk};
ghost use Rattle.cluster_tree.specs.Causes.{Rose};
ghost use Rattle.cluster_tree.specs.Frame.{Came};
ghost use Rattle.cluster_tree.specs.PathValue.{PathValue};
ghost use Rattle.cluster_tree.specs.Run.{state_by};
ghost use Rattle.commands.specs.Fit.{IsFitPair};
ghost use Rattle.pair_laws.specs.Stands.{HasPair, copy_of, source_of, target_of};
ghost use Rattle.pair_maker.specs.Pair.{HasRoom};
ghost use Rattle.cmd_pair.specs.Stays.{StaysInPair};
ghost use Rattle.cmd_pair.specs.Tried.{IsOfTrial};

use crate::causes::make_cause;
use cluster_tree::Tree;
use commands::PairWords;
use pair_maker::{Pair, make_pair};
use run_acts::Cause;
use std::alloc::Global;

/// Makes the pair. Answers where its clusters are.
pub(crate) fn make<F: Tree>(alloc: Global, tree: &mut F, words: &PairWords) -> Result<Pair, Cause>
    requires fit { IsFitPair words.now }
    requires room { IsTrue F.tells → HasRoom (F.contents tree.old) words.now.root }
    ensures target { IfOk result (λ pair. pair.target ≡ target_of words.now.root) }
    ensures source { IfOk result (λ pair. pair.source ≡ source_of words.now.root) }
    ensures copy { IfOk result (λ pair. pair.copy ≡ copy_of words.now.root) }
    ensures made { IsTrue F.tells → IfOk result (λ _.
        HasPair words.now.root words.now.seed words.now.blocks (F.contents tree.new)) }
    ensures within { IsTrue F.tells → StaysInPair words.now.root
        (state_by F.contents F.calls tree.old) (state_by F.contents F.calls tree.new) }
    ensures trial { IfErr result IsOfTrial }
    ensures changed { IsTrue F.tells → (p : PathValue) → result ≢ Err (Cause.Changed p) }
    ensures frame { Came F.Tree tree.old tree.new }
    ensures read_fault { IsErrOf result Cause.ReadFault →
        Rose (F.failed_reads tree.old) (F.failed_reads tree.new) }
    ensures write_fault { IsErrOf result Cause.WriteFault →
        Rose (F.failed_changes tree.old) (F.failed_changes tree.new) }
{
    // what holds of the parts of every path, which the laws of a pair ask for
    let _ = words.root.len();
    match make_pair(alloc, tree, &words.root, words.seed, words.blocks) {
        Ok(pair) => Ok(pair),
        Err(fault) => Err(make_cause(alloc, &words.root, fault)),
    }
}
