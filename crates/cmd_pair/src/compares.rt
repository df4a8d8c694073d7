// The comparison of what both replays of a pair left.
ghost use Rattle.std.specs.Prelude.{◌≡◌, ◌≢◌, Err, IfErr, IsErrOf, IsTrue, Ok};
ghost use Rattle.cluster_compare.specs.Compared.{compared};
ghost use Rattle.cluster_compare.specs.declared.compared.Compared.TheVariants.{Same};
ghost use Rattle.cluster_tree.specs.Causes.{Rose};
ghost use Rattle.cluster_tree.specs.Frame.{Reads};
ghost use Rattle.cluster_tree.specs.PathValue.{PathValue};
ghost use Rattle.commands.specs.Fit.{IsFitPair};
ghost use Rattle.pair_laws.specs.Stands.{copy_of, target_of};
ghost use Rattle.cmd_pair.specs.Tried.{IsOfTrial};

use crate::causes::{changed, compare_cause};
use cluster_compare::{Compared, compare_clusters};
use cluster_tree::Tree;
use commands::PairWords;
use pair_maker::Pair;
use run_acts::Cause;
use std::alloc::Global;

/// Compares the copy of a pair with its target. Answers `Changed` with the folder where they differ,
/// which never comes of a pair that was tried.
pub(crate) fn compare<F: Tree>(
    alloc: Global,
    tree: &mut F,
    words: &PairWords,
    pair: &Pair,
) -> Result<(), Cause>
    requires fit { IsFitPair words.now }
    requires target { pair.now.target ≡ target_of words.now.root }
    requires copy { pair.now.copy ≡ copy_of words.now.root }
    requires same { IsTrue F.tells → compared (F.contents tree.old) (copy_of words.now.root)
        (target_of words.now.root) ≡ Ok Same }
    ensures trial { IfErr result IsOfTrial }
    ensures changed { IsTrue F.tells → (p : PathValue) → result ≢ Err (Cause.Changed p) }
    ensures unwritten { result ≢ Err Cause.WriteFault }
    ensures reads { Reads F.Tree tree.old tree.new }
    ensures read_fault { IsErrOf result Cause.ReadFault →
        Rose (F.failed_reads tree.old) (F.failed_reads tree.new) }
{
    match compare_clusters(alloc, tree, &pair.copy, &pair.target) {
        Ok(Compared::Same) => Ok(()),
        Ok(Compared::Differs(_, _)) => Err(changed(alloc, &words.root)),
        Err(fault) => Err(compare_cause(alloc, &words.root, fault)),
    }
}
