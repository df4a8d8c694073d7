// The replay of a cluster of a pair.
ghost use Rattle.std.specs.Prelude.{◌≡◌, ◌≢◌, ◌⊎◌, Err, IfErr, IsErrOf, IsTrue, OnOk};
ghost use Rattle.cluster_tree.specs.Causes.{Rose};
ghost use Rattle.cluster_tree.specs.Frame.{Came};
ghost use Rattle.cluster_tree.specs.PathValue.{PathValue};
ghost use Rattle.cluster_tree.specs.Run.{state_by};
ghost use Rattle.commands.specs.Fit.{IsFitPair};
ghost use Rattle.pair_laws.specs.Ends.{StaysBut};
ghost use Rattle.pair_laws.specs.Stands.{copy_of, target_of};
ghost use Rattle.cmd_pair.specs.Stays.{StaysInPair};
ghost use Rattle.cmd_pair.specs.Tried.{Ends, IsOfTrial};

use crate::causes::replay_cause;
use cluster_tree::{Path, Tree};
use commands::PairWords;
use replay_core::replay;
use run_acts::Cause;
use std::alloc::Global;

/// Replays a cluster of a pair whose replay ends.
pub(crate) fn replay_cluster<F: Tree>(
    alloc: Global,
    tree: &mut F,
    words: &PairWords,
    cluster: &Path,
) -> Result<(), Cause>
    requires fit { IsFitPair words.now }
    requires place { (cluster.now ≡ target_of words.now.root) ⊎ (cluster.now ≡ copy_of words.now.root) }
    requires ends { IsTrue F.tells → Ends (F.contents tree.old) cluster.now }
    ensures replayed { IsTrue F.tells → (ends : Ends (F.contents tree.old) cluster.now) →
        OnOk result (F.contents tree.new ≡ ends.after.files) }
    ensures alone { IsTrue F.tells →
        StaysBut cluster.now (F.contents tree.old) (F.contents tree.new) }
    ensures within { IsTrue F.tells → StaysInPair words.now.root
        (state_by F.contents F.calls tree.old) (state_by F.contents F.calls tree.new) }
    ensures trial { IfErr result IsOfTrial }
    ensures changed { IsTrue F.tells → (p : PathValue) → result ≢ Err (Cause.Changed p) }
    ensures frame { Came F.Tree tree.old tree.new }
    ensures read_fault { IsErrOf result Cause.ReadFault →
        Rose (F.failed_reads tree.old) (F.failed_reads tree.new) }
    ensures write_fault { IsErrOf result Cause.WriteFault →
        Rose (F.failed_changes tree.old) (F.failed_changes tree.new) }
{
    match replay(alloc, tree, cluster) {
        Ok(_) => Ok(()),
        Err(fault) => Err(replay_cause(alloc, &words.root, fault)),
    }
}
