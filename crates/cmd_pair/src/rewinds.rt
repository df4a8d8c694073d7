// The rewind of a pair's target.
ghost use Rattle.std.specs.Prelude.{◌≡◌, ◌≢◌, Err, IfErr, IsErrOf, IsTrue, OnOk};
ghost use Rattle.cluster_tree.specs.Causes.{Rose};
ghost use Rattle.cluster_tree.specs.Frame.{Came};
ghost use Rattle.cluster_tree.specs.PathValue.{PathValue};
ghost use Rattle.cluster_tree.specs.Run.{state_by};
ghost use Rattle.commands.specs.Fit.{IsFitPair};
ghost use Rattle.pair_laws.specs.Grew.{pair_rewind};
ghost use Rattle.pair_laws.specs.Stands.{HasPair, source_of, target_of};
ghost use Rattle.rewind_core.specs.Fits.{IsRewound};
ghost use Rattle.cmd_pair.specs.Stays.{StaysInPair};
ghost use Rattle.cmd_pair.specs.Tried.{IsOfTrial};

use crate::causes::{changed, rewind_cause};
use cluster_tree::Tree;
use commands::PairWords;
use pair_maker::Pair;
use rewind_core::{RewindDone, rewind};
use run_acts::Cause;
use std::alloc::Global;

// The moment at which the pair's copy was made.
const MADE_AT: i64 = 1_700_000_000;

/// Rewinds the target of a pair that stands.
pub(crate) fn rewind_target<F: Tree>(
    alloc: Global,
    tree: &mut F,
    words: &PairWords,
    pair: &Pair,
) -> Result<(), Cause>
    requires fit { IsFitPair words.now }
    requires target { pair.now.target ≡ target_of words.now.root }
    requires source { pair.now.source ≡ source_of words.now.root }
    requires stands { IsTrue F.tells →
        HasPair words.now.root words.now.seed words.now.blocks (F.contents tree.old) }
    ensures rewound { IsTrue F.tells → OnOk result (IsRewound (F.contents tree.old)
        (pair_rewind words.now.root words.now.seed words.now.blocks (F.contents tree.old))
        (F.contents tree.new)) }
    ensures within { IsTrue F.tells → StaysInPair words.now.root
        (state_by F.contents F.calls tree.old) (state_by F.contents F.calls tree.new) }
    ensures trial { IfErr result IsOfTrial }
    ensures changed { IsTrue F.tells → (p : PathValue) → result ≢ Err (Cause.Changed p) }
    ensures frame { Came F.Tree tree.old tree.new }
    ensures read_fault { IsErrOf result Cause.ReadFault →
        Rose (F.failed_reads tree.old) (F.failed_reads tree.new) }
    ensures write_fault { IsErrOf result Cause.WriteFault →
        Rose (F.failed_changes tree.old) (F.failed_changes tree.new) }
{
    match rewind(alloc, tree, &pair.target, &pair.source, MADE_AT) {
        Ok(RewindDone::Rewound(_)) => Ok(()),
        Ok(RewindDone::NotNeeded(_)) => Err(changed(alloc, &words.root)),
        Err(fault) => Err(rewind_cause(alloc, &words.root, fault)),
    }
}
