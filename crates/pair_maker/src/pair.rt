// A pair of clusters, made from a number.
ghost use Rattle.std.specs.Prelude.{◌≡◌, ◌≢◌, ◌≤◌, [], ◌∷◌, Err, IfErr, IfOk, IsErrOf, IsTrue, codes, is_ok, length, map};
ghost use Rattle.cluster_tree.specs.Causes.{Rose};
ghost use Rattle.cluster_tree.specs.Frame.{Came, Reads};
ghost use Rattle.cluster_tree.specs.PathValue.{PathValue, below};
ghost use Rattle.marked_runs.specs.Runs.{Runs};
ghost use Rattle.pair_maker.specs.Clusters.{pair_entries};
ghost use Rattle.pair_maker.specs.Entries.{standing_at, standing_of};
ghost use Rattle.pair_maker.specs.Pair.{HasRoom, IsOfPair, PairStands, StaysBeside, fault_of, pair_changes};

use crate::cluster::{add_copy, add_source, add_target};
use crate::entries::Placed;
use crate::putting::put_all;
use cluster_tree::{FileFault, OutOfMemory, Path, Tree};
use marked_runs::PerformFault;
use std::alloc::Global;
use std::collections::VecDeque;

/// The roots of a pair.
#[derive(Debug, Drop)]
pub struct Pair {
    /// The cluster that is rewound.
    pub target: Path,
    /// The one that it is rewound to.
    pub source: Path,
    /// The copy of the source.
    pub copy: Path,
}

// Why the changes broke off.
fn fault_of(fault: PerformFault) -> FileFault
    ensures { result ≡ fault_of fault }
{
    match fault {
        PerformFault::ReadFault => FileFault::ReadFault,
        PerformFault::WriteFault => FileFault::WriteFault,
        PerformFault::Changed(path) => FileFault::Changed(path),
    }
}

// The roots of a pair below this one.
#[tactic(auto, using(crate::proofs::RoomLemmas::room_steps))]
fn roots(alloc: Global, root: &Path) -> Result<Pair, OutOfMemory>
    requires { length root.now.parts ≤ 60 }
    ensures target { IfOk result (λ pair. pair.target ≡ below root.now (codes "t" ∷ [])) }
    ensures source { IfOk result (λ pair. pair.source ≡ below root.now (codes "s" ∷ [])) }
    ensures copy { IfOk result (λ pair. pair.copy ≡ below root.now (codes "c" ∷ [])) }
{
    let target = root.below(alloc, "t")?;
    let source = root.below(alloc, "s")?;
    let copy = root.below(alloc, "c")?;
    Ok(Pair {
        target,
        source,
        copy,
    })
}

// All that is to be made.
fn entries_of(
    alloc: Global,
    root: &Path,
    pair: &Pair,
    seed: u64,
    blocks: u32,
) -> Result<VecDeque<Placed>, OutOfMemory>
    requires depth { length root.now.parts ≤ 60 }
    requires target { pair.now.target ≡ below root.now (codes "t" ∷ []) }
    requires source { pair.now.source ≡ below root.now (codes "s" ∷ []) }
    requires copy { pair.now.copy ≡ below root.now (codes "c" ∷ []) }
    requires few { blocks ≤ 4096 }
    ensures { IfOk result (λ entries. map standing_of entries.items
        ≡ map (standing_at root.now) (pair_entries seed blocks)) }
{
    let mut entries = VecDeque::new(alloc);
    add_target(alloc, &mut entries, &pair.target, seed, blocks)?;
    add_source(alloc, &mut entries, &pair.source, seed, blocks)?;
    add_copy(alloc, &mut entries, &pair.copy, seed, blocks)?;
    Ok(entries)
}

/// Makes a pair of clusters below a root: the target at `t`, the source at `s`, and its copy, as a replay
/// begins from it, at `c`. Their relation has so many blocks, and which tuples each cluster has of its
/// own is told by the seed.
///
/// All memory is taken before the first change, so that `OutOfMemory` leaves all as it was. `WriteFault`
/// comes only where a call failed, which the tree has counted, and `Changed` never where it tells its
/// contents; after these two what stands at the three paths is open, and all else is as it was.
pub fn make_pair<F: Tree>(
    alloc: Global,
    tree: &mut F,
    root: &Path,
    seed: u64,
    blocks: u32,
) -> Result<Pair, FileFault>
    requires depth { length root.now.parts ≤ 60 }
    requires few { blocks ≤ 4096 }
    requires room { IsTrue F.tells → HasRoom (F.contents tree.old) root.now }
    // where the three are, and what stands there, path by path
    ensures target { IfOk result (λ pair. pair.target ≡ below root.now (codes "t" ∷ [])) }
    ensures source { IfOk result (λ pair. pair.source ≡ below root.now (codes "s" ∷ [])) }
    ensures copy { IfOk result (λ pair. pair.copy ≡ below root.now (codes "c" ∷ [])) }
    ensures made { IsTrue F.tells →
        IfOk result (λ _. PairStands root.now seed blocks (F.contents tree.new)) }
    ensures others { IsTrue F.tells →
        StaysBeside root.now (F.contents tree.old) (F.contents tree.new) }
    // the changes ran, one after another
    ensures runs { IsTrue F.tells → Runs (pair_changes root.now seed blocks)
        (F.calls tree.old) (F.calls tree.new) (F.contents tree.old) (F.contents tree.new)
        (is_ok result) }

    ensures frame { Came F.Tree tree.old tree.new }
    ensures only { IfErr result IsOfPair }
    ensures unmade { result ≡ Err FileFault.OutOfMemory → Reads F.Tree tree.old tree.new }
    ensures changed { IsTrue F.tells → (p : PathValue) → result ≢ Err (FileFault.Changed p) }
    ensures read_fault { result ≢ Err FileFault.ReadFault }
    ensures write_fault { IsErrOf result FileFault.WriteFault →
        Rose (F.failed_changes tree.old) (F.failed_changes tree.new) }
{
    let pair = match roots(alloc, root) {
        Ok(pair) => pair,
        Err(_) => return Err(FileFault::OutOfMemory),
    };
    let entries = match entries_of(alloc, root, &pair, seed, blocks) {
        Ok(entries) => entries,
        Err(_) => return Err(FileFault::OutOfMemory),
    };
    match put_all(tree, entries) {
        Ok(()) => Ok(pair),
        Err(fault) => Err(fault_of(fault)),
    }
}
