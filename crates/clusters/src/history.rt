// The history of a timeline in a cluster.
ghost use Rattle.std.specs.Prelude.{◌≡◌, ◌≢◌, ◌≤◌, ◌++◌, Ok, Err, IfErr, IfOk, IsErrOf, IsTrue, codes, length, string_bytes};
ghost use Rattle.cluster_tree.specs.PathValue.{PathValue};
ghost use Rattle.cluster_tree.specs.Tree.{file_of};
ghost use Rattle.cluster_tree.specs.Contents.{entry_at};
ghost use Rattle.cluster_tree.specs.Causes.{Meets, Rose};
ghost use Rattle.cluster_tree.specs.Frame.{Reads};
ghost use Rattle.wal_base.specs.Hex.{upper_hex};
ghost use Rattle.timeline_history.specs.Ancestor.{last_tli};
ghost use Rattle.clusters.specs.Faults.{IsFree};
ghost use Rattle.clusters.specs.Roots.{history_path};
ghost use Rattle.clusters.specs.RootHistory.{history_at, history_in, with_root};

use crate::ClusterFault;
use crate::all_bytes::read_all;
use crate::paths::wal_folder;
use cluster_tree::{Path, Tree};
use std::alloc::{AllocError, Global};
use timeline_history::{History, HistoryFault, first_history, read_history};
use wal_base::HexWord;

// A timeline as the eight digits of a file's name.
fn digits(tli: u32) -> HexWord
    ensures { result ≡ record { width = 8; number = tli } }
{
    let number = u64::from(tli);
    HexWord { width: 8, number }
}

// The name of the history of a timeline.
fn history_name(alloc: Global, tli: u32) -> Result<String, AllocError>
    ensures { IfOk result (λ name. string_bytes name ≡ upper_hex 8 tli ++ codes ".history") }
{
    let tli = digits(tli);
    format!(in alloc; "{tli}.history")
}

// Its path.
#[tactic(auto, using(crate::proofs::RoomLemmas::room_steps))]
fn history_path(alloc: Global, root: &Path, tli: u32) -> Result<Path, ClusterFault>
    requires { length root.now.parts ≤ 61 }
    ensures is { IfOk result (λ path. path ≡ history_path root.now tli) }
    ensures memory { IfErr result (λ e. e ≡ ClusterFault.OutOfMemory) }
{
    let folder = wal_folder(alloc, root)?;
    let name = history_name(alloc, tli)?;
    Ok(folder.below(alloc, &name)?)
}

/// The history of a timeline, which has a file in `pg_wal` unless it is the first.
///
/// Answers `HistoryMissing` where that is not a file, `BadLine` and `NotRising` with the number of the
/// first line that is refused: each with the root and the timeline.
#[tactic(auto, unfolding(crate::specs::RootHistory::history_at))]
pub fn history_at<F: Tree>(
    alloc: Global,
    tree: &mut F,
    root: &Path,
    tli: u32,
) -> Result<History, ClusterFault>
    requires { length root.now.parts ≤ 61 }
    ensures exact { IsTrue F.tells → Meets IsFree (history_at (F.contents tree.old) root.now tli)
        result }
    // it ends on this timeline, over every tree
    ensures last { IfOk result (λ history. last_tli history ≡ tli) }
    ensures reads { Reads F.Tree tree.old tree.new }
    ensures read_fault { IsErrOf result ClusterFault.ReadFault →
        Rose (F.failed_reads tree.old) (F.failed_reads tree.new) }
    ensures changed { IsTrue F.tells → (p : PathValue) → result ≢ Err (ClusterFault.Changed p) }
{
    if tli == 1 {
        return Ok(first_history(alloc)?);
    }
    let path = history_path(alloc, root, tli)?;
    history_in(alloc, tree, root, tli, path)
}

// What the history at this path says.
fn history_in<F: Tree>(
    alloc: Global,
    tree: &mut F,
    root: &Path,
    tli: u32,
    path: Path,
) -> Result<History, ClusterFault>
    ensures exact { IsTrue F.tells → Meets IsFree
        (history_in root.now tli (file_of (entry_at (F.contents tree.old) path))) result }
    ensures last { IfOk result (λ history. last_tli history ≡ tli) }
    ensures reads { Reads F.Tree tree.old tree.new }
    ensures read_fault { IsErrOf result ClusterFault.ReadFault →
        Rose (F.failed_reads tree.old) (F.failed_reads tree.new) }
    ensures changed { IsTrue F.tells → (p : PathValue) → result ≢ Err (ClusterFault.Changed p) }
{
    match read_all(alloc, tree, path)? {
        None => Err(ClusterFault::HistoryMissing(root.copy(alloc)?, tli)),
        Some(bytes) => with_root(alloc, root, tli, read_history(alloc, tli, &bytes)),
    }
}

// The refusals of a history, with its root.
fn with_root(
    alloc: Global,
    root: &Path,
    tli: u32,
    read: Result<History, HistoryFault>,
) -> Result<History, ClusterFault>
    requires { IfOk read (λ history. last_tli history ≡ tli) }
    ensures exact { Meets IsFree (with_root root.now tli read) result }
    ensures last { IfOk result (λ history. last_tli history ≡ tli) }
    ensures read_fault { result ≢ Err ClusterFault.ReadFault }
    ensures changed { (p : PathValue) → result ≢ Err (ClusterFault.Changed p) }
{
    match read {
        Ok(history) => Ok(history),
        Err(HistoryFault::BadLine(n)) => Err(ClusterFault::BadLine(root.copy(alloc)?, tli, n)),
        Err(HistoryFault::NotRising(n)) => Err(ClusterFault::NotRising(root.copy(alloc)?, tli, n)),
        Err(HistoryFault::OutOfMemory) => Err(ClusterFault::OutOfMemory),
    }
}
