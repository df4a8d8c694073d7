// The folder that a log is read from.
ghost use Rattle.std.specs.Prelude.{◌≡◌, ◌≤◌, length, IfOk, IfErr, IsTrue, IsErrOf};
ghost use Rattle.cluster_tree.specs.Causes.{Meets, Rose};
ghost use Rattle.cluster_tree.specs.Frame.{Reads};
ghost use Rattle.log_folder.specs.Faults.{IsFree, IsOfTree};
ghost use Rattle.log_folder.specs.Folder.{wal_in, wal_taken, taken_of};

use crate::FolderFault;
use crate::listing::least_in;
use cluster_tree::{Path, Tree};
use std::alloc::Global;
use wal_base::Text;

/// The folder that is taken, and the least name in it that is a segment's.
#[derive(Drop)]
pub(crate) struct Taken {
    pub(crate) folder: Path,
    pub(crate) least: Text,
}

// The path of pg_wal in a folder.
#[tactic(auto, using(crate::proofs::PartLemmas::wal_steps))]
fn wal_in(alloc: Global, folder: &Path) -> Result<Path, FolderFault>
    requires room { length folder.now.parts ≤ 62 }
    ensures value { IfOk result (λ path. path ≡ wal_in folder.now) }
    ensures room { IfOk result (λ path. length path.parts ≤ 63) }
    ensures memory { IfErr result (λ e. e ≡ FolderFault.OutOfMemory) }
{
    Ok(folder.below(alloc, "pg_wal")?)
}

// The folder pg_wal in one that has no segment.
#[tactic(auto, unfolding(crate::specs::Folder::wal_taken))]
fn wal_taken<F: Tree>(alloc: Global, tree: &mut F, folder: &Path) -> Result<Taken, FolderFault>
    requires room { length folder.now.parts ≤ 62 }
    ensures exact { IsTrue F.tells →
        Meets IsFree (wal_taken (F.contents tree.old) folder.now) result }
    ensures room { IfOk result (λ taken. length taken.folder.parts ≤ 63) }
    ensures cause { IfErr result IsOfTree }
    ensures reads { Reads F.Tree tree.old tree.new }
    ensures read_fault { IsErrOf result FolderFault.ReadFault →
        Rose (F.failed_reads tree.old) (F.failed_reads tree.new) }
{
    let wal = wal_in(alloc, folder)?;
    match least_in(alloc, tree, &wal) {
        Ok(Some(least)) => Ok(Taken { folder: wal, least }),
        Ok(None) | Err(FolderFault::NotFolder(_) | FolderFault::Link(_)) => {
            Err(FolderFault::NoWal(folder.copy(alloc)?))
        }
        Err(fault) => Err(fault),
    }
}

/// The folder that the log is read from: the given one where it has a segment, else pg_wal in it.
///
/// Answers `NotFolder`, `Link` and `NameNotText` for the folder, then `NoWal` with it where neither
/// has a segment, as where pg_wal is a file or a link; `NameNotText` for pg_wal too.
#[tactic(auto, unfolding(crate::specs::Folder::taken_of))]
pub(crate) fn taken_of<F: Tree>(
    alloc: Global,
    tree: &mut F,
    folder: &Path,
) -> Result<Taken, FolderFault>
    requires room { length folder.now.parts ≤ 62 }
    ensures exact { IsTrue F.tells →
        Meets IsFree (taken_of (F.contents tree.old) folder.now) result }
    ensures room { IfOk result (λ taken. length taken.folder.parts ≤ 63) }
    ensures cause { IfErr result IsOfTree }
    ensures reads { Reads F.Tree tree.old tree.new }
    ensures read_fault { IsErrOf result FolderFault.ReadFault →
        Rose (F.failed_reads tree.old) (F.failed_reads tree.new) }
{
    match least_in(alloc, tree, folder)? {
        Some(least) => Ok(Taken {
            folder: folder.copy(alloc)?,
            least,
        }),
        None => wal_taken(alloc, tree, folder),
    }
}
