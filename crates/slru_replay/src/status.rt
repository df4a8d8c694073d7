// The status of a transaction.
ghost use Rattle.std.specs.Prelude.{◌≡◌, ◌≢◌, ◌≤◌, ◌<◌, length, IsTrue, Err, IsErrOf};
ghost use Rattle.cluster_tree.specs.PathValue.{PathValue};
ghost use Rattle.cluster_tree.specs.Causes.{Rose};
ghost use Rattle.cluster_tree.specs.Frame.{Came};
ghost use Rattle.file_edits.specs.Answers.{Does};
ghost use Rattle.file_edits.specs.Own.{OnOwn};
ghost use Rattle.slru_replay.specs.Area.{is_of_area};
ghost use Rattle.slru_replay.specs.Status.{status_set, with_pair};

use crate::area::Area;
use crate::names::page_file;
use crate::pages::{PAGE, page_start};
use cluster_tree::{FileFault, Path, Tree};
use file_edits::{lay, read_or_zeros};
use std::alloc::Global;

// How many transactions have their status on a page.
const PAGE_XIDS: u32 = 32768;

// A byte with two bits in the place of one pair, counted from the low end.
#[tactic(auto, using(crate::proofs::StatusLemmas::pair_steps))]
fn with_pair(pair: u32, bits: u8, byte: u8) -> u8
    requires pair { pair < 4 }
    requires bits { bits < 4 }
    ensures { result ≡ with_pair pair bits byte }
{
    if pair == 0 {
        byte / 4 * 4 + bits
    } else if pair == 1 {
        byte / 16 * 16 + bits * 4 + byte % 4
    } else if pair == 2 {
        byte / 64 * 64 + bits * 16 + byte % 16
    } else {
        bits * 64 + byte % 64
    }
}

/// Sets the status of a transaction: 1 committed, 2 aborted. A page that isn't there, or in part, is
/// filled with zeros first, and its file made, with the folders on its way, where nothing stands.
///
/// Answers `IsFolder` or `Link` with the file's path, and `NotFolder` or `Link` with that of a folder
/// on its way which would have to be made or gone through for that, the root first.
pub fn set_status<F: Tree>(
    alloc: Global,
    tree: &mut F,
    root: &Path,
    xid: u32,
    status: u8,
) -> Result<(), FileFault>
    requires room { length root.now.parts ≤ 61 }
    requires bits { status < 4 }
    ensures exact { IsTrue F.tells →
        Does (status_set root.now xid status (F.contents tree.old)) (F.contents tree.new) result }
    ensures frame { Came F.Tree tree.old tree.new }
    ensures own { IsTrue F.tells →
        OnOwn F.calls (is_of_area root.now Area.Status) tree.old tree.new }
    ensures read_fault { IsErrOf result FileFault.ReadFault →
        Rose (F.failed_reads tree.old) (F.failed_reads tree.new) }
    ensures write_fault { IsErrOf result FileFault.WriteFault →
        Rose (F.failed_changes tree.old) (F.failed_changes tree.new) }
    ensures changed { IsTrue F.tells → (p : PathValue) → result ≢ Err (FileFault.Changed p) }
{
    let page = xid / PAGE_XIDS;
    let path = page_file(alloc, root, Area::Status, page)?;
    let start = page_start(page);
    let at = start + u64::from(xid % PAGE_XIDS / 4);
    let mut byte = [0];
    read_or_zeros(alloc, tree, &path, at, &mut byte)?;
    let byte = [with_pair(xid % 4, status, byte[0])];
    lay(alloc, tree, root, &path, start + PAGE as u64, at, &byte)
}
