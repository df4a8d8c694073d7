// The size of a log's segments.
ghost use Rattle.std.specs.Prelude.{◌≡◌, ◌≤◌, length, IfErr, IsTrue, IsErrOf};
ghost use Rattle.cluster_tree.specs.Causes.{Meets, Rose};
ghost use Rattle.cluster_tree.specs.Frame.{Reads};
ghost use Rattle.log_folder.specs.Faults.{IsFree, IsOfTree};
ghost use Rattle.log_folder.specs.Segment.{head_at, size_in, size_of, size_read};

use crate::FolderFault;
use crate::listing::segment_path;
use cluster_tree::{Path, Tree, TreeFault};
use layout::{u16_at, u32_at};
use std::alloc::Global;
use wal_base::SegSize;

// The magic of a page (`XLOG_PAGE_MAGIC`).
const MAGIC: u16 = 0xD113;

// The size of the segments in the long header of a page, if it is one.
#[tactic(auto, unfolding(crate::specs::Segment::size_in))]
fn size_in(head: &[u8; 40]) -> Option<SegSize>
    ensures { result ≡ size_in head.now }
{
    if u16_at(head, 0) == MAGIC {
        SegSize::new(u32_at(head, 32))
    } else {
        None
    }
}

// The size that the first bytes of a file in a folder tell.
fn size_read<F: Tree>(
    alloc: Global,
    tree: &mut F,
    folder: &Path,
    file: Path,
) -> Result<SegSize, FolderFault>
    ensures exact { IsTrue F.tells → Meets IsFree
        (size_read folder.now file (head_at (F.contents tree.old) file)) result }
    ensures cause { IfErr result IsOfTree }
    ensures reads { Reads F.Tree tree.old tree.new }
    ensures read_fault { IsErrOf result FolderFault.ReadFault →
        Rose (F.failed_reads tree.old) (F.failed_reads tree.new) }
{
    let mut head = [0; 40];
    match tree.read_at(&file, 0, &mut head) {
        Ok(()) => {}
        Err(TreeFault::Failed) => return Err(FolderFault::ReadFault),
        Err(TreeFault::PastEnd) => return Err(FolderFault::BadSegment(file)),
        Err(_) => return Err(FolderFault::NoWal(folder.copy(alloc)?)),
    }
    match size_in(&head) {
        Some(size) => Ok(size),
        None => Err(FolderFault::BadSegment(file)),
    }
}

/// The size of segments, from the first 40 bytes of the segment of this name in a folder.
///
/// Answers `NoWal` with the folder where the folder has no such file, and `BadSegment` with the
/// file where it is shorter, or its bytes aren't the header of a segment's first page.
#[tactic(auto, unfolding(crate::specs::Segment::size_of))]
pub(crate) fn size_of<F: Tree>(
    alloc: Global,
    tree: &mut F,
    folder: &Path,
    name: &str,
) -> Result<SegSize, FolderFault>
    requires room { length folder.now.parts ≤ 63 }
    ensures exact { IsTrue F.tells →
        Meets IsFree (size_of (F.contents tree.old) folder.now name.now) result }
    ensures cause { IfErr result IsOfTree }
    ensures reads { Reads F.Tree tree.old tree.new }
    ensures read_fault { IsErrOf result FolderFault.ReadFault →
        Rose (F.failed_reads tree.old) (F.failed_reads tree.new) }
{
    match segment_path(alloc, folder, name)? {
        Some(file) => size_read(alloc, tree, folder, file),
        None => Err(FolderFault::NoWal(folder.copy(alloc)?)),
    }
}
