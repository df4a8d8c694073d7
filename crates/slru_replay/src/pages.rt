// Pages of zeros.
ghost use Rattle.std.specs.Prelude.{◌≡◌, ◌≢◌, ◌≤◌, length, IsTrue, Err, IsErrOf};
ghost use Rattle.cluster_tree.specs.PathValue.{PathValue};
ghost use Rattle.cluster_tree.specs.Causes.{Rose};
ghost use Rattle.cluster_tree.specs.Frame.{Came};
ghost use Rattle.file_edits.specs.Answers.{Does};
ghost use Rattle.file_edits.specs.Own.{OnOwn};
ghost use Rattle.slru_replay.specs.Area.{is_of_area, page_laid, page_start, page_zeroed};

use crate::area::Area;
use crate::names::{FILE_PAGES, page_file};
use cluster_tree::{FileFault, Path, Tree};
use file_edits::lay;
use std::alloc::Global;

/// How many bytes a page has.
pub(crate) const PAGE: usize = 8192;

/// Where a page begins in its file.
pub(crate) fn page_start(page: u32) -> u64
    ensures { result ≡ page_start page }
{
    u64::from(page % FILE_PAGES) * PAGE as u64
}

/// Makes a page of zeros, whatever stood there: its file is lengthened by zeros up to the page where
/// it is shorter, and is made, with the folders on its way, where nothing stands.
///
/// Answers `IsFolder` or `Link` with the file's path, and `NotFolder` or `Link` with that of a folder
/// on its way which would have to be made or gone through for that, the root first.
pub fn zero_page<F: Tree>(
    alloc: Global,
    tree: &mut F,
    root: &Path,
    area: Area,
    page: u32,
) -> Result<(), FileFault>
    requires room { length root.now.parts ≤ 61 }
    ensures exact { IsTrue F.tells →
        Does (page_zeroed root.now area page (F.contents tree.old)) (F.contents tree.new) result }
    ensures frame { Came F.Tree tree.old tree.new }
    ensures own { IsTrue F.tells → OnOwn F.calls (is_of_area root.now area) tree.old tree.new }
    ensures read_fault { IsErrOf result FileFault.ReadFault →
        Rose (F.failed_reads tree.old) (F.failed_reads tree.new) }
    ensures write_fault { IsErrOf result FileFault.WriteFault →
        Rose (F.failed_changes tree.old) (F.failed_changes tree.new) }
    ensures changed { IsTrue F.tells → (p : PathValue) → result ≢ Err (FileFault.Changed p) }
{
    let path = page_file(alloc, root, area, page)?;
    let start = page_start(page);
    lay(alloc, tree, root, &path, start, start, &[0; PAGE])
}

/// Lays bytes over a page from an offset in it on, once its file is lengthened by zeros to the page's
/// end where it is shorter. The file and the folders on its way are made where nothing stands.
pub(crate) fn lay_on<F: Tree>(
    alloc: Global,
    tree: &mut F,
    root: &Path,
    area: Area,
    page: u32,
    at: u32,
    bytes: &[u8],
) -> Result<(), FileFault>
    requires room { length root.now.parts ≤ 61 }
    requires within { at ≤ 8192 }
    ensures exact { IsTrue F.tells → Does (page_laid root.now area page at bytes.now
        (F.contents tree.old)) (F.contents tree.new) result }
    ensures frame { Came F.Tree tree.old tree.new }
    ensures own { IsTrue F.tells → OnOwn F.calls (is_of_area root.now area) tree.old tree.new }
    ensures read_fault { IsErrOf result FileFault.ReadFault →
        Rose (F.failed_reads tree.old) (F.failed_reads tree.new) }
    ensures write_fault { IsErrOf result FileFault.WriteFault →
        Rose (F.failed_changes tree.old) (F.failed_changes tree.new) }
    ensures changed { IsTrue F.tells → (p : PathValue) → result ≢ Err (FileFault.Changed p) }
{
    let path = page_file(alloc, root, area, page)?;
    let start = page_start(page);
    let end = start + PAGE as u64;
    lay(alloc, tree, root, &path, end, start + u64::from(at), bytes)
}
