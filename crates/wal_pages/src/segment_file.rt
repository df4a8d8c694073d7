//! Reading the page at a position from its segment's file.

ghost use Rattle.std.specs.Prelude.{◌≡◌, ◌⊎◌, ◌≤◌, ◌%◌, [], ◌∷◌, Ok, Err, length, IfSome, IfOk, IfErr, OnOk, IsTrue, IsErrOf};
ghost use Rattle.cluster_tree.specs.Contents.{entry_at};
ghost use Rattle.cluster_tree.specs.Causes.{IsAmong, Meets, Rose};
ghost use Rattle.cluster_tree.specs.Frame.{Reads};
ghost use Rattle.wal_pages.specs.File.{IsFileIn};
ghost use Rattle.wal_pages.specs.Folder.{file_in, folder_of};
ghost use Rattle.wal_pages.specs.Header.{header_of};
ghost use Rattle.wal_pages.specs.LogBytes.{segment_at};
ghost use Rattle.wal_pages.specs.Page.{bytes_from, told, page_at, answer_of, IsFree, NamesPage};
ghost use Rattle.wal_pages.specs.ValidPage.{IsValidPage};

use crate::fault::PageFault;
use crate::header::{PageHeader, header_of};
use crate::log_path::LogPath;
use crate::validity::first_bad_field;
use cluster_tree::{Path, Tree, TreeFault};
use std::alloc::Global;
use wal_base::{Lsn, Segment};

/// Reads the 8192 bytes from an offset of a segment's file. What `page` holds after a refusal is
/// open.
fn read_from<F: Tree>(
    tree: &mut F,
    file: &Path,
    segment: Segment,
    offset: u64,
    page: &mut [u8],
) -> Result<(), PageFault>
    requires whole { length page.old ≡ 8192 }
    ensures found { IsTrue F.tells → OnOk result (bytes_from segment offset
        (file_in (entry_at (F.contents tree.old) file.now)) ≡ Ok page.new) }
    ensures refused { IsTrue F.tells → IfErr result (λ e. (e ≡ PageFault.ReadFault) ⊎ (told
        (bytes_from segment offset (file_in (entry_at (F.contents tree.old) file.now))) ≡ Err e)) }
    ensures row { IfErr result (IsAmong (PageFault.ReadFault ∷ PageFault.ShortSegment segment
        ∷ PageFault.SegmentMissing segment ∷ [])) }
    ensures whole { length page.new ≡ 8192 }
    ensures reads { Reads F.Tree tree.old tree.new }
    ensures read_fault { IsErrOf result PageFault.ReadFault →
        Rose (F.failed_reads tree.old) (F.failed_reads tree.new) }
{
    match tree.read_at(file, offset, page) {
        Ok(()) => Ok(()),
        Err(TreeFault::Failed) => Err(PageFault::ReadFault),
        Err(TreeFault::PastEnd) => Err(PageFault::ShortSegment(segment)),
        Err(_) => Err(PageFault::SegmentMissing(segment)),
    }
}

/// A segment of a log, and the path of its file.
#[derive(Drop)]
pub(crate) struct SegmentFile {
    segment: Segment,
    path: Path,
}

impl SegmentFile {
    /// The file of the segment that holds a position: the one that is kept, where it is that
    /// segment's. The only refusal is `OutOfMemory`.
    pub(crate) fn of(
        alloc: Global,
        log: &LogPath,
        kept: Option<SegmentFile>,
        at: Lsn,
    ) -> Result<SegmentFile, PageFault>
        requires room { length log.now.folder.parts ≤ 63 }
        requires kept { IfSome kept (IsFileIn log.now) }
        ensures here { IfOk result (λ file. file.segment ≡ segment_at log.now at.0) }
        ensures file { IfOk result (IsFileIn log.now) }
        ensures memory { IfErr result (λ e. e ≡ PageFault.OutOfMemory) }
    {
        if let Some(file) = kept {
            if file.segment.number == at.0 / u64::from(log.size.bytes()) {
                return Ok(file);
            }
        }
        let segment = log.segment_at(at);
        let path = log.file_of(alloc, segment)?;
        Ok(SegmentFile { segment, path })
    }
}

/// Reads the page that begins at a position from the file of its segment. What `page` holds after a
/// refusal is open.
pub(crate) fn load<F: Tree>(
    log: &LogPath,
    file: &SegmentFile,
    tree: &mut F,
    at: Lsn,
    page: &mut [u8],
) -> Result<PageHeader, PageFault>
    requires here { file.now.segment ≡ segment_at log.now at.0 }
    requires file { IsFileIn log.now file.now }
    requires starts { at.0 % 8192 ≡ 0 }
    requires whole { length page.old ≡ 8192 }
    ensures exact { IsTrue F.tells → Meets IsFree (answer_of
        (page_at log.now (folder_of (F.contents tree.old) log.now.folder) at.0)) result }
    ensures page { IsTrue F.tells → OnOk result
        (page_at log.now (folder_of (F.contents tree.old) log.now.folder) at.0 ≡ Ok page.new) }
    ensures valid { OnOk result (IsValidPage log.now at.0 page.new) }
    ensures names { IfErr result (NamesPage log.now at.0) }
    ensures whole { length page.new ≡ 8192 }
    ensures header { IfOk result (λ header. header ≡ header_of page.new) }
    ensures reads { Reads F.Tree tree.old tree.new }
    ensures read_fault { IsErrOf result PageFault.ReadFault →
        Rose (F.failed_reads tree.old) (F.failed_reads tree.new) }
{
    let segment = file.segment;
    let offset = at.0 % u64::from(log.size.bytes());
    read_from(tree, &file.path, segment, offset, page)?;
    match first_bad_field(log, segment, at, page) {
        Some(field) => Err(PageFault::BadPage(at, field)),
        None => Ok(header_of(page)),
    }
}
