//! The first place from a position on at which a record can begin.

ghost use Rattle.std.specs.Prelude.{◌≡◌, ◌≤◌, ◌%◌, IfErr, IfOk, IsErrOf, IsTrue, length};
ghost use Rattle.cluster_tree.specs.Causes.{Rose};
ghost use Rattle.cluster_tree.specs.Frame.{Reads};
ghost use Rattle.wal_base.specs.Segment.{bytes_of};
ghost use Rattle.wal_pages.specs.Header.{page_of};
ghost use Rattle.wal_records.specs.Further.{pages_of};
ghost use Rattle.waldump_core.specs.FirstPlace.{first_place, header_in, place_on};
ghost use Rattle.waldump_core.specs.Texts.{IsOfReads};

use crate::fault::DumpFault;
use cluster_tree::Tree;
use std::alloc::Global;
use wal_base::{Lsn, SegSize};
use wal_pages::{
    FIRST_IS_CONTRECORD, LogPath, PAGE_SIZE, PageCursor, PageFault, PageHeader, header_size,
    page_of,
};

/// The first place on a page, behind its header and what goes on there.
#[tactic(auto, using(crate::proofs::PlaceLemmas::place_steps))]
fn place_on(at: u64, size: SegSize, header: PageHeader) -> Option<u64>
    requires { at % 8192 ≡ 0 }
    ensures { result ≡ place_on (bytes_of size) at header }
{
    let skipped = if header.info & FIRST_IS_CONTRECORD != 0 {
        (u64::from(header.remaining) + 7) / 8 * 8
    } else {
        0
    };
    let before = header_size(Lsn(at), size) + skipped;
    if before < PAGE_SIZE {
        Some(at + before)
    } else {
        None
    }
}

/// The header of the page that begins at a position, or `None` where it isn't valid.
#[tactic(auto, using(crate::proofs::PlaceLemmas::place_steps))]
fn header_at<F: Tree>(
    pages: &mut PageCursor,
    tree: &mut F,
    at: u64,
) -> Result<Option<PageHeader>, DumpFault>
    requires { at % 8192 ≡ 0 }
    ensures log { pages.new.log ≡ pages.old.log }
    ensures header { IsTrue F.tells → IfOk result (λ header. header
        ≡ header_in (pages_of pages.old.log (F.contents tree.old) at)) }
    ensures free { IfErr result IsOfReads }
    ensures reads { Reads F.Tree tree.old tree.new }
    ensures read_fault { IsErrOf result DumpFault.ReadFault →
        Rose (F.failed_reads tree.old) (F.failed_reads tree.new) }
{
    match pages.read_page(tree, Lsn(at)) {
        Ok(header) => Ok(Some(header)),
        Err(PageFault::ReadFault) => Err(DumpFault::ReadFault),
        Err(PageFault::OutOfMemory) => Err(DumpFault::OutOfMemory),
        Err(_) => Ok(None),
    }
}

/// The first place from a page on at which a record can begin, on pages as far as they are valid.
#[tactic(auto, using(crate::proofs::PlaceLemmas::place_steps))]
fn first_place<F: Tree>(
    pages: &mut PageCursor,
    tree: &mut F,
    from: u64,
) -> Result<Option<u64>, DumpFault>
    requires { from % 8192 ≡ 0 }
    ensures place { IsTrue F.tells → IfOk result (λ place. place ≡ first_place
        (pages_of pages.old.log (F.contents tree.old)) (bytes_of pages.old.log.size) from) }
    ensures free { IfErr result IsOfReads }
    ensures reads { Reads F.Tree tree.old tree.new }
    ensures read_fault { IsErrOf result DumpFault.ReadFault →
        Rose (F.failed_reads tree.old) (F.failed_reads tree.new) }
{
    let size = pages.size();
    let mut at = from;
    'pages: loop {
        let Some(header) = header_at(pages, tree, at)? else {
            return Ok(None);
        };
        if let Some(place) = place_on(at, size, header) {
            return Ok(Some(place));
        }
        let Some(next) = at.checked_add(PAGE_SIZE) else {
            return Ok(None);
        };
        at = next;
    }
}

/// An equal log path.
fn copy_of(alloc: Global, log: &LogPath) -> Result<LogPath, DumpFault>
    ensures ok { IfOk result (λ copy. copy ≡ log.now) }
    ensures free { IfErr result (λ e. e ≡ DumpFault.OutOfMemory) }
{
    let folder = log.folder.copy(alloc)?;
    let spans = log.spans.copy(alloc)?;
    Ok(LogPath {
        folder,
        spans,
        size: log.size,
        system: log.system,
    })
}

/// The first place on the page that holds a position, or on a later one where a record fills it.
pub fn place_from<F: Tree>(
    alloc: Global,
    tree: &mut F,
    log: &LogPath,
    start: Lsn,
) -> Result<Option<u64>, DumpFault>
    requires room { length log.now.folder.parts ≤ 63 }
    ensures place { IsTrue F.tells → IfOk result (λ place. place ≡ first_place
        (pages_of log.now (F.contents tree.old)) (bytes_of log.now.size) (page_of start.0)) }
    ensures free { IfErr result IsOfReads }
    ensures reads { Reads F.Tree tree.old tree.new }
    ensures read_fault { IsErrOf result DumpFault.ReadFault →
        Rose (F.failed_reads tree.old) (F.failed_reads tree.new) }
{
    let copy = copy_of(alloc, log)?;
    let mut pages = PageCursor::new(alloc, copy)?;
    first_place(&mut pages, tree, page_of(start).0)
}
