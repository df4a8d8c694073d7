//! The page that reading goes on at.

ghost use Rattle.std.specs.Prelude.{◌≡◌, length, IsTrue, IfOk, IsErrOf};
ghost use Rattle.cluster_tree.specs.Causes.{Rose};
ghost use Rattle.wal_pages.specs.Cursor.{Knows};
ghost use Rattle.wal_pages.specs.Header.{header_of, page_of};
ghost use Rattle.wal_records.specs.Further.{pages_of};
ghost use Rattle.wal_records.specs.Steps.{Opens, IsOpened, Turns};

use crate::fault::LogFault;
use crate::why::Why;
use cluster_tree::Tree;
use wal_base::Lsn;
use wal_pages::{PageCursor, PageFault, PageHeader};

/// The page that holds a position, or why the log ends there.
pub enum Opened {
    /// The page is valid, and its header says this.
    Page(PageHeader),
    /// There is no valid page.
    Refused(Why),
}

/// Reads the page that holds a position.
pub fn open_page<F: Tree>(pages: &mut PageCursor, tree: &mut F, at: u64) -> Result<Opened, LogFault>
    ensures opened { IsTrue F.tells → Knows pages.old (F.contents tree.old) →
        IfOk result (λ opened. Opens opened pages.new.page
        (pages_of pages.old.log (F.contents tree.old) (page_of at))) }
    ensures page { IfOk result (λ opened. IsOpened opened pages.new.page) }
    ensures turns { Turns F.Tree pages.old tree.old pages.new tree.new }
    ensures read_fault { IsErrOf result LogFault.ReadFault →
        Rose (F.failed_reads tree.old) (F.failed_reads tree.new) }
{
    match pages.turn_to(tree, Lsn(at)) {
        Ok(header) => Ok(Opened::Page(header)),
        Err(PageFault::SegmentMissing(_)) => Ok(Opened::Refused(Why::NoSegment)),
        Err(PageFault::ShortSegment(_)) => Ok(Opened::Refused(Why::ShortSegment)),
        Err(PageFault::BadPage(_, _)) => Ok(Opened::Refused(Why::Page)),
        Err(PageFault::ReadFault) => Err(LogFault::ReadFault),
        Err(PageFault::OutOfMemory) => Err(LogFault::OutOfMemory),
    }
}
