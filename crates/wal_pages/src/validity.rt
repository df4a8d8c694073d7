//! The rules of a valid page.

ghost use Rattle.std.specs.Prelude.{◌≡◌, length};
ghost use Rattle.wal_pages.specs.LogBytes.{segment_at};
ghost use Rattle.wal_pages.specs.ValidPage.{first_bad_field};

use crate::field::PageField;
use crate::header::{LONG_HEADER, PAGE_SIZE};
use crate::log_path::LogPath;
use layout::{u16_at, u32_at, u64_at};
use wal_base::{Lsn, Segment};

/// The magic number of version 16 (`XLOG_PAGE_MAGIC`).
const MAGIC: u16 = 0xD113;

/// Every bit that has a meaning (`XLP_ALL_FLAGS`) is below this one.
const NO_FLAG: u16 = 16;

/// The first rule that a page at a position breaks, in its segment.
#[tactic(auto, unfolding(crate::specs::ValidPage::first_bad_field))]
pub(crate) fn first_bad_field(
    log: &LogPath,
    segment: Segment,
    at: Lsn,
    page: &[u8],
) -> Option<PageField>
    requires whole { length page.now ≡ 8192 }
    requires here { segment ≡ segment_at log.now at.0 }
    ensures value { result ≡ first_bad_field log.now at.0 page.now }
{
    let bytes = log.size.bytes();
    let is_first = at.0 % u64::from(bytes) == 0;
    let info = u16_at(page, 2);
    let tli = u32_at(page, 4);
    if u16_at(page, 0) != MAGIC {
        return Some(PageField::Magic);
    }
    if info >= NO_FLAG || (info & LONG_HEADER != 0) != is_first {
        return Some(PageField::Info);
    }
    if tli == 0 || tli > segment.tli {
        return Some(PageField::Timeline);
    }
    if u64_at(page, 8) != at.0 {
        return Some(PageField::Address);
    }
    if !is_first {
        return None;
    }
    if log.system.is_some_and(|system| u64_at(page, 24) != system) {
        return Some(PageField::System);
    }
    if u32_at(page, 32) != bytes {
        return Some(PageField::SegmentSize);
    }
    if u64::from(u32_at(page, 36)) != PAGE_SIZE {
        return Some(PageField::BlockSize);
    }
    None
}
