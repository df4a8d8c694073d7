//! The further pages of a record.

ghost use Rattle.std.specs.Prelude.{◌≡◌, ◌+◌, ◌-◌, ◌*◌, ◌<◌, ◌≤◌, ◌^◌, ◌++◌, None, length, min, take, drop, IsTrue, IfOk, IsErrOf};
ghost use Rattle.cluster_tree.specs.Causes.{Rose};
ghost use Rattle.wal_base.specs.Segment.{bytes_of};
ghost use Rattle.wal_pages.specs.Cursor.{Knows};
ghost use Rattle.wal_records.specs.Further.{pages_of, further_page, further, room, stop_of, stop_at, piece, gathered};
ghost use Rattle.wal_records.specs.Steps.{Adds, Gathers, Grows, StopsFrom, Turns};

use crate::extent::PAGES;
use crate::fault::LogFault;
use crate::opening::{Opened, open_page};
use crate::room::add_piece;
use crate::why::{Stop, Why};
use cluster_tree::Tree;
use wal_base::{Lsn, SegSize};
use wal_pages::{
    FIRST_IS_CONTRECORD, FIRST_IS_OVERWRITE_CONTRECORD, PAGE_SIZE, PageCursor, PageHeader,
    header_size,
};

/// What the header of a further page says of a record of which `left` bytes are still to come
/// there.
fn stop_of(page: u64, left: u32, header: PageHeader) -> Option<Stop>
    ensures value { result ≡ stop_of (further_page page left) header }
    ensures from { StopsFrom page result }
{
    if header.info & FIRST_IS_OVERWRITE_CONTRECORD != 0 {
        Some(Stop::Dropped(page))
    } else if header.info & FIRST_IS_CONTRECORD != 0 && header.remaining == left {
        None
    } else {
        Some(Stop::Ends(Why::Continuation))
    }
}

/// Up to `left` bytes of a page, from an offset on.
pub fn piece_of(page: &[u8], offset: usize, left: u32) -> &[u8]
    requires { offset ≤ length page.now }
    ensures value { result.now ≡ take left (drop offset page.now) }
    ensures size { length result.now ≡ min left (length page.now - offset) }
{
    let rest = &page[offset..];
    &rest[..rest.len().min(left as usize)]
}

/// How many bytes of a page stand behind its header, where the page has this number.
pub fn room_of(number: u64, size: SegSize) -> u32
    requires { number < 2 ^ 51 }
    ensures value { result ≡ room (bytes_of size) (number * 8192) }
    ensures some { 0 < result }
{
    (PAGE_SIZE - header_size(Lsn(number * PAGE_SIZE), size)) as u32
}

/// Reads the further page with a number, of a record of which `left` bytes are still to come there,
/// and adds those that it has to `bytes`.
pub fn add_page<F: Tree>(
    pages: &mut PageCursor,
    tree: &mut F,
    number: u64,
    left: u32,
    bytes: &mut Vec<u8>,
) -> Result<Option<Stop>, LogFault>
    requires low { number < 2 ^ 51 }
    ensures added { IsTrue F.tells → Knows pages.old (F.contents tree.old) →
        IfOk result (λ stop. Adds stop bytes.old.items bytes.new.items
        (pages_of pages.old.log (F.contents tree.old)) (bytes_of pages.old.log.size)
        (further_page (number * 8192) left)) }
    ensures grows { IfOk result (λ stop. stop ≡ None → Grows bytes.old.items bytes.new.items
        (min left (room (bytes_of pages.old.log.size) (number * 8192)))) }
    ensures from { IfOk result (StopsFrom (number * 8192)) }
    ensures turns { Turns F.Tree pages.old tree.old pages.new tree.new }
    ensures read_fault { IsErrOf result LogFault.ReadFault →
        Rose (F.failed_reads tree.old) (F.failed_reads tree.new) }
{
    let at = number * PAGE_SIZE;
    let header = match open_page(pages, tree, at)? {
        Opened::Page(header) => header,
        Opened::Refused(why) => return Ok(Some(Stop::Ends(why))),
    };
    match stop_of(at, left, header) {
        Some(stop) => return Ok(Some(stop)),
        None => {}
    }
    let offset = header_size(Lsn(at), pages.size()) as usize;
    add_piece(bytes, piece_of(pages.page(), offset, left), left)?;
    Ok(None)
}

/// Reads the further pages of a record, from the page with a number on, where `left` of its bytes
/// are still to come, and adds them to `bytes`.
pub fn add_rest<F: Tree>(
    pages: &mut PageCursor,
    tree: &mut F,
    number: u64,
    left: u32,
    bytes: &mut Vec<u8>,
) -> Result<Option<Stop>, LogFault>
    requires low { number ≤ 2 ^ 51 }
    ensures gathered { IsTrue F.tells → Knows pages.old (F.contents tree.old) →
        IfOk result (λ stop. Gathers stop bytes.new.items
        (gathered (pages_of pages.old.log (F.contents tree.old)) (bytes_of pages.old.log.size)
        bytes.old.items (further (bytes_of pages.old.log.size) (number * 8192) left))) }
    ensures grows { IfOk result (λ stop. stop ≡ None →
        Grows bytes.old.items bytes.new.items left) }
    ensures from { IfOk result (StopsFrom (number * 8192)) }
    ensures turns { Turns F.Tree pages.old tree.old pages.new tree.new }
    ensures read_fault { IsErrOf result LogFault.ReadFault →
        Rose (F.failed_reads tree.old) (F.failed_reads tree.new) }
{
    let size = pages.size();
    let mut number = number;
    let mut left = left;
    while left > 0 {
        if number == PAGES {
            return Ok(Some(Stop::Ends(Why::NoSegment)));
        }
        match add_page(pages, tree, number, left, bytes)? {
            Some(stop) => return Ok(Some(stop)),
            None => {}
        }
        left = left.saturating_sub(room_of(number, size));
        number += 1;
    }
    Ok(None)
}
