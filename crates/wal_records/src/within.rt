//! Records that lie within the page that is held: the short way to most of them.

ghost use Rattle.std.specs.Prelude.{◌≡◌, ◌≤◌, [], Option, length, IfSome, IfNone, IfOk};
ghost use Rattle.cluster_tree.specs.Contents.{Contents};
ghost use Rattle.wal_base.specs.Segment.{bytes_of};
ghost use Rattle.wal_pages.specs.Cursor.{Knows};
ghost use Rattle.wal_records.specs.Further.{pages_of};
ghost use Rattle.wal_records.specs.Reading.{Spelled, reading, record_of};
ghost use Rattle.wal_records.specs.Steps.{EndsWithin, IsLinkedAll, IsWithin};

use crate::extent::is_switch;
use crate::header::{HEADER_SIZE, checksum, header_fault, header_of};
use crate::room::add_piece;
use layout::u32_at;
use std::alloc::AllocError;
use wal_base::Lsn;
use wal_pages::{LONG_HEADER_SIZE, PAGE_SIZE, PageCursor};

/// The bytes of a page from a place on, as many as the record there says that it has, if they begin
/// behind any page's header and end on the page.
fn bytes_within(page: &[u8], place: u64) -> Option<&[u8]>
    requires whole { length page.now ≡ 8192 }
    ensures within { IfSome result (λ bytes. IsWithin page.now place bytes.now) }
{
    let offset = place % PAGE_SIZE;
    if offset <= LONG_HEADER_SIZE || place % 8 != 0 {
        return None;
    }
    let total = u32_at(page, offset as usize) as usize;
    let rest = &page[offset as usize..];
    if total < HEADER_SIZE || total > rest.len() {
        return None;
    }
    Some(&rest[..total])
}

/// Where the record at a place ends that has these bytes, if nothing is wrong with it and it is no
/// switch record.
fn end_within(before: Option<u64>, place: u64, bytes: &[u8]) -> Option<u64>
    requires least { 24 ≤ length bytes.now }
    ensures ends { IfSome result (EndsWithin before place bytes.now) }
{
    let header = header_of(bytes);
    if is_switch(header) || header_fault(before, place, header).is_some() {
        return None;
    }
    if checksum(bytes) != header.crc {
        return None;
    }
    let behind = place.checked_add(bytes.len() as u64)?;
    Some(behind.checked_add(7)? / 8 * 8)
}

/// Reads the record at a place into `bytes`, where it lies within the page that is held and nothing
/// is wrong with it, and answers where it ends. Of any other place nothing is said.
pub fn read_within(
    pages: &PageCursor,
    before: Option<u64>,
    place: u64,
    bytes: &mut Vec<u8>,
) -> Result<Option<u64>, AllocError>
    requires empty { bytes.old.items ≡ [] }
    ensures read { IfOk result (λ found. IfSome found (λ end. (contents : Contents) →
        Knows pages.now contents →
        reading (pages_of pages.now.log contents) (bytes_of pages.now.log.size) before place
        ≡ Spelled (record_of place end bytes.new.items))) }
    ensures fits { IfOk result (λ found. IfSome found (λ end.
        IsLinkedAll before place end bytes.new.items)) }
    ensures none { IfOk result (λ found. IfNone found (bytes.new.items ≡ [])) }
{
    let Some(page) = pages.page_with(Lsn(place)) else {
        return Ok(None);
    };
    let Some(record) = bytes_within(page, place) else {
        return Ok(None);
    };
    let Some(end) = end_within(before, place, record) else {
        return Ok(None);
    };
    add_piece(bytes, record, record.len() as u32)?;
    Ok(Some(end))
}
