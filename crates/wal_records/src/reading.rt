//! What a place of the log has.

ghost use Rattle.std.specs.Prelude.{◌≡◌, ℕ, ◌+◌, ◌*◌, ◌<◌, ◌≤◌, ◌^◌, [], None, Some, Option, length, IsTrue, IfOk, IfErr, IsErrOf};
ghost use Rattle.cluster_tree.specs.Causes.{Rose};
ghost use Rattle.wal_base.specs.Segment.{bytes_of};
ghost use Rattle.wal_pages.specs.Cursor.{Knows};
ghost use Rattle.wal_records.specs.Further.{pages_of, further};
ghost use Rattle.wal_records.specs.Reading.{sealed_end, seal_fault, after_header, reading};
ghost use Rattle.wal_records.specs.Steps.{Begins, FirstFits, IsPart, Gives, AllFit, BeginsFrom, FindsFrom, Turns};

use crate::extent::{PAGES, end_at};
use crate::fault::LogFault;
use crate::further::{add_page, add_rest, piece_of, room_of};
use crate::header::{HEADER_SIZE, checksum, header_fault, header_of, length_fault};
use crate::opening::{Opened, open_page};
use crate::place::{continues_at, is_place};
use crate::room::add_piece;
use crate::why::{Stop, Why};
use crate::within::read_within;
use cluster_tree::Tree;
use layout::u32_at;
use wal_base::{Lsn, SegSize};
use wal_pages::{PAGE_SIZE, PageCursor};

/// What the first page of a place has.
pub enum Begun {
    /// No record, for this reason.
    Stopped(Stop),
    /// The first bytes of a record of so many bytes in all.
    Total(u32),
}

/// What a place has.
pub enum Found {
    /// No record, for this reason.
    Stopped(Stop),
    /// A record that ends there.
    Record(u64),
}

/// Reads the first page of a place into `bytes`, as far as it belongs to a record.
fn begin<F: Tree>(
    pages: &mut PageCursor,
    tree: &mut F,
    place: u64,
    bytes: &mut Vec<u8>,
) -> Result<Begun, LogFault>
    requires empty { bytes.old.items ≡ [] }
    ensures read { IsTrue F.tells → Knows pages.old (F.contents tree.old) →
        IfOk result (λ begun. (before : Option ℕ) →
        Begins (pages_of pages.old.log (F.contents tree.old)) (bytes_of pages.old.log.size)
        before place begun bytes.new.items) }
    ensures fits { IfOk result (λ begun. FirstFits place begun bytes.new.items) }
    ensures from { IfOk result (BeginsFrom (place + 1)) }
    ensures turns { Turns F.Tree pages.old tree.old pages.new tree.new }
    ensures read_fault { IsErrOf result LogFault.ReadFault →
        Rose (F.failed_reads tree.old) (F.failed_reads tree.new) }
{
    let size = pages.size();
    if !is_place(Lsn(place), size) {
        return Ok(Begun::Stopped(Stop::Ends(Why::Place)));
    }
    let header = match open_page(pages, tree, place)? {
        Opened::Page(header) => header,
        Opened::Refused(why) => return Ok(Begun::Stopped(Stop::Ends(why))),
    };
    if continues_at(Lsn(place), size, header.info) {
        return Ok(Begun::Stopped(Stop::Ends(Why::Continuation)));
    }
    let offset = (place % PAGE_SIZE) as usize;
    let total = u32_at(pages.page(), offset);
    match length_fault(total) {
        Some(why) => return Ok(Begun::Stopped(Stop::Ends(why))),
        None => {}
    }
    add_piece(bytes, piece_of(pages.page(), offset, total), total)?;
    Ok(Begun::Total(total))
}

/// The end of the record at a place that has these bytes, or what is wrong with it.
fn seal(size: SegSize, place: u64, total: u32, bytes: &[u8]) -> Result<u64, Why>
    requires some { 0 < total }
    requires whole { 24 ≤ length bytes.now }
    ensures ok { IfOk result (λ end. seal_fault (bytes_of size) place total bytes.now ≡ None) }
    ensures end { IfOk result (λ end. end ≡ sealed_end (bytes_of size) place total bytes.now) }
    ensures err { IfErr result (λ why.
        seal_fault (bytes_of size) place total bytes.now ≡ Some why) }
    ensures up { IfOk result (λ end. place + total ≤ end) }
{
    let header = header_of(bytes);
    let Some(end) = end_at(size, header, place, total) else {
        return Err(Why::NoSegment);
    };
    if checksum(bytes) == header.crc {
        Ok(end)
    } else {
        Err(Why::Crc)
    }
}

/// Reads on behind a whole header, where `left` bytes of the record at a place are still to come,
/// from the page with a number on.
fn read_body<F: Tree>(
    pages: &mut PageCursor,
    tree: &mut F,
    before: Option<u64>,
    place: u64,
    number: u64,
    left: u32,
    bytes: &mut Vec<u8>,
) -> Result<Found, LogFault>
    requires part { IsPart (length bytes.old.items + left) bytes.old.items }
    requires whole { 24 ≤ length bytes.old.items }
    requires low { number ≤ 2 ^ 51 }
    ensures read { IsTrue F.tells → Knows pages.old (F.contents tree.old) →
        IfOk result (λ found. Gives place found bytes.new.items
        (after_header (pages_of pages.old.log (F.contents tree.old)) (bytes_of pages.old.log.size)
        before place (length bytes.old.items + left)
        (further (bytes_of pages.old.log.size) (number * 8192) left) bytes.old.items)) }
    ensures fits { IfOk result (λ found. AllFit before place found bytes.new.items) }
    ensures from { IfOk result (FindsFrom (number * 8192)) }
    ensures turns { Turns F.Tree pages.old tree.old pages.new tree.new }
    ensures read_fault { IsErrOf result LogFault.ReadFault →
        Rose (F.failed_reads tree.old) (F.failed_reads tree.new) }
{
    let size = pages.size();
    let total = bytes.len() as u32 + left;
    match header_fault(before, place, header_of(bytes)) {
        Some(why) => return Ok(Found::Stopped(Stop::Ends(why))),
        None => {}
    }
    match add_rest(pages, tree, number, left, bytes)? {
        Some(stop) => return Ok(Found::Stopped(stop)),
        None => {}
    }
    match seal(size, place, total, bytes) {
        Ok(end) => Ok(Found::Record(end)),
        Err(why) => Ok(Found::Stopped(Stop::Ends(why))),
    }
}

/// Reads what a place has, page by page, where the record before starts at `before`, and leaves the
/// bytes of a record in `bytes`.
fn read_paged<F: Tree>(
    pages: &mut PageCursor,
    tree: &mut F,
    before: Option<u64>,
    place: u64,
    bytes: &mut Vec<u8>,
) -> Result<Found, LogFault>
    requires empty { bytes.old.items ≡ [] }
    ensures read { IsTrue F.tells → Knows pages.old (F.contents tree.old) →
        IfOk result (λ found. Gives place found bytes.new.items
        (reading (pages_of pages.old.log (F.contents tree.old)) (bytes_of pages.old.log.size)
        before place)) }
    ensures fits { IfOk result (λ found. AllFit before place found bytes.new.items) }
    ensures from { IfOk result (FindsFrom (place + 1)) }
    ensures turns { Turns F.Tree pages.old tree.old pages.new tree.new }
    ensures read_fault { IsErrOf result LogFault.ReadFault →
        Rose (F.failed_reads tree.old) (F.failed_reads tree.new) }
{
    let size = pages.size();
    let total = match begin(pages, tree, place, bytes)? {
        Begun::Stopped(stop) => return Ok(Found::Stopped(stop)),
        Begun::Total(total) => total,
    };
    let number = place / PAGE_SIZE + 1;
    let left = total - bytes.len() as u32;
    if bytes.len() >= HEADER_SIZE {
        return read_body(pages, tree, before, place, number, left, bytes);
    }
    if number == PAGES {
        return Ok(Found::Stopped(Stop::Ends(Why::NoSegment)));
    }
    match add_page(pages, tree, number, left, bytes)? {
        Some(stop) => return Ok(Found::Stopped(stop)),
        None => {}
    }
    let left = left.saturating_sub(room_of(number, size));
    read_body(pages, tree, before, place, number + 1, left, bytes)
}

/// Reads what a place has, where the record before starts at `before`, and leaves the bytes of a
/// record in `bytes`. Most records lie within the page that is held.
pub fn read_record<F: Tree>(
    pages: &mut PageCursor,
    tree: &mut F,
    before: Option<u64>,
    place: u64,
    bytes: &mut Vec<u8>,
) -> Result<Found, LogFault>
    requires empty { bytes.old.items ≡ [] }
    ensures read { IsTrue F.tells → Knows pages.old (F.contents tree.old) →
        IfOk result (λ found. Gives place found bytes.new.items
        (reading (pages_of pages.old.log (F.contents tree.old)) (bytes_of pages.old.log.size)
        before place)) }
    ensures fits { IfOk result (λ found. AllFit before place found bytes.new.items) }
    ensures from { IfOk result (FindsFrom (place + 1)) }
    ensures turns { Turns F.Tree pages.old tree.old pages.new tree.new }
    ensures read_fault { IsErrOf result LogFault.ReadFault →
        Rose (F.failed_reads tree.old) (F.failed_reads tree.new) }
{
    match read_within(pages, before, place, bytes)? {
        Some(end) => Ok(Found::Record(end)),
        None => read_paged(pages, tree, before, place, bytes),
    }
}
