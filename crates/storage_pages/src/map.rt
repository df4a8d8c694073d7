//! Redo of VISIBLE on the page of the visibility map.

ghost use Rattle.std.specs.Prelude.{◌≡◌, ◌*◌, ◌^◌, ◌<◌, length};
ghost use Rattle.block_refs.specs.Parts.{ArePartsOf};
ghost use Rattle.page_masks.specs.Kind.{is_zero};
ghost use Rattle.page_masks.specs.Law.{stamped};
ghost use Rattle.redo_steps.specs.Redo.{Makes, Redoes};
ghost use Rattle.storage_replay.specs.MapBits.{map_byte};
ghost use Rattle.storage_pages.specs.MapPage.{bits_set, started_map, visible_map, with_bits};

use block_refs::Parts;
use page_layout::init::put_init;
use page_layout::lsn::put_lsn;
use page_layout::{Page, RedoWhy};
use record_layouts::HeapVisible;
use wal_records::Record;

/// How many heap blocks have their bits on a page.
const PAGE_BLOCKS: u32 = 32672;

/// How many bytes a page's header has.
const HEADER: u32 = 24;

/// The byte of a heap block in its page.
fn map_byte(block: u32) -> usize
    ensures value { result ≡ map_byte block }
    ensures within { result < 8192 }
{
    (HEADER + block % PAGE_BLOCKS / 4) as usize
}

/// Two bits in the place of a heap block's pair.
#[tactic(auto, using(storage_replay::proofs::MapLemmas::pair_steps))]
fn bits_at(pair: u32, bits: u8) -> u8
    requires pair { pair < 4 }
    requires bits { bits < 4 }
    ensures { result ≡ bits * 4 ^ pair }
{
    if pair == 0 {
        bits
    } else if pair == 1 {
        bits * 4
    } else if pair == 2 {
        bits * 16
    } else {
        bits * 64
    }
}

/// A heap block's byte with these bits of it.
fn bits_set(bits: u8, block: u32, byte: u8) -> u8
    ensures { result ≡ bits_set bits block byte }
{
    byte | bits_at(block % 4, bits % 4)
}

/// Sets bits of a heap block on the page.
fn set_bits(page: &mut [u8], bits: u8, block: u32)
    requires { length page.old ≡ 8192 }
    ensures { page.new ≡ with_bits bits block page.old }
{
    let at = map_byte(block);
    page[at] = bits_set(bits, block, page[at]);
}

/// Whether a page is all zeros.
fn is_zero(page: &[u8]) -> bool
    ensures { result ≡ is_zero page.now }
{
    page.iter().all(|b| *b == 0)
}

/// Makes an empty page of one of zeros.
fn start_map(page: &mut [u8])
    requires { length page.old ≡ 8192 }
    ensures value { page.new ≡ started_map page.old }
    ensures size { length page.new ≡ 8192 }
{
    let zero = is_zero(page);
    if zero {
        put_init(page, 0);
    }
}

/// All but the LSN.
fn change_map(rec: &Record, parts: &Parts, page: &mut [u8]) -> Result<(), RedoWhy>
    requires parts { ArePartsOf rec.now parts.now }
    requires size { length page.old ≡ 8192 }
    ensures { Makes (visible_map rec.now parts.now page.old) result page.new }
{
    let Some(op) = HeapVisible::read(parts.main_bytes(rec)) else {
        return Err(RedoWhy::Layout);
    };
    let Some(heap) = parts.block(1) else {
        return Err(RedoWhy::Layout);
    };
    start_map(page);
    set_bits(page, op.flags, heap.name.block);
    Ok(())
}

/// Redoes VISIBLE on the page of the visibility map that its block 0 names: sets the bits that its
/// flags have, 1 all visible and 2 all frozen, of the heap block that its block 1 names, and writes
/// the record's end as LSN. A page of zeros counts as an empty one. Nothing else is asked of the
/// page, nor whether it is the one that has that heap block's bits. The parts have to be those of
/// the record.
///
/// Answers `Layout` where the main bytes are too few or there is no block 1, and then the page is
/// as it was. It takes no memory.
#[tactic(auto, using(page_layout::proofs::Lent::over_same))]
pub fn redo_map(rec: &Record, parts: &Parts, page: &mut Page) -> Result<(), RedoWhy>
    requires parts { ArePartsOf rec.now parts.now }
    ensures exact { Redoes (stamped rec.now.end (visible_map rec.now parts.now) page.old)
        page.old result page.new }
{
    let mut room = [0u8; 8192];
    room.copy_from_slice(page.bytes());
    change_map(rec, parts, &mut room)?;
    put_lsn(&mut room, rec.end().0);
    page.bytes_mut().copy_from_slice(&room);
    Ok(())
}
