//! A record of a log: its blocks, their bytes and images, and what it says, worked out by hand from the format.
ghost use Rattle.block_refs.specs.Parts.{ArePartsOf};

use crate::one_record::cursor_over;
use crate::told::Told;
use block_refs::{Parts, image_page, split_into, split_record};
use rmgr_desc::describe;
use std::process::Abort;
use wal_records::Record;

/// The body of an INSERT+INIT: block 7 of 1663/5/16384 with three bytes; block 8 of the free space map of the same relation with
/// two; block 9 of the visibility map of 1664/0/1262, made anew, with an image of 3 bytes and a hole
/// of 8189 at 1, not to be applied; an origin, a transaction, and four main bytes.
const THREE_BLOCKS: [u8; 75] = [
    0, 0x20, 3, 0, 127, 6, 0, 0, 5, 0, 0, 0, 0, 64, 0, 0, 7, 0, 0, 0, // block 0
    1, 0xA1, 2, 0, 8, 0, 0, 0, // block 1
    4, 0x52, 0, 0, 3, 0, 1, 0, 1, 128, 6, 0, 0, 0, 0, 0, 0, 238, 4, 0, 0, 9, 0, 0, 0, // block 4
    253, 1, 0, 252, 188, 2, 0, 0, 255, 4, // the rest of the headers
    0x11, 0x12, 0x13, 0x21, 0x22, 0x75, 0x76, 0x77, 0xE1, 0xE2, 0xE3, 0xE4,
];

/// Whether a record's references are those that are meant, in order, each also by its id.
fn has_references(parts: &Parts) -> bool {
    let mut told = Told::new(REFERENCES);
    for at in 0..parts.count() {
        if let Some(block) = parts.get(at) {
            told.shows("", &block);
            told.shows(" ", &parts.block(block.id).is_some());
            told.text("\n");
        }
    }
    told.shows("", &parts.get(parts.count()));
    told.shows(" ", &parts.block(2));
    told.shows(" ", &parts.image_total());
    told.is_all()
}

const REFERENCES: &str = "\
BlockRef { id: 0, name: BlockName { rel: RelName { space: 1663, database: 5, relation: 16384 }, fork: Main, block: 7 }, will_init: false, image: None } true
BlockRef { id: 1, name: BlockName { rel: RelName { space: 1663, database: 5, relation: 16384 }, fork: FreeSpace, block: 8 }, will_init: false, image: None } true
BlockRef { id: 4, name: BlockName { rel: RelName { space: 1664, database: 0, relation: 1262 }, fork: Visibility, block: 9 }, will_init: true, image: Some(ImageRef { apply: false, hole_at: 1, hole: 8189 }) } true
None None 3";

/// Whether a record's main bytes, the bytes of its blocks 0, 1, 4 and 2, and what it says are those that are meant.
fn has_bytes<R: AllocGlobal + Abort>(rt: &R, rec: &Record, parts: &Parts) -> bool
    requires parts { ArePartsOf rec.now parts.now }
{
    let mut told = Told::new(BYTES);
    told.shows("", &parts.main_bytes(rec));
    told.shows(" ", &parts.block_bytes(rec, 0));
    told.shows(" ", &parts.block_bytes(rec, 1));
    told.shows(" ", &parts.block_bytes(rec, 4));
    told.shows(" ", &parts.block_bytes(rec, 2));
    let says = describe(rt.alloc(), rec, parts).expect(rt, "no memory");
    told.says(" ", &says.as_str());
    told.is_all()
}

const BYTES: &str = "\
[225, 226, 227, 228] Some([17, 18, 19]) Some([33, 34]) Some([]) None off: 58081, flags: 0xE3";

/// Whether all bytes of some are this one.
fn are_all(bytes: &[u8], wanted: u8) -> bool {
    for &byte in bytes {
        if byte != wanted {
            return false;
        }
    }
    true
}

/// Whether there is a page of the images of blocks 0 and 4 in a room of bytes AA, whether the room stays without one, and
/// of the page the first byte, whether its hole is of zeros, and the bytes behind that and the page.
fn has_images(rec: &Record, parts: &Parts) -> bool
    requires parts { ArePartsOf rec.now parts.now }
{
    let mut told = Told::new(IMAGES);
    let mut room = [0xAA; 8193];
    told.shows("", &image_page(rec, parts, 0, &mut room));
    told.shows(" ", &are_all(&room, 0xAA));
    told.shows(" ", &image_page(rec, parts, 4, &mut room));
    told.shows(" ", &room[0]);
    told.shows(" ", &are_all(&room[1..8190], 0));
    told.shows(" ", &&room[8190..]);
    told.is_all()
}

const IMAGES: &str = "false true true 117 true [118, 119, 170]";

/// Whether a record has its references, its bytes and its images.
fn has_all<R: AllocGlobal + Abort>(rt: &R, rec: &Record) -> bool {
    match split_record(rec) {
        Ok(parts) => {
            has_references(&parts) && has_bytes(rt, rec, &parts) && has_images(rec, &parts)
        }
        Err(_) => false,
    }
}

/// Whether a record has its references where its parts stand in parts that were there.
fn has_same_parts(rec: &Record) -> bool {
    let mut parts = Parts::new();
    split_into(rec, &mut parts).is_ok() && has_references(&parts)
}

#[test]
fn a_record_has_its_references_bytes_and_images(rt: HostRuntime) {
    let cursor = cursor_over(&rt, 10, 0x80, &THREE_BLOCKS);
    let rec = cursor.current().expect(&rt, "no record");
    assert!(rt; has_all(&rt, rec) && has_same_parts(rec));
}
