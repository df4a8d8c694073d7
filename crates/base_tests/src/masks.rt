// Expected values are those of heap_mask, btree_mask and seq_mask, worked out by hand.
use crate::page_calls::{add_item, empty_page};
use crate::texts::{first_word, number, shown};
use page_layout::{Line, Page};
use page_masks::{kind_of, mask, same_page};
use std::process::Abort;
use wal_base::Lsn;

// Adds unused lines up to this one.
fn add_unused<R: Abort>(rt: &R, page: &mut Page, lines: u16) {
    for place in 2..=lines {
        add_item(rt, page, &[], place, true);
        page.set_line(place, Line::Unused).expect(rt, "no line");
    }
}

// A heap page with one tuple of 24 bytes of these hint bits, and unused lines after it.
fn heap_page<R: AllocGlobal + Abort>(rt: &R, bits: u16, lines: u16) -> Page {
    let mut tuple = [7u8; 24];
    tuple[20..22].copy_from_slice(&bits.to_le_bytes());
    tuple[22] = 24;
    let mut page = empty_page(rt, 0);
    add_item(rt, &mut page, &tuple, 1, true);
    add_unused(rt, &mut page, lines);
    page
}

// Hint bits don't show: of a tuple's bits those that do, and the bytes around them.
pub(crate) const HINTS: &str = "\
mask hints 2306 = 2 7 0 0 7
mask hints 2050 = 2 7 0 0 7
mask hints 2818 = 770 7 0 0 7";

fn hints<R: AllocGlobal + Abort>(rt: &R, bits: &str) -> String {
    let mut page = heap_page(rt, number(rt, bits), 1);
    mask(&mut page, 0);
    let bytes = page.bytes();
    let shown = u16::from_le_bytes([bytes[8188], bytes[8189]]);
    format!(in rt.alloc();
        "{shown} {} {} {} {}",
        bytes[8175], bytes[8176], bytes[8179], bytes[8180]
    )
    .expect(rt, "no memory")
}

// The special space of a page and its last eight bytes, and maybe a byte that is changed.
pub(crate) const KINDS: &str = "\
mask kind 0 0000000000000000 = Heap
mask kind 16 0000000000000000 = Btree
mask kind 16 0000000000007FFF = Btree
mask kind 16 00000000000080FF = Other
mask kind 4 1717000000000000 = Sequence
mask kind 4 1717010000000000 = Other
mask kind 16 1717000000000000 = Btree
mask kind 20 1717000000000000 = Other
mask kind 0 0000000000000000 upper = Other
mask kind 0 0000000000000000 zero = Zero";

// An empty page with this much special space, and these last eight bytes.
fn special_page<R: AllocGlobal + Abort>(rt: &R, special: u16, digits: &str) -> Page {
    let mut page = empty_page(rt, special);
    hex::decode_to_slice(digits, &mut page.bytes_mut()[8184..8192]).expect(rt, "not eight bytes");
    page
}

// The page of a row: its special space and its last eight bytes.
fn page_of<R: AllocGlobal + Abort>(rt: &R, words: &str) -> Page {
    let (special, behind) = first_word(words);
    let (digits, change) = first_word(behind);
    let mut page = special_page(rt, number(rt, special), digits);
    match change {
        "" => {}
        "upper" => page.bytes_mut()[14] = 1,
        "zero" => page.bytes_mut().fill(0),
        _ => panic!(rt; "no such change"),
    }
    page
}

// Such a page with a line, all flags and a position: bytes of its position, its flags, its line and its last eight bytes.
pub(crate) const OTHERS: &str = "\
mask masked 16 00000000E1FF0304 = 0 0 F8 12 [0, 0, 0, 0, 129, 255, 0, 0]
mask masked 16 00000000E0FF0304 = 0 0 F8 13 [0, 0, 0, 0, 128, 255, 0, 0]
mask masked 4 1717000001020304 = 0 0 FF 13 [23, 23, 0, 0, 1, 2, 3, 4]
mask masked 20 00000000E0FF0304 = 0 0 FF 13 [0, 0, 0, 0, 224, 255, 3, 4]";

fn masked<R: AllocGlobal + Abort>(rt: &R, words: &str) -> String {
    let mut page = page_of(rt, words);
    add_item(rt, &mut page, &[5; 9], 1, false);
    page.bytes_mut()[10] = 0xFF;
    page.bytes_mut()[26] = 0x13;
    page.set_lsn(Lsn(0x0102_0304_0506_0708));
    mask(&mut page, 0);
    let bytes = page.bytes();
    format!(in rt.alloc();
        "{} {} {:02X} {:02X} {:?}",
        bytes[0],
        bytes[7],
        bytes[10],
        bytes[26],
        &bytes[8184..8192]
    )
    .expect(rt, "no memory")
}

/// `hints BITS`, `kind SPECIAL END` or `masked SPECIAL END`.
pub(crate) fn of_mask<R: AllocGlobal + Abort>(rt: &R, words: &str) -> String {
    let (call, given) = first_word(words);
    match call {
        "hints" => hints(rt, given),
        "kind" => shown(rt, &kind_of(&page_of(rt, given))),
        "masked" => masked(rt, given),
        _ => panic!(rt; "no such call"),
    }
}

#[test]
fn a_speculative_tuple_shows_itself(rt: HostRuntime) {
    let mut page = heap_page(&rt, 0, 1);
    page.bytes_mut()[8184..8186].copy_from_slice(&[0xFE, 0xFF]);
    mask(&mut page, 0x1_0203);
    assert!(rt; &page.bytes()[8180..8186] == [1, 0, 3, 2, 1, 0].as_slice());
}

// Whether two pages are the same as they are compared.
fn is_same<R: AllocGlobal + Abort>(rt: &R, a: &Page, b: &Page, block: u32) -> bool {
    same_page(rt.alloc(), a, b, block).expect(rt, "no memory")
}

#[test]
fn unused_lines_at_the_end_do_not_show(rt: HostRuntime) {
    let mut ten = heap_page(&rt, 0x0902, 10);
    let seven = heap_page(&rt, 0x0802, 7);
    ten.set_lsn(Lsn(9));
    ten.bytes_mut()[10] = 7;
    ten.bytes_mut()[20] = 1;
    let masked = is_same(&rt, &ten, &seven, 3);
    ten.bytes_mut()[8191] = 9;
    let changed = is_same(&rt, &ten, &seven, 3);
    assert!(rt; (masked, changed) == (true, false));
}

// Drops the item of the first line.
fn drop_item<R: Abort>(rt: &R, page: &mut Page) {
    page.set_line(1, Line::Redirect(1)).expect(rt, "no line");
}

fn pack<R: Abort>(rt: &R, page: &mut Page) {
    page.pack().expect(rt, "no room");
}

// A line that loses its item uncovers the item's hint bits: so setting a line alone is no step that
// respects the mask.
#[test]
fn a_dropped_item_shows_its_hint_bits(rt: HostRuntime) {
    let mut a = heap_page(&rt, 0x0902, 1);
    let mut b = heap_page(&rt, 0x0802, 1);
    let held = is_same(&rt, &a, &b, 0);
    drop_item(&rt, &mut a);
    drop_item(&rt, &mut b);
    let dropped = is_same(&rt, &a, &b, 0);
    pack(&rt, &mut a);
    pack(&rt, &mut b);
    let packed = is_same(&rt, &a, &b, 0);
    assert!(rt; (held, dropped, packed) == (true, false, true));
}
