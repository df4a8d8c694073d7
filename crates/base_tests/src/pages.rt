// Expected bytes were computed by a Python script that follows bufpage.c, independent of this crate; those of an item laid
// over another by hand.
use crate::page_calls::{add_item, empty_page, made, zero_page};
use crate::texts::{bytes_of, first_word, number, owned, shown};
use page_layout::{Line, Page, PageRefusal};
use std::process::Abort;
use wal_base::Lsn;

const FIVE: [u8; 5] = [0xA1, 0xA2, 0xA3, 0xA4, 0xA5];

const SIXTEEN: [u8; 16] = [
    0xB0, 0xB1, 0xB2, 0xB3, 0xB4, 0xB5, 0xB6, 0xB7, 0xB8, 0xB9, 0xBA, 0xBB, 0xBC, 0xBD, 0xBE, 0xBF,
];

const NINE: [u8; 9] = [0xC1, 0xC2, 0xC3, 0xC4, 0xC5, 0xC6, 0xC7, 0xC8, 0xC9];

// A page with the items of 5, 16 and 9 bytes.
fn page_of_three<R: AllocGlobal + Abort>(rt: &R) -> Page {
    let mut page = empty_page(rt, 0);
    add_item(rt, &mut page, &FIVE, 1, false);
    add_item(rt, &mut page, &SIXTEEN, 2, true);
    add_item(rt, &mut page, &NINE, 3, false);
    page
}

// Lays a part over zeros, at its byte.
fn lay<R: Abort>(rt: &R, expected: &mut [u8], at: usize, bytes: &[u8]) {
    assert!(rt;
        at <= expected.len() && bytes.len() <= expected.len() - at,
        "past the page"
    );
    expected[at..at + bytes.len()].copy_from_slice(bytes);
}

fn lay_all<R: AllocGlobal + Abort>(rt: &R, expected: &mut [u8], parts: &str) {
    for part in parts.split(", ") {
        let (at, digits) = part.split_once(' ').expect(rt, "no bytes");
        lay(rt, expected, number(rt, at), &bytes_of(rt, digits));
    }
}

// Whether the page has these parts, each at its byte, over zeros.
fn has_parts<R: AllocGlobal + Abort>(rt: &R, page: &Page, parts: &str) -> bool {
    let mut expected = [0; 8192];
    lay_all(rt, &mut expected, parts);
    page.bytes() == expected.as_slice()
}

// What calls leave of a page of three items: parts, each at its byte, over zeros.
const LEFT: &str = "\
three items:  = 12 2400D81F00200420, 24 F89F0A00E89F2000D89F12, 8152 C1C2C3C4C5C6C7C8C9, 8168 \
    B0B1B2B3B4B5B6B7B8B9BABBBCBDBEBF, 8184 A1A2A3A4A5
one between: add D1D2D3 2 between = 12 2800D01F00200420, 24 F89F0A00D09F0600E89F2000D89F12, 8144 \
    D1D2D3, 8152 C1C2C3C4C5C6C7C8C9, 8168 B0B1B2B3B4B5B6B7B8B9BABBBCBDBEBF, 8184 A1A2A3A4A5
over an unused line: set 2 unused, add D1D2D3 2 over = 12 2400D01F00200420, 24 \
    F89F0A00D09F0600D89F12, 8144 D1D2D3, 8152 C1C2C3C4C5C6C7C8C9, 8168 \
    B0B1B2B3B4B5B6B7B8B9BABBBCBDBEBF, 8184 A1A2A3A4A5
redirected and packed: set 2 redirect 3, pack = 12 2400E81F00200420, 24 F89F0A0003000100E89F12, \
    8168 C1C2C3C4C5C6C7C8C9, 8184 A1A2A3A4A5
trimmed: set 3 unused, trim = 12 2000D81F00200420, 24 F89F0A00E89F20, 8152 C1C2C3C4C5C6C7C8C9, \
    8168 B0B1B2B3B4B5B6B7B8B9BABBBCBDBEBF, 8184 A1A2A3A4A5
without the second: delete 2 = 12 2000E81F00200420, 24 F89F0A00E89F1200E89F12, 8152 \
    C1C2C3C4C5C6C7C8C9, 8168 C1C2C3C4C5C6C7C8C9, 8184 A1A2A3A4A5
without the first and third: delete 1 3 = 12 1C00F01F00200420, 24 F09F2000F09F2000D89F12, 8152 \
    C1C2C3C4C5C6C7C8C9, 8168 B0B1B2B3B4B5B6B7, 8176 B0B1B2B3B4B5B6B7B8B9BABBBCBDBEBF
a shorter second: overwrite 2 D1D2D3 = 12 2400E01F00200420, 24 F89F0A00F09F0600E09F12, 8152 \
    C1C2C3C4C5C6C7C8, 8160 C1C2C3C4C5C6C7C8C9, 8176 D1D2D3, 8184 A1A2A3A4A5
a shorter third, the lowest: overwrite 3 D1D2 = 12 2400E01F00200420, 24 F89F0A00E89F2000E09F04, 8152 \
    C1C2C3C4C5C6C7C8, 8160 D1D2, 8168 B0B1B2B3B4B5B6B7B8B9BABBBCBDBEBF, 8184 A1A2A3A4A5
as long: overwrite 3 D1D2D3D4D5D6D7D8D9 = 12 2400D81F00200420, 24 F89F0A00E89F2000D89F12, 8152 \
    D1D2D3D4D5D6D7D8D9, 8168 B0B1B2B3B4B5B6B7B8B9BABBBCBDBEBF, 8184 A1A2A3A4A5
longer in the same room: overwrite 1 D1D2D3D4D5D6D7D8 = 12 2400D81F00200420, 24 \
    F89F1000E89F2000D89F12, 8152 C1C2C3C4C5C6C7C8C9, 8168 B0B1B2B3B4B5B6B7B8B9BABBBCBDBEBF, 8184 \
    D1D2D3D4D5D6D7D8
shorter in the same room: overwrite 1 D1D2D3 = 12 2400D81F00200420, 24 F89F0600E89F2000D89F12, 8152 \
    C1C2C3C4C5C6C7C8C9, 8168 B0B1B2B3B4B5B6B7B8B9BABBBCBDBEBF, 8184 D1D2D3
an item of no bytes: overwrite 1 - = 12 2400E01F00200420, 24 00A00000F09F2000E09F12, 8152 \
    C1C2C3C4C5C6C7C8, 8160 C1C2C3C4C5C6C7C8C9, 8176 B0B1B2B3B4B5B6B7B8B9BABBBCBDBEBF
beside a line without an item: set 1 redirect 3, overwrite 2 D1D2D3 = 12 2400E01F00200420, 24 \
    03000100F09F0600E09F12, 8152 C1C2C3C4C5C6C7C8, 8160 C1C2C3C4C5C6C7C8C9, 8176 D1D2D3, 8184 A1A2A3A4A5
two lines of one item: set 1 dead 8168 16, overwrite 2 D1D2D3 = 12 2400E01F00200420, 24 \
    F09F2100F09F0600E09F12, 8152 C1C2C3C4C5C6C7C8, 8160 C1C2C3C4C5C6C7C8C9, 8176 D1D2D3, 8184 A1A2A3A4A5
without all: delete 1 2 3 = 12 1800002000200420
empty: delete 1 2 3, init 13 = 12 1800F01FF01F0420";

// A row's calls are made, and leave the parts that it says.
fn check_left<R: AllocGlobal + Abort>(rt: &R, row: &str) {
    let (calls, parts) = row.split_once(" = ").expect(rt, "no parts");
    let (_name, calls) = calls.split_once(": ").expect(rt, "no name");
    let mut page = page_of_three(rt);
    let made = made(rt, &mut page, calls);
    assert!(rt;
        (made, has_parts(rt, &page, parts)) == (Ok(()), true),
        "{row}"
    );
}

#[test]
fn each_call_leaves_these_bytes(rt: HostRuntime) {
    for row in LEFT.split('\n') {
        check_left(&rt, row);
    }
}

// A page of 291 items.
fn full_page<R: AllocGlobal + Abort>(rt: &R) -> Page {
    let mut page = empty_page(rt, 0);
    page.set_lsn(Lsn(0x1_0000_00E0));
    for place in 1..292u16 {
        add_item(rt, &mut page, &[7; 24], place, true);
    }
    page
}

#[test]
fn holds_291_items(rt: HostRuntime) {
    let mut page = full_page(&rt);
    let last = Line::Normal { at: 1208, len: 24 };
    assert!(rt; (page.count(), page.line(291)) == (Some(291), Some(last)));
    let answer = page.add_item(&[7; 24], 1, false);
    let refused = Err(PageRefusal::NoRoom);
    assert!(rt; (answer, page.lsn()) == (refused, Lsn(0x1_0000_00E0)));
}

#[test]
fn a_page_of_zeros_is_told(rt: HostRuntime) {
    let mut page = zero_page(&rt);
    let told = (page.is_zero(), page.count(), page.line(1));
    assert!(rt; told == (true, None, None));
    page.init(0).expect(&rt, "no room");
    page.bytes_mut()[8] = 7;
    assert!(rt; !page.is_zero());
}

// Calls in turn on a page of zeros, and on one of three items, of which the last is refused.
pub(crate) const OF_ZEROS: &str = "\
page zeros set 0 unused = BadPage
page zeros add - 0 between = BadPage
page zeros overwrite 0 00+8193 = BadPage
page zeros trim = BadPage
page zeros pack = BadPage
page zeros delete 0 = BadPage
page zeros init 8169 = NoRoom";

pub(crate) const OF_THREE: &str = "\
page three set 0 unused = BadPlace
page three set 4 unused = BadPlace
page three set 1 redirect 32768 = BadPlace
page three set 1 dead 0 40000 = BadPlace
page three add 00+8167 0 between = BadPlace
page three add 00+8167 5 between = BadPlace
page three add 00+8167 5 over = BadPlace
page three add 00+8167 1 over = BadPlace
page three add 00+8167 1 between = NoRoom
page three overwrite 0 00+8193 = BadPlace
page three overwrite 4 00+8193 = BadPlace
page three set 2 redirect 3, overwrite 2 00+8193 = BadPlace
page three overwrite 1 00+8 = NoRoom
page three overwrite 2 00+16 = NoRoom
page three overwrite 2 00+65535 = NoRoom
page three delete 0 = BadPlace
page three delete 4 = BadPlace
page three delete 2 1 = BadPlace
page three delete 2 2 = BadPlace";

fn page_by<R: AllocGlobal + Abort>(rt: &R, name: &str) -> Page {
    match name {
        "zeros" => zero_page(rt),
        "three" => page_of_three(rt),
        _ => panic!(rt; "no such page"),
    }
}

/// How calls in turn are refused on a page of `zeros`, or of `three` items.
pub(crate) fn of_page<R: AllocGlobal + Abort>(rt: &R, words: &str) -> String {
    let (name, calls) = first_word(words);
    let mut page = page_by(rt, name);
    match made(rt, &mut page, calls) {
        Ok(()) => owned(rt, "made"),
        Err(refusal) => shown(rt, &refusal),
    }
}

// Adds a line of the item of 4096 bytes.
fn overlap<R: Abort>(rt: &R, page: &mut Page, place: u16) {
    let line = Line::Normal {
        at: 4096,
        len: 4096,
    };
    add_item(rt, page, &[], place, false);
    page.set_line(place, line).expect(rt, "no line");
}

// A page of three items that lie over one another.
fn overlapping<R: AllocGlobal + Abort>(rt: &R) -> Page {
    let mut page = empty_page(rt, 0);
    add_item(rt, &mut page, &[1; 4096], 1, false);
    overlap(rt, &mut page, 2);
    overlap(rt, &mut page, 3);
    page
}

#[test]
fn overlapping_items_may_lack_room(rt: HostRuntime) {
    let mut page = overlapping(&rt);
    let packed = page.pack();
    let first = page.delete_items(&[1]);
    let two = page.delete_items(&[1, 2]);
    let refused = Err(PageRefusal::NoRoom);
    assert!(rt; (packed, first, two) == (refused, refused, Ok(())));
}
