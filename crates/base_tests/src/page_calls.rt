// Pages, and calls that change one, as text.
use crate::texts::{bytes_of, first_word, number};
use page_layout::{Line, Page, PageRefusal};
use std::process::Abort;

/// A page of zeros.
pub(crate) fn zero_page<R: AllocGlobal + Abort>(rt: &R) -> Page {
    Page::zero(rt.alloc()).expect(rt, "no memory")
}

/// An empty page with this much special space.
pub(crate) fn empty_page<R: AllocGlobal + Abort>(rt: &R, special: u16) -> Page {
    let mut page = zero_page(rt);
    page.init(special).expect(rt, "no room");
    page
}

/// Adds an item at a place, over an unused line or between two.
pub(crate) fn add_item<R: Abort>(rt: &R, page: &mut Page, item: &[u8], place: u16, over: bool) {
    page.add_item(item, place, over).expect(rt, "no room");
}

// What a line is set to: `unused`, `redirect PLACE` or `dead AT LEN`.
fn line_of<R: Abort>(rt: &R, words: &str) -> Line {
    let (kind, behind) = first_word(words);
    let (first, second) = first_word(behind);
    match kind {
        "unused" => Line::Unused,
        "redirect" => Line::Redirect(number(rt, first)),
        "dead" => Line::Dead {
            at: number(rt, first),
            len: number(rt, second),
        },
        _ => panic!(rt; "no such line"),
    }
}

fn set<R: Abort>(rt: &R, page: &mut Page, words: &str) -> Result<(), PageRefusal> {
    let (place, line) = first_word(words);
    page.set_line(number(rt, place), line_of(rt, line))
}

// Whether an item goes `over` an unused line, or `between` two.
fn is_over<R: Abort>(rt: &R, how: &str) -> bool {
    match how {
        "over" => true,
        "between" => false,
        _ => panic!(rt; "over or between?"),
    }
}

// Adds an item: its bytes, its place, and how it goes there.
fn add<R: AllocGlobal + Abort>(rt: &R, page: &mut Page, words: &str) -> Result<(), PageRefusal> {
    let (digits, behind) = first_word(words);
    let (place, how) = first_word(behind);
    let item = bytes_of(rt, digits);
    page.add_item(&item, number(rt, place), is_over(rt, how))
}

// Lays an item over another: its place and its bytes.
fn overwrite<R: AllocGlobal + Abort>(
    rt: &R,
    page: &mut Page,
    words: &str,
) -> Result<(), PageRefusal> {
    let (place, digits) = first_word(words);
    page.overwrite_item(number(rt, place), &bytes_of(rt, digits))
}

fn places_of<R: AllocGlobal + Abort>(rt: &R, words: &str) -> Vec<u16> {
    let mut places = Vec::new(rt.alloc());
    for word in words.split(' ') {
        places.push(number(rt, word)).expect(rt, "no memory");
    }
    places
}

// What a call answers: `set PLACE LINE`, `add BYTES PLACE over` or `between`, `overwrite PLACE BYTES`, `trim`,
// `pack`, `delete PLACE ..` or `init SPECIAL`.
fn make<R: AllocGlobal + Abort>(rt: &R, page: &mut Page, call: &str) -> Result<(), PageRefusal> {
    let (verb, words) = first_word(call);
    match verb {
        "set" => set(rt, page, words),
        "add" => add(rt, page, words),
        "overwrite" => overwrite(rt, page, words),
        "trim" => page.trim(),
        "pack" => page.pack(),
        "delete" => page.delete_items(&places_of(rt, words)),
        "init" => page.init(number(rt, words)),
        _ => panic!(rt; "no such call"),
    }
}

/// What calls in turn answer, or none, up to the first that is refused.
pub(crate) fn made<R: AllocGlobal + Abort>(
    rt: &R,
    page: &mut Page,
    calls: &str,
) -> Result<(), PageRefusal> {
    for call in calls.split(", ") {
        if !call.is_empty() {
            make(rt, page, call)?;
        }
    }
    Ok(())
}
