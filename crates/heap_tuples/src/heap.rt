//! Heap pages on which records are redone, and the tuples that they name.

ghost use Rattle.std.specs.Prelude.{ℕ, ◌≡◌, ◌+◌, ◌-◌, ◌≤◌, length, IsTrue, IsOk};
ghost use Rattle.page_layout.specs.Page.{lp_off, lp_len, IsFormed};
ghost use Rattle.page_layout.specs.Edits.{trimmed, init_bytes};
ghost use Rattle.redo_steps.specs.Redo.{Redoes};
ghost use Rattle.heap_tuples.specs.Heap.{is_heap_page, trimmed_heap, started, has_tuple, visible_cleared};

use crate::flags::{ALL_VISIBLE_CLEARED, has_bit};
use page_layout::RedoWhy;
use page_layout::init::put_init;
use page_layout::line::pointer_at;
use page_layout::shape::{bounds_of, line_count, well_formed};
use page_layout::trim::put_trimmed;
use redo_steps::head::clear_all_visible;

// Whether these 8192 bytes are a heap page.
fn is_heap_page(page: &[u8]) -> bool
    requires { length page.now ≡ 8192 }
    ensures { result ≡ is_heap_page page.now }
{
    well_formed(page) && bounds_of(page).special == 8192
}

// Drops the unused lines at the end of a heap page.
fn put_trimmed_heap(page: &mut [u8])
    requires size { length page.old ≡ 8192 }
    requires heap { IsTrue (is_heap_page page.old) }
    ensures value { page.new ≡ trimmed page.old }
    ensures formed { IsFormed page.new }
{
    put_trimmed(page);
}

/// Drops the unused lines at the end of a heap page, with which redo of each record begins.
/// Answers `PageShape` where it isn't one.
pub fn trim_heap(page: &mut [u8]) -> Result<(), RedoWhy>
    requires { length page.old ≡ 8192 }
    ensures exact { Redoes (trimmed_heap page.old) page.old result page.new }
    ensures formed { IsOk result → IsFormed page.new }
{
    if !is_heap_page(page) {
        return Err(RedoWhy::PageShape);
    }
    put_trimmed_heap(page);
    Ok(())
}

// Makes an empty heap page.
fn put_empty(page: &mut [u8])
    requires { length page.old ≡ 8192 }
    ensures value { page.new ≡ init_bytes 0 }
    ensures formed { IsFormed page.new }
{
    put_init(page, 0);
}

/// Begins redo of a record: makes an empty page where the record says so (`init`), whatever the
/// page was, and else drops the unused lines at the end of a heap page. Answers `PageShape` where it
/// isn't one and isn't made anew.
pub fn start_heap(page: &mut [u8], init: bool) -> Result<(), RedoWhy>
    requires { length page.old ≡ 8192 }
    ensures exact { Redoes (started init page.old) page.old result page.new }
    ensures formed { IsOk result → IsFormed page.new }
{
    if init {
        put_empty(page);
        return Ok(());
    }
    trim_heap(page)
}

/// Whether a tuple with its whole header stands at a place.
pub fn has_tuple(page: &[u8], place: u16) -> bool
    requires { IsFormed page.now }
    ensures { result ≡ has_tuple page.now place }
{
    if place == 0 || place as usize > line_count(page) {
        return false;
    }
    let line = pointer_at(page, place as usize - 1);
    line.flags == 1 && line.len >= 23
}

/// Where a tuple lies on its page.
#[derive(Clone, Copy)]
pub struct TupleSpan {
    /// Its first byte.
    pub start: usize,
    /// The byte behind its last.
    pub end: usize,
}

/// Where the tuple at a place lies.
#[tactic(auto, using(crate::proofs::EditLemmas::tuple_of))]
pub fn tuple_span(page: &[u8], place: u16) -> TupleSpan
    requires formed { IsFormed page.now }
    requires tuple { IsTrue (has_tuple page.now place) }
    ensures start { result.start ≡ lp_off page.now (place - 1) }
    ensures end { result.end ≡ lp_off page.now (place - 1) + lp_len page.now (place - 1) }
    ensures long { result.start + 23 ≤ result.end }
    ensures inside { result.end ≤ length page.now }
{
    let line = pointer_at(page, place as usize - 1);
    TupleSpan {
        start: line.off,
        end: line.off + line.len,
    }
}

/// Takes off the flag "all visible" where the record's flags say so.
pub fn put_visible_cleared(page: &mut [u8], flags: u8)
    requires { length page.old ≡ 8192 }
    ensures { page.new ≡ visible_cleared flags page.old }
{
    if has_bit(flags, ALL_VISIBLE_CLEARED) {
        clear_all_visible(page);
    }
}
