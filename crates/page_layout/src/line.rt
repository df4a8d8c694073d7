ghost use Rattle.std.specs.Prelude.{ℕ, ◌≡◌, ◌+◌, ◌*◌, ◌<◌, ◌≤◌, length, IsTrue};
ghost use Rattle.page_layout.specs.Page.{lp_off, lp_flags, lp_len, line_of};
ghost use Rattle.page_layout.specs.Edits.{with_pointer, with_line, fits_line, set_refusal};

use crate::bytes::{put_u16, u16_at};
use crate::refusal::PageRefusal;
use crate::shape::{line_count, well_formed};

/// A line pointer. `at` is the item's first byte on the page, `len` its length in bytes.
#[derive(Clone, Copy, Debug, PartialEq, Eq)]
pub enum Line {
    /// Free for a new item; what its numbers say doesn't show.
    Unused,
    /// In use.
    Normal {
        /// The item's first byte.
        at: u16,
        /// The item's length; 0: there is none.
        len: u16,
    },
    /// Stands for the line at this place.
    Redirect(u16),
    /// Dead, with or without an item.
    Dead {
        /// The item's first byte.
        at: u16,
        /// The item's length; 0: there is none.
        len: u16,
    },
}

/// The three numbers of a line pointer: place, kind and length.
#[derive(Clone, Copy)]
pub struct Pointer {
    /// The item's first byte; of a redirect the place that it stands for.
    pub off: usize,
    /// 0 unused, 1 normal, 2 redirect, 3 dead.
    pub flags: usize,
    /// The item's length.
    pub len: usize,
}

/// The line pointer at index `k`, counted from 0.
#[tactic(auto, unfolding(crate::specs::Page::lp_off, crate::specs::Page::lp_flags, crate::specs::Page::lp_len))]
pub fn pointer_at(page: &[u8], k: usize) -> Pointer
    requires { 28 + 4 * k ≤ length page.now }
    ensures off { result.off ≡ lp_off page.now k }
    ensures flags { result.flags ≡ lp_flags page.now k }
    ensures len { result.len ≡ lp_len page.now k }
    ensures off_bound { result.off < 32768 }
    ensures flags_bound { result.flags < 4 }
    ensures len_bound { result.len < 32768 }
{
    let low = u16_at(page, 24 + 4 * k);
    let high = u16_at(page, 26 + 4 * k);
    Pointer {
        off: low % 32768,
        flags: low / 32768 + 2 * (high % 2),
        len: high / 2,
    }
}

/// The line that a pointer's numbers say.
pub fn line_of_pointer(pointer: Pointer) -> Line
    requires off_bound { pointer.off < 32768 }
    requires flags_bound { pointer.flags < 4 }
    requires len_bound { pointer.len < 32768 }
    ensures { result ≡ line_of pointer.flags pointer.off pointer.len }
{
    let at = pointer.off as u16;
    let len = pointer.len as u16;
    match pointer.flags {
        0 => Line::Unused,
        1 => Line::Normal { at, len },
        2 => Line::Redirect(at),
        _ => Line::Dead { at, len },
    }
}

/// Writes the line pointer at index `k`.
pub fn put_pointer(page: &mut [u8], k: usize, pointer: Pointer)
    requires room { 28 + 4 * k ≤ length page.old }
    requires off_bound { pointer.off < 32768 }
    requires flags_bound { pointer.flags < 4 }
    requires len_bound { pointer.len < 32768 }
    ensures { page.new ≡ with_pointer page.old k pointer.off pointer.flags pointer.len }
{
    put_u16(page, 24 + 4 * k, pointer.off + 32768 * (pointer.flags % 2));
    put_u16(page, 26 + 4 * k, pointer.flags / 2 + 2 * pointer.len);
}

/// Whether each number of the line is at most 32767.
pub fn fits_line(line: Line) -> bool
    ensures { result ≡ fits_line line }
{
    match line {
        Line::Unused => true,
        Line::Normal { at, len } | Line::Dead { at, len } => at < 32768 && len < 32768,
        Line::Redirect(to) => to < 32768,
    }
}

/// Writes a line at index `k`; an unused one is all zeros.
pub fn put_line(page: &mut [u8], k: usize, line: Line)
    requires room { 28 + 4 * k ≤ length page.old }
    requires fits { IsTrue (fits_line line) }
    ensures { page.new ≡ with_line page.old k line }
{
    let (off, flags, len): (u16, usize, u16) = match line {
        Line::Unused => (0, 0, 0),
        Line::Normal { at, len } => (at, 1, len),
        Line::Redirect(to) => (to, 2, 0),
        Line::Dead { at, len } => (at, 3, len),
    };
    let pointer = Pointer {
        off: off as usize,
        flags,
        len: len as usize,
    };
    put_pointer(page, k, pointer);
}

/// Why a line can't be set at this place, if it can't.
pub fn set_refusal(page: &[u8], place: u16, line: Line) -> Option<PageRefusal>
    requires { length page.now ≡ 8192 }
    ensures value { result ≡ set_refusal page.now place line }
    ensures there { result ≡ None → 0 < place × (24 + 4 * place ≤ 8192) }
    ensures fits { result ≡ None → IsTrue (fits_line line) }
{
    if !well_formed(page) {
        return Some(PageRefusal::BadPage);
    }
    if 0 < place && place as usize <= line_count(page) && fits_line(line) {
        None
    } else {
        Some(PageRefusal::BadPlace)
    }
}
