//! The parts of a page's header that redo changes.

ghost use Rattle.std.specs.Prelude.{ℕ, ◌≡◌, length};
ghost use Rattle.redo_steps.specs.Head.{prunable, without_all_visible, with_all_visible, follows};

use crate::tuple::put_u32;
use page_layout::bytes::u16_at;

/// Whether a transaction id follows another one, modulo 2^32.
fn follows(xid: u32, other: u32) -> bool
    ensures { result ≡ follows xid other }
{
    let ahead = (xid as u64 + 0x1_0000_0000 - other as u64) % 0x1_0000_0000;
    0 < ahead && ahead < 0x8000_0000
}

/// Writes the transaction as the page's prune xid, where there is none or a later one.
pub fn put_prunable(page: &mut [u8], xid: u32)
    requires { length page.old ≡ 8192 }
    ensures { page.new ≡ prunable xid page.old }
{
    let prune_xid = (u16_at(page, 20) + 65536 * u16_at(page, 22)) as u32;
    if prune_xid == 0 || follows(prune_xid, xid) {
        put_u32(page, 20, xid);
    }
}

/// Takes off the flag that says that all tuples are visible to all.
pub fn clear_all_visible(page: &mut [u8])
    requires { length page.old ≡ 8192 }
    ensures { page.new ≡ without_all_visible page.old }
{
    let flags = page[10];
    page[10] = flags / 8 * 8 + flags % 4;
}

/// Sets the flag that says that all tuples are visible to all.
pub fn set_all_visible(page: &mut [u8])
    requires { length page.old ≡ 8192 }
    ensures { page.new ≡ with_all_visible page.old }
{
    let flags = page[10];
    page[10] = flags / 8 * 8 + 4 + flags % 4;
}
