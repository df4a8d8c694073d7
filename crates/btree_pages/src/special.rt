//! The special space of a B-tree page, and pages that change in it alone.

ghost use Rattle.std.specs.Prelude.{ℕ, ◌≡◌, ◌+◌, ◌≤◌, length};
ghost use Rattle.page_layout.specs.Page.{IsFormed};
ghost use Rattle.page_laws.specs.Btree.{with_special};
ghost use Rattle.btree_pages.specs.Special.{with_fields, leaf_flag, empty_page, settled, without_garbage, settled_page, with_prev, neighbour_page};

use page_layout::bytes::{put, put_u16};
use page_layout::init::put_init;
use redo_steps::tuple::put_u32;

/// The bytes of the special space (`BTPageOpaqueData`).
pub const SPECIAL_SIZE: usize = 16;

/// `BTP_LEAF`.
pub const LEAF: u16 = 1;

/// The special space of a page that is made anew, without a cycle id.
#[derive(Clone, Copy)]
pub struct Special {
    /// The block to the left, 0 for none.
    pub prev: u32,
    /// The block to the right, 0 for none.
    pub next: u32,
    /// The level, 0 for a leaf.
    pub level: u32,
    /// `BTP_..`.
    pub flags: u16,
}

/// `BTP_LEAF` of a page of level 0, no flag of another.
pub fn leaf_flag(level: u32) -> u16
    ensures value { result ≡ leaf_flag level }
    ensures small { result ≤ 1 }
{
    if level == 0 { LEAF } else { 0 }
}

// Writes all fields.
fn put_fields(special: &mut [u8], fields: Special)
    requires { length special.old ≡ 16 }
    ensures value { special.new ≡ with_fields fields special.old }
    ensures size { length special.new ≡ 16 }
{
    put_u32(special, 0, fields.prev);
    put_u32(special, 4, fields.next);
    put_u32(special, 8, fields.level);
    put_u16(special, 12, fields.flags as usize);
    put_u16(special, 14, 0);
}

/// Makes an empty page with this special space.
pub fn put_empty(page: &mut [u8], special: Special)
    requires { length page.old ≡ 8192 }
    ensures value { page.new ≡ empty_page special }
    ensures formed { IsFormed page.new }
{
    put_init(page, SPECIAL_SIZE);
    put_fields(&mut page[8176..8192], special);
}

// Takes off the flag of an incomplete split.
fn settle(special: &mut [u8])
    requires { length special.old ≡ 16 }
    ensures value { special.new ≡ settled special.old }
    ensures size { length special.new ≡ 16 }
{
    let flags = special[12];
    put(special, 12, &[flags % 128]);
}

/// Finishes the split of a page below this one.
pub fn redo_settle(page: &mut [u8])
    requires { length page.old ≡ 8192 }
    ensures { page.new ≡ settled_page page.old }
{
    settle(&mut page[8176..8192]);
}

// Takes off the flag of known garbage.
fn clear_garbage(special: &mut [u8])
    requires { length special.old ≡ 16 }
    ensures value { special.new ≡ without_garbage special.old }
    ensures size { length special.new ≡ 16 }
{
    let flags = special[12];
    put(special, 12, &[flags / 128 * 128 + flags % 64]);
}

/// Takes off the page's flag of known garbage.
pub fn put_without_garbage(page: &mut [u8])
    requires { length page.old ≡ 8192 }
    ensures { page.new ≡ with_special without_garbage page.old }
{
    clear_garbage(&mut page[8176..8192]);
}

// Writes the block to the left.
fn put_prev(special: &mut [u8], block: u32)
    requires { length special.old ≡ 16 }
    ensures value { special.new ≡ with_prev block special.old }
    ensures size { length special.new ≡ 16 }
{
    put_u32(special, 0, block);
}

/// Redoes a split on the page to the right of both halves: the new page, of block `right`, is now
/// the one to its left.
pub fn redo_neighbour(page: &mut [u8], right: u32)
    requires { length page.old ≡ 8192 }
    ensures { page.new ≡ neighbour_page right page.old }
{
    put_prev(&mut page[8176..8192], right);
}
