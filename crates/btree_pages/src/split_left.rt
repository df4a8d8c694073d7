ghost use Rattle.std.specs.Prelude.{ℕ, ◌≡◌, ◌+◌, ◌≤◌, ◌<◌, length, Some};
ghost use Rattle.std.specs.Option.{option_copied};
ghost use Rattle.page_layout.specs.Page.{IsFormed, count};
ghost use Rattle.page_laws.specs.Btree.{made_anew, with_special};
ghost use Rattle.block_layouts.specs.Split.{split_seen};
ghost use Rattle.redo_steps.specs.Redo.{Makes};
ghost use Rattle.btree_pages.specs.Items.{with_items};
ghost use Rattle.btree_pages.specs.Split.{first_data, stay_end, new_place, left_tuples, left_special, split_left_page};

use crate::items::{put_last, put_lines_of};
use crate::special::{SPECIAL_SIZE, leaf_flag};
use block_layouts::SplitTuples;
use page_layout::RedoWhy;
use page_layout::bytes::{put, put_u16, u16_at};
use page_layout::init::put_init;
use page_layout::shape::line_count;
use record_layouts::BtreeSplit;
use redo_steps::tuple::put_u32;

/// `BTP_INCOMPLETE_SPLIT`.
const INCOMPLETE_SPLIT: u16 = 0x80;

/// The place of the first tuple: behind the high key, where there is one.
pub fn first_data(page: &[u8]) -> usize
    requires { length page.now ≡ 8192 }
    ensures value { result ≡ first_data page.now }
    ensures above { 0 < result }
{
    let next = u16_at(page, 8180) + 65536 * u16_at(page, 8182);
    if next == 0 { 1 } else { 2 }
}

// The place behind the lines that stay.
fn stay_end(page: &[u8], op: &BtreeSplit) -> usize
    requires { IsFormed page.now }
    ensures value { result ≡ stay_end op.now page.now }
    ensures there { result ≤ count page.now + 1 }
{
    let first_right = op.first_right as usize;
    let behind = line_count(page) + 1;
    if first_right <= behind {
        first_right
    } else {
        behind
    }
}

// The place before which the new tuple comes.
fn new_place(page: &[u8], op: &BtreeSplit) -> usize
    requires { IsFormed page.now }
    ensures value { result ≡ new_place op.now page.now }
    ensures there { result ≤ stay_end op.now page.now }
    ensures above { result < stay_end op.now page.now → 0 < result }
{
    let at = op.new_item as usize;
    let end = stay_end(page, op);
    if first_data(page) <= at && at < end {
        at
    } else {
        end
    }
}

// What changes in the special space.
fn put_left_special(special: &mut [u8], right: u32, op: &BtreeSplit)
    requires { length special.old ≡ 16 }
    ensures value { special.new ≡ left_special right op.now special.old }
    ensures size { length special.new ≡ 16 }
{
    put_u32(special, 4, right);
    let flags = INCOMPLETE_SPLIT + leaf_flag(op.level);
    put_u16(special, 12, flags as usize);
    put_u16(special, 14, 0);
}

/// Makes of `room` the page made anew, with its special space alone.
#[tactic(auto, unfolding(page_layout::specs::Bytes::cut))]
pub fn begin_anew(room: &mut [u8], page: &[u8])
    requires room { length room.old ≡ 8192 }
    requires page { IsFormed page.now }
    ensures value { room.new ≡ made_anew page.now }
    ensures formed { IsFormed room.new }
{
    put_init(room, SPECIAL_SIZE);
    put(room, 8176, &page[8176..8192]);
}

// The same, with what changes in the special space.
fn begin_left(room: &mut [u8], page: &[u8], right: u32, op: &BtreeSplit)
    requires room { length room.old ≡ 8192 }
    requires page { IsFormed page.now }
    ensures value { room.new ≡ with_special (left_special right op.now) (made_anew page.now) }
    ensures formed { IsFormed room.new }
{
    begin_anew(room, page);
    put_left_special(&mut room[8176..8192], right, op);
}

// The tuples that stay and the new one.
#[tactic(auto, using(crate::proofs::SplitLemmas::before_refused, crate::proofs::SplitLemmas::new_refused, crate::proofs::SplitLemmas::both_added))]
fn put_with_new(room: &mut [u8], page: &[u8], op: &BtreeSplit, new: &[u8]) -> Result<(), RedoWhy>
    requires room { IsFormed room.old }
    requires page { IsFormed page.now }
    ensures { Makes (with_items (left_tuples op.now (Some new.now) page.now) room.old)
        result room.new }
{
    let at = new_place(page, op);
    put_lines_of(room, page, first_data(page), at)?;
    put_last(room, new)?;
    put_lines_of(room, page, at, stay_end(page, op))
}

// The tuples of the left page.
fn put_left_tuples(
    room: &mut [u8],
    page: &[u8],
    op: &BtreeSplit,
    new: Option<&[u8]>,
) -> Result<(), RedoWhy>
    requires room { IsFormed room.old }
    requires page { IsFormed page.now }
    ensures { Makes (with_items (left_tuples op.now (option_copied new.entry) page.now) room.old)
        result room.new }
{
    match new {
        Some(tuple) => put_with_new(room, page, op, tuple),
        None => put_lines_of(room, page, first_data(page), stay_end(page, op)),
    }
}

/// Redoes a split on the page that is split, whose new right page is block `right`. Answers `Room`.
pub fn redo_split_left(
    page: &mut [u8],
    right: u32,
    op: &BtreeSplit,
    tuples: SplitTuples<'_>,
) -> Result<(), RedoWhy>
    requires { IsFormed page.old }
    ensures exact { Makes (split_left_page right op.now (split_seen tuples.entry) page.old)
        result page.new }
{
    let mut room = [0u8; 8192];
    begin_left(&mut room, page, right, op);
    put_last(&mut room, tuples.high_key)?;
    put_left_tuples(&mut room, page, op, tuples.new_tuple)?;
    page.copy_from_slice(&room);
    Ok(())
}
