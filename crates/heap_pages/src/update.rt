ghost use Rattle.std.specs.Prelude.{ℕ, ◌≡◌, ◌<◌, ◌≤◌, length, Some, IsTrue};
ghost use Rattle.page_layout.specs.Page.{IsFormed};
ghost use Rattle.block_layouts.specs.Tuple.{tuple_seen};
ghost use Rattle.block_layouts.specs.Update.{update_seen};
ghost use Rattle.redo_steps.specs.Redo.{Makes};
ghost use Rattle.heap_tuples.specs.Heap.{has_tuple, with_tuple};
ghost use Rattle.heap_tuples.specs.Put.{put_refusal};
ghost use Rattle.heap_pages.specs.Update.{with_kind, updated_tuple, updated_page, update_old_page, new_cleared, update_new_page, update_page};

use crate::new_body::{Body, body_at};
use crate::new_tuple::{NewTuple, put_new_tuple};
use block_layouts::{HeapTuple, OldParts, UpdateTuple};
use heap_tuples::flags::has_bit;
use heap_tuples::heap::{has_tuple, put_visible_cleared, tuple_span};
use heap_tuples::put::is_open;
use page_layout::RedoWhy;
use record_layouts::HeapUpdate;
use redo_steps::head::{clear_all_visible, put_prunable};
use redo_steps::tuple::{
    put_ctid, put_first_cid, put_hot_off, put_hot_on, put_told_bits, put_xmax,
};

/// `XLH_UPDATE_NEW_ALL_VISIBLE_CLEARED`.
const NEW_ALL_VISIBLE_CLEARED: u8 = 2;

/// Which of the two operations updates.
#[derive(Clone, Copy, Debug, PartialEq, Eq)]
pub enum UpdateKind {
    /// UPDATE.
    Plain,
    /// HOT_UPDATE: no index sees the new version.
    Hot,
}

fn put_kind(tuple: &mut [u8], kind: UpdateKind)
    requires { 23 ≤ length tuple.old }
    ensures { tuple.new ≡ with_kind kind tuple.old }
{
    match kind {
        UpdateKind::Plain => put_hot_off(tuple),
        UpdateKind::Hot => put_hot_on(tuple),
    }
}

fn change_tuple(tuple: &mut [u8], kind: UpdateKind, block: u32, op: &HeapUpdate)
    requires { 23 ≤ length tuple.old }
    ensures value { tuple.new ≡ updated_tuple kind block op.now tuple.old }
    ensures size { length tuple.new ≡ length tuple.old }
{
    put_told_bits(tuple, op.old_infobits);
    put_kind(tuple, kind);
    put_xmax(tuple, op.old_xmax);
    put_first_cid(tuple);
    put_ctid(tuple, block, op.new_off);
}

fn update_on_page(page: &mut [u8], kind: UpdateKind, block: u32, op: &HeapUpdate)
    requires formed { IsFormed page.old }
    requires tuple { IsTrue (has_tuple page.old op.now.old_off) }
    ensures value { page.new ≡ with_tuple op.now.old_off (updated_tuple kind block op.now) page.old }
    ensures formed { IsFormed page.new }
{
    let at = tuple_span(page, op.old_off);
    change_tuple(&mut page[at.start..at.end], kind, block, op);
}

// The old tuple and its page's header.
#[tactic(auto, using(heap_tuples::proofs::TupleLaws::header_formed))]
fn put_updated(page: &mut [u8], xid: u32, kind: UpdateKind, block: u32, op: &HeapUpdate)
    requires formed { IsFormed page.old }
    requires tuple { IsTrue (has_tuple page.old op.now.old_off) }
    ensures value { page.new ≡ updated_page xid kind block op.now page.old }
    ensures formed { IsFormed page.new }
{
    update_on_page(page, kind, block, op);
    put_prunable(page, xid);
    put_visible_cleared(page, op.flags);
}

/// Redoes UPDATE and HOT_UPDATE on the old tuple's page, where the new tuple comes to a page of its
/// own, of block `block`. Answers `Place` where the place has no tuple; what is then left is open.
pub fn redo_update_old(
    page: &mut [u8],
    xid: u32,
    kind: UpdateKind,
    block: u32,
    op: &HeapUpdate,
) -> Result<(), RedoWhy>
    requires { IsFormed page.old }
    ensures exact { Makes (update_old_page xid kind block op.now page.old) result page.new }
{
    if !has_tuple(page, op.old_off) {
        return Err(RedoWhy::Place);
    }
    put_updated(page, xid, kind, block, op);
    Ok(())
}

// Takes off the flag "all visible" where the record's flags say so of the new page.
fn put_new_cleared(page: &mut [u8], flags: u8)
    requires { length page.old ≡ 8192 }
    ensures { page.new ≡ new_cleared flags page.old }
{
    if has_bit(flags, NEW_ALL_VISIBLE_CLEARED) {
        clear_all_visible(page);
    }
}

/// Redoes UPDATE and HOT_UPDATE on the new tuple's page, of block `block`. Answers `Place` where the
/// place is 0, above 291 or in use, then `Room`; what a refused call leaves is open.
pub fn redo_update_new(
    page: &mut [u8],
    xid: u32,
    block: u32,
    op: &HeapUpdate,
    tuple: HeapTuple<'_>,
) -> Result<(), RedoWhy>
    requires { IsFormed page.old }
    ensures exact { Makes (update_new_page xid block op.now (tuple_seen tuple.entry) page.old) result page.new }
{
    let from = NewTuple {
        xmin: xid,
        xmax: op.new_xmax,
        block,
        place: op.new_off,
    };
    put_new_tuple(page, from, tuple)?;
    put_new_cleared(page, op.flags);
    Ok(())
}

// Why a tuple of more than a page can't come to a place.
#[tactic(auto, using(heap_tuples::proofs::PutLemmas::too_long))]
fn long_refusal(page: &[u8], place: u16) -> RedoWhy
    requires { IsFormed page.now }
    ensures { (len : ℕ) → 8192 < len → put_refusal page.now place len ≡ Some result }
{
    if is_open(page, place) {
        RedoWhy::Room
    } else {
        RedoWhy::Place
    }
}

/// Redoes UPDATE and HOT_UPDATE on the one page of both tuples, of block `block`. Answers `Place`
/// where the old place has no tuple, the parts that the new tuple has of it don't lie apart behind
/// its header, or the new place is 0, above 291 or in use, then `Room`; what a refused call leaves
/// is open.
pub fn redo_update(
    page: &mut [u8],
    xid: u32,
    block: u32,
    kind: UpdateKind,
    op: &HeapUpdate,
    parts: OldParts,
    tuple: UpdateTuple<'_>,
) -> Result<(), RedoWhy>
    requires { IsFormed page.old }
    ensures exact { Makes (update_page xid block kind op.now parts (update_seen tuple.entry) page.old) result page.new }
{
    if !has_tuple(page, op.old_off) {
        return Err(RedoWhy::Place);
    }
    let mut room = [0u8; 8192];
    match body_at(&mut room, page, op.old_off, parts, &tuple) {
        Body::Misfit => Err(RedoWhy::Place),
        Body::TooLong => {
            put_updated(page, xid, kind, block, op);
            Err(long_refusal(page, op.new_off))
        }
        Body::Built(size) => {
            put_updated(page, xid, kind, block, op);
            let version = HeapTuple {
                header: tuple.header,
                bytes: &room[..size],
            };
            redo_update_new(page, xid, block, op, version)
        }
    }
}
