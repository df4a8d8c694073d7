ghost use Rattle.std.specs.Prelude.{ℕ, ◌≡◌, ◌≤◌, length, IsTrue};
ghost use Rattle.page_layout.specs.Page.{IsFormed};
ghost use Rattle.redo_steps.specs.Redo.{Redoes};
ghost use Rattle.heap_tuples.specs.Heap.{has_tuple, with_tuple};
ghost use Rattle.heap_tuples.specs.Delete.{with_deleter, with_last_ctid, deleted_tuple, delete_page};

use crate::flags::{DELETE_IS_PARTITION_MOVE, DELETE_IS_SUPER, has_bit};
use crate::heap::{has_tuple, put_visible_cleared, tuple_span};
use page_layout::RedoWhy;
use record_layouts::HeapDelete;
use redo_steps::head::put_prunable;
use redo_steps::tuple::{
    put_ctid, put_first_cid, put_hot_off, put_moved_ctid, put_told_bits, put_xmax, put_xmin,
};

// The deleter, or no inserter.
fn put_deleter(tuple: &mut [u8], op: &HeapDelete)
    requires { 23 ≤ length tuple.old }
    ensures { tuple.new ≡ with_deleter op.now tuple.old }
{
    if has_bit(op.flags, DELETE_IS_SUPER) {
        put_xmin(tuple, 0);
    } else {
        put_xmax(tuple, op.xmax);
    }
}

// The address of no later version.
fn put_last_ctid(tuple: &mut [u8], block: u32, op: &HeapDelete)
    requires { 23 ≤ length tuple.old }
    ensures { tuple.new ≡ with_last_ctid block op.now tuple.old }
{
    if has_bit(op.flags, DELETE_IS_PARTITION_MOVE) {
        put_moved_ctid(tuple);
    } else {
        put_ctid(tuple, block, op.off);
    }
}

fn delete_tuple(tuple: &mut [u8], block: u32, op: &HeapDelete)
    requires { 23 ≤ length tuple.old }
    ensures value { tuple.new ≡ deleted_tuple block op.now tuple.old }
    ensures size { length tuple.new ≡ length tuple.old }
{
    put_told_bits(tuple, op.infobits);
    put_hot_off(tuple);
    put_first_cid(tuple);
    put_deleter(tuple, op);
    put_last_ctid(tuple, block, op);
}

fn delete_on_page(page: &mut [u8], block: u32, op: &HeapDelete)
    requires formed { IsFormed page.old }
    requires tuple { IsTrue (has_tuple page.old op.now.off) }
    ensures { page.new ≡ with_tuple op.now.off (deleted_tuple block op.now) page.old }
{
    let at = tuple_span(page, op.off);
    delete_tuple(&mut page[at.start..at.end], block, op);
}

/// Redoes DELETE on a heap page of block `block`, for the record's transaction. Answers `Place`
/// where the place has no tuple.
pub fn redo_delete(page: &mut [u8], xid: u32, block: u32, op: &HeapDelete) -> Result<(), RedoWhy>
    requires { IsFormed page.old }
    ensures exact { Redoes (delete_page xid block op.now page.old) page.old result page.new }
{
    if !has_tuple(page, op.off) {
        return Err(RedoWhy::Place);
    }
    delete_on_page(page, block, op);
    put_prunable(page, xid);
    put_visible_cleared(page, op.flags);
    Ok(())
}
