ghost use Rattle.std.specs.Prelude.{ℕ, ◌≡◌, ◌≤◌, length, IsTrue};
ghost use Rattle.page_layout.specs.Page.{IsFormed};
ghost use Rattle.redo_steps.specs.Redo.{Redoes};
ghost use Rattle.redo_steps.specs.Tuple.{with_ctid};
ghost use Rattle.heap_tuples.specs.Heap.{has_tuple, with_tuple};
ghost use Rattle.heap_tuples.specs.Confirm.{confirm_page};

use crate::heap::{has_tuple, tuple_span};
use page_layout::RedoWhy;
use record_layouts::HeapConfirm;
use redo_steps::tuple::put_ctid;

fn confirm_tuple(tuple: &mut [u8], block: u32, op: &HeapConfirm)
    requires { 23 ≤ length tuple.old }
    ensures value { tuple.new ≡ with_ctid block op.now.off tuple.old }
    ensures size { length tuple.new ≡ length tuple.old }
{
    put_ctid(tuple, block, op.off);
}

fn confirm_on_page(page: &mut [u8], block: u32, op: &HeapConfirm)
    requires formed { IsFormed page.old }
    requires tuple { IsTrue (has_tuple page.old op.now.off) }
    ensures { page.new ≡ with_tuple op.now.off (with_ctid block op.now.off) page.old }
{
    let at = tuple_span(page, op.off);
    confirm_tuple(&mut page[at.start..at.end], block, op);
}

/// Redoes HEAP_CONFIRM on a heap page of block `block`. Answers `Place` where the place has no
/// tuple.
pub fn redo_confirm(page: &mut [u8], block: u32, op: &HeapConfirm) -> Result<(), RedoWhy>
    requires { IsFormed page.old }
    ensures exact { Redoes (confirm_page block op.now page.old) page.old result page.new }
{
    if !has_tuple(page, op.off) {
        return Err(RedoWhy::Place);
    }
    confirm_on_page(page, block, op);
    Ok(())
}
