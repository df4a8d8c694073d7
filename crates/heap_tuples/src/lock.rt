ghost use Rattle.std.specs.Prelude.{ℕ, ◌≡◌, ◌≤◌, length, IsTrue};
ghost use Rattle.page_layout.specs.Page.{IsFormed};
ghost use Rattle.redo_steps.specs.Bits.{locks_only};
ghost use Rattle.redo_steps.specs.Redo.{Redoes};
ghost use Rattle.heap_tuples.specs.Heap.{has_tuple, with_tuple};
ghost use Rattle.heap_tuples.specs.Lock.{unlinked, locked_tuple, locked_version, lock_page, lock_updated_page};

use crate::flags::{XMAX_EXCL_LOCK, XMAX_IS_MULTI, XMAX_KEYSHR_LOCK, XMAX_LOCK_ONLY, has_bit};
use crate::heap::{has_tuple, tuple_span};
use page_layout::RedoWhy;
use record_layouts::HeapLock;
use redo_steps::tuple::{put_ctid, put_first_cid, put_hot_off, put_told_bits, put_xmax};

// Whether the record says that the tuple is only locked.
fn locks_only(infobits: u8) -> bool
    ensures { result ≡ locks_only infobits }
{
    has_bit(infobits, XMAX_LOCK_ONLY)
        || (has_bit(infobits, XMAX_EXCL_LOCK)
            && infobits / XMAX_IS_MULTI % 2 == 0
            && infobits / XMAX_KEYSHR_LOCK % 2 == 0)
}

// A tuple that is only locked has no later version.
fn put_unlinked(tuple: &mut [u8], block: u32, op: &HeapLock)
    requires { 23 ≤ length tuple.old }
    ensures { tuple.new ≡ unlinked block op.now tuple.old }
{
    if locks_only(op.infobits) {
        put_hot_off(tuple);
        put_ctid(tuple, block, op.off);
    }
}

fn lock_tuple(tuple: &mut [u8], block: u32, op: &HeapLock)
    requires { 23 ≤ length tuple.old }
    ensures value { tuple.new ≡ locked_tuple block op.now tuple.old }
    ensures size { length tuple.new ≡ length tuple.old }
{
    put_told_bits(tuple, op.infobits);
    put_unlinked(tuple, block, op);
    put_xmax(tuple, op.xmax);
    put_first_cid(tuple);
}

fn lock_version(tuple: &mut [u8], op: &HeapLock)
    requires { 23 ≤ length tuple.old }
    ensures value { tuple.new ≡ locked_version op.now tuple.old }
    ensures size { length tuple.new ≡ length tuple.old }
{
    put_told_bits(tuple, op.infobits);
    put_xmax(tuple, op.xmax);
}

fn lock_on_page(page: &mut [u8], block: u32, op: &HeapLock)
    requires formed { IsFormed page.old }
    requires tuple { IsTrue (has_tuple page.old op.now.off) }
    ensures { page.new ≡ with_tuple op.now.off (locked_tuple block op.now) page.old }
{
    let at = tuple_span(page, op.off);
    lock_tuple(&mut page[at.start..at.end], block, op);
}

fn lock_version_on_page(page: &mut [u8], op: &HeapLock)
    requires formed { IsFormed page.old }
    requires tuple { IsTrue (has_tuple page.old op.now.off) }
    ensures { page.new ≡ with_tuple op.now.off (locked_version op.now) page.old }
{
    let at = tuple_span(page, op.off);
    lock_version(&mut page[at.start..at.end], op);
}

/// Redoes LOCK on a heap page of block `block`. Answers `Place` where the place has no tuple.
pub fn redo_lock(page: &mut [u8], block: u32, op: &HeapLock) -> Result<(), RedoWhy>
    requires { IsFormed page.old }
    ensures exact { Redoes (lock_page block op.now page.old) page.old result page.new }
{
    if !has_tuple(page, op.off) {
        return Err(RedoWhy::Place);
    }
    lock_on_page(page, block, op);
    Ok(())
}

/// Redoes LOCK_UPDATED on a heap page. Answers `Place` where the place has no tuple.
pub fn redo_lock_updated(page: &mut [u8], op: &HeapLock) -> Result<(), RedoWhy>
    requires { IsFormed page.old }
    ensures exact { Redoes (lock_updated_page op.now page.old) page.old result page.new }
{
    if !has_tuple(page, op.off) {
        return Err(RedoWhy::Place);
    }
    lock_version_on_page(page, op);
    Ok(())
}
