//! Records that change one tuple.

ghost use Rattle.std.specs.Prelude.{ℕ, ◌≡◌, length};
ghost use Rattle.block_refs.specs.Parts.{ArePartsOf};
ghost use Rattle.redo_steps.specs.Redo.{Makes};
ghost use Rattle.heap_replay.specs.Tuples.{delete_operation, confirm_operation, lock_operation, lock_updated_operation, inplace_operation};

use block_refs::Parts;
use heap_tuples::{
    redo_confirm, redo_delete, redo_inplace, redo_lock, redo_lock_updated, trim_heap,
};
use page_layout::RedoWhy;
use record_layouts::{HeapConfirm, HeapDelete, HeapInplace, HeapLock};
use redo_reads::{bytes_for, number_at};
use wal_records::Record;

/// DELETE.
pub fn delete(rec: &Record, parts: &Parts, id: u8, page: &mut [u8]) -> Result<(), RedoWhy>
    requires parts { ArePartsOf rec.now parts.now }
    requires size { length page.old ≡ 8192 }
    ensures { Makes (delete_operation rec.now parts.now id page.old) result page.new }
{
    let Some(op) = HeapDelete::read(parts.main_bytes(rec)) else {
        return Err(RedoWhy::Layout);
    };
    let block = number_at(parts, id)?;
    trim_heap(page)?;
    redo_delete(page, rec.header().xid, block, &op)
}

/// HEAP_CONFIRM.
pub fn confirm(rec: &Record, parts: &Parts, id: u8, page: &mut [u8]) -> Result<(), RedoWhy>
    requires parts { ArePartsOf rec.now parts.now }
    requires size { length page.old ≡ 8192 }
    ensures { Makes (confirm_operation rec.now parts.now id page.old) result page.new }
{
    let Some(op) = HeapConfirm::read(parts.main_bytes(rec)) else {
        return Err(RedoWhy::Layout);
    };
    let block = number_at(parts, id)?;
    trim_heap(page)?;
    redo_confirm(page, block, &op)
}

/// LOCK.
pub fn lock(rec: &Record, parts: &Parts, id: u8, page: &mut [u8]) -> Result<(), RedoWhy>
    requires parts { ArePartsOf rec.now parts.now }
    requires size { length page.old ≡ 8192 }
    ensures { Makes (lock_operation rec.now parts.now id page.old) result page.new }
{
    let Some(op) = HeapLock::read(parts.main_bytes(rec)) else {
        return Err(RedoWhy::Layout);
    };
    let block = number_at(parts, id)?;
    trim_heap(page)?;
    redo_lock(page, block, &op)
}

/// LOCK_UPDATED.
pub fn lock_updated(rec: &Record, parts: &Parts, page: &mut [u8]) -> Result<(), RedoWhy>
    requires parts { ArePartsOf rec.now parts.now }
    requires size { length page.old ≡ 8192 }
    ensures { Makes (lock_updated_operation rec.now parts.now page.old) result page.new }
{
    let Some(op) = HeapLock::read(parts.main_bytes(rec)) else {
        return Err(RedoWhy::Layout);
    };
    trim_heap(page)?;
    redo_lock_updated(page, &op)
}

/// INPLACE.
pub fn inplace(rec: &Record, parts: &Parts, id: u8, page: &mut [u8]) -> Result<(), RedoWhy>
    requires parts { ArePartsOf rec.now parts.now }
    requires size { length page.old ≡ 8192 }
    ensures { Makes (inplace_operation rec.now parts.now id page.old) result page.new }
{
    let Some(op) = HeapInplace::read(parts.main_bytes(rec)) else {
        return Err(RedoWhy::Layout);
    };
    let values = bytes_for(rec, parts, id)?;
    trim_heap(page)?;
    redo_inplace(page, &op, values)
}
