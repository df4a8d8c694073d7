//! What each operation does, by the record's bytes.

ghost use Rattle.std.specs.Prelude.{ℕ, ◌≡◌, length};
ghost use Rattle.block_refs.specs.Parts.{ArePartsOf};
ghost use Rattle.redo_steps.specs.Redo.{Makes};
ghost use Rattle.btree_posting.specs.Posting.{dedup_operation, insert_post_operation, split_posting_operation, updates_operation, delete_updates_operation, vacuum_updates_operation};

use crate::dedup::redo_dedup;
use crate::insert::redo_insert_post;
use crate::split::redo_split_posting;
use crate::updates::redo_updates;
use block_layouts::{dedup_intervals, posting_insert, posting_updates, split_tuples};
use block_refs::Parts;
use btree_pages::require_btree;
use page_layout::RedoWhy;
use record_layouts::{BtreeDedup, BtreeDelete, BtreeInsert, BtreeSplit, BtreeVacuum};
use redo_reads::{bytes_for, number_at};
use wal_records::Record;

/// DEDUP.
pub fn dedup(rec: &Record, parts: &Parts, page: &mut [u8]) -> Result<(), RedoWhy>
    requires parts { ArePartsOf rec.now parts.now }
    requires size { length page.old ≡ 8192 }
    ensures { Makes (dedup_operation rec.now parts.now page.old) result page.new }
{
    let Some(op) = BtreeDedup::read(parts.main_bytes(rec)) else {
        return Err(RedoWhy::Layout);
    };
    let bytes = bytes_for(rec, parts, 0)?;
    let Some(intervals) = dedup_intervals(bytes, op.nintervals) else {
        return Err(RedoWhy::Layout);
    };
    require_btree(page)?;
    redo_dedup(page, intervals)
}

/// INSERT_POST.
pub fn insert_post(rec: &Record, parts: &Parts, page: &mut [u8]) -> Result<(), RedoWhy>
    requires parts { ArePartsOf rec.now parts.now }
    requires size { length page.old ≡ 8192 }
    ensures { Makes (insert_post_operation rec.now parts.now page.old) result page.new }
{
    let Some(op) = BtreeInsert::read(parts.main_bytes(rec)) else {
        return Err(RedoWhy::Layout);
    };
    let bytes = bytes_for(rec, parts, 0)?;
    let Some(post) = posting_insert(bytes) else {
        return Err(RedoWhy::Layout);
    };
    require_btree(page)?;
    redo_insert_post(page, &op, post)
}

/// SPLIT_L and SPLIT_R that split a posting list, too; `on_left` as SPLIT_L says.
pub fn split_posting(
    rec: &Record,
    parts: &Parts,
    on_left: bool,
    page: &mut [u8],
) -> Result<(), RedoWhy>
    requires parts { ArePartsOf rec.now parts.now }
    requires size { length page.old ≡ 8192 }
    ensures { Makes (split_posting_operation on_left rec.now parts.now page.old) result page.new }
{
    let Some(op) = BtreeSplit::read(parts.main_bytes(rec)) else {
        return Err(RedoWhy::Layout);
    };
    let bytes = bytes_for(rec, parts, 0)?;
    let Some(tuples) = split_tuples(bytes, true) else {
        return Err(RedoWhy::Layout);
    };
    let right = number_at(parts, 1)?;
    require_btree(page)?;
    redo_split_posting(page, right, on_left, &op, tuples)
}

// So many tuples that go, and so many lists that become shorter.
fn updates(
    rec: &Record,
    parts: &Parts,
    ndeleted: u16,
    nupdated: u16,
    page: &mut [u8],
) -> Result<(), RedoWhy>
    requires parts { ArePartsOf rec.now parts.now }
    requires size { length page.old ≡ 8192 }
    ensures { Makes (updates_operation ndeleted nupdated rec.now parts.now page.old) result page.new }
{
    let bytes = bytes_for(rec, parts, 0)?;
    let Some(updates) = posting_updates(bytes, ndeleted, nupdated) else {
        return Err(RedoWhy::Layout);
    };
    require_btree(page)?;
    redo_updates(page, updates)
}

/// DELETE that makes posting lists shorter.
pub fn delete_updates(rec: &Record, parts: &Parts, page: &mut [u8]) -> Result<(), RedoWhy>
    requires parts { ArePartsOf rec.now parts.now }
    requires size { length page.old ≡ 8192 }
    ensures { Makes (delete_updates_operation rec.now parts.now page.old) result page.new }
{
    let Some(op) = BtreeDelete::read(parts.main_bytes(rec)) else {
        return Err(RedoWhy::Layout);
    };
    updates(rec, parts, op.ndeleted, op.nupdated, page)
}

/// VACUUM that makes posting lists shorter.
pub fn vacuum_updates(rec: &Record, parts: &Parts, page: &mut [u8]) -> Result<(), RedoWhy>
    requires parts { ArePartsOf rec.now parts.now }
    requires size { length page.old ≡ 8192 }
    ensures { Makes (vacuum_updates_operation rec.now parts.now page.old) result page.new }
{
    let Some(op) = BtreeVacuum::read(parts.main_bytes(rec)) else {
        return Err(RedoWhy::Layout);
    };
    updates(rec, parts, op.ndeleted, op.nupdated, page)
}
