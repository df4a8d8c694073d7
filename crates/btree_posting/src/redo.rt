//! Redo of a record that has to do with posting lists on one page.

ghost use Rattle.std.specs.Prelude.{ℕ, ◌≡◌, length};
ghost use Rattle.block_refs.specs.Parts.{ArePartsOf};
ghost use Rattle.page_masks.specs.Law.{stamped};
ghost use Rattle.redo_steps.specs.Redo.{Makes, Redoes};
ghost use Rattle.btree_posting.specs.Posting.{posting_change, posting_changed_by, posting_operation};

use crate::operation::is_posting;
use crate::records::{dedup, delete_updates, insert_post, split_posting, vacuum_updates};
use block_refs::Parts;
use page_layout::lsn::put_lsn;
use page_layout::{Page, RedoWhy};
use record_layouts::{BtreeOp, Operation};
use wal_records::Record;

// The manager Btree.
fn posting_change(op: BtreeOp, rec: &Record, parts: &Parts, page: &mut [u8]) -> Result<(), RedoWhy>
    requires parts { ArePartsOf rec.now parts.now }
    requires size { length page.old ≡ 8192 }
    ensures { Makes (posting_change op rec.now parts.now page.old) result page.new }
{
    match op {
        BtreeOp::InsertPost => insert_post(rec, parts, page),
        BtreeOp::Dedup => dedup(rec, parts, page),
        BtreeOp::SplitLeft => split_posting(rec, parts, true, page),
        BtreeOp::SplitRight => split_posting(rec, parts, false, page),
        BtreeOp::Delete => delete_updates(rec, parts, page),
        BtreeOp::Vacuum => vacuum_updates(rec, parts, page),
        _ => Ok(()),
    }
}

// Any manager.
fn change(op: Operation, rec: &Record, parts: &Parts, page: &mut [u8]) -> Result<(), RedoWhy>
    requires parts { ArePartsOf rec.now parts.now }
    requires size { length page.old ≡ 8192 }
    ensures { Makes (posting_changed_by op rec.now parts.now page.old) result page.new }
{
    match op {
        Operation::Btree(op) => posting_change(op, rec, parts, page),
        _ => Ok(()),
    }
}

// All but the LSN.
fn change_page(rec: &Record, parts: &Parts, id: u8, page: &mut [u8]) -> Result<(), RedoWhy>
    requires parts { ArePartsOf rec.now parts.now }
    requires size { length page.old ≡ 8192 }
    ensures { Makes (posting_operation rec.now parts.now id page.old) result page.new }
{
    if !is_posting(rec, parts, id) {
        return Ok(());
    }
    let header = rec.header();
    change(Operation::of(header.manager, header.info), rec, parts, page)
}

/// Redoes a record that has to do with posting lists on the main fork's page of its block with this
/// id, which then has the record's end as LSN; where `is_posting` says no that is all. The parts have
/// to be those of the record. Answers `Layout` where the record's bytes don't hold what the operation
/// needs, or name no block whose number it needs; then `PageShape` where the page is no B-tree page;
/// then `Place` where a named tuple isn't there or isn't as the operation needs it; then `Room`. A
/// refused call leaves the page as it was, and no call takes memory.
#[tactic(auto, using(page_layout::proofs::Lent::over_same))]
pub fn redo_posting(rec: &Record, parts: &Parts, id: u8, page: &mut Page) -> Result<(), RedoWhy>
    requires parts { ArePartsOf rec.now parts.now }
    ensures exact { Redoes (stamped rec.now.end (posting_operation rec.now parts.now id) page.old)
        page.old result page.new }
{
    let mut room = [0u8; 8192];
    room.copy_from_slice(page.bytes());
    change_page(rec, parts, id, &mut room)?;
    put_lsn(&mut room, rec.end().0);
    page.bytes_mut().copy_from_slice(&room);
    Ok(())
}
