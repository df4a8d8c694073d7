//! Redo of a B-tree record on one page.

ghost use Rattle.std.specs.Prelude.{ℕ, ◌≡◌, length};
ghost use Rattle.block_refs.specs.Parts.{ArePartsOf};
ghost use Rattle.page_masks.specs.Law.{stamped};
ghost use Rattle.redo_steps.specs.Redo.{Makes, Redoes};
ghost use Rattle.btree_replay.specs.Operation.{btree_change, changed_by, plain_operation, btree_operation};

use crate::delete::{delete, vacuum};
use crate::insert::insert;
use crate::meta::meta;
use crate::new_root::new_root;
use crate::operation::acts;
use crate::split::split;
use block_refs::Parts;
use btree_posting::{is_posting, redo_posting};
use page_layout::lsn::put_lsn;
use page_layout::{Page, RedoWhy};
use record_layouts::{BtreeOp, Operation};
use wal_records::Record;

// The manager Btree.
fn btree_change(
    op: BtreeOp,
    rec: &Record,
    parts: &Parts,
    id: u8,
    page: &mut [u8],
) -> Result<(), RedoWhy>
    requires parts { ArePartsOf rec.now parts.now }
    requires size { length page.old ≡ 8192 }
    ensures { Makes (btree_change op rec.now parts.now id page.old) result page.new }
{
    match op {
        BtreeOp::InsertLeaf | BtreeOp::InsertUpper | BtreeOp::InsertMeta => {
            insert(rec, parts, id, page)
        }
        BtreeOp::SplitLeft => split(rec, parts, id, true, page),
        BtreeOp::SplitRight => split(rec, parts, id, false, page),
        BtreeOp::InsertPost | BtreeOp::Dedup => Err(RedoWhy::Layout),
        BtreeOp::Delete => delete(rec, parts, page),
        BtreeOp::Vacuum => vacuum(rec, parts, page),
        BtreeOp::NewRoot => new_root(rec, parts, id, page),
        BtreeOp::MetaCleanup => meta(rec, parts, id, page),
        _ => Ok(()),
    }
}

// Any manager.
fn change(
    op: Operation,
    rec: &Record,
    parts: &Parts,
    id: u8,
    page: &mut [u8],
) -> Result<(), RedoWhy>
    requires parts { ArePartsOf rec.now parts.now }
    requires size { length page.old ≡ 8192 }
    ensures { Makes (changed_by op rec.now parts.now id page.old) result page.new }
{
    match op {
        Operation::Btree(op) => btree_change(op, rec, parts, id, page),
        _ => Ok(()),
    }
}

// All but posting lists and the LSN.
fn change_page(rec: &Record, parts: &Parts, id: u8, page: &mut [u8]) -> Result<(), RedoWhy>
    requires parts { ArePartsOf rec.now parts.now }
    requires size { length page.old ≡ 8192 }
    ensures { Makes (plain_operation rec.now parts.now id page.old) result page.new }
{
    if !acts(rec, parts, id) {
        return Ok(());
    }
    let header = rec.header();
    change(
        Operation::of(header.manager, header.info),
        rec,
        parts,
        id,
        page,
    )
}

/// Redoes a record of the manager Btree on the main fork's page of its block with this id, which
/// then has the record's end as LSN; of a page that the record doesn't change that is all. The parts
/// have to be those of the record. Answers `Layout` where the record's bytes don't hold what the
/// operation needs, or name no block whose number it needs; then `PageShape` where the page is no
/// B-tree page and isn't made anew; then `Place` where the record names a place that isn't there;
/// then `Room`. A refused call leaves the page as it was, and no call takes memory.
#[tactic(auto, using(page_layout::proofs::Lent::over_same))]
pub fn redo_btree(rec: &Record, parts: &Parts, id: u8, page: &mut Page) -> Result<(), RedoWhy>
    requires parts { ArePartsOf rec.now parts.now }
    ensures exact { Redoes (stamped rec.now.end (btree_operation rec.now parts.now id) page.old)
        page.old result page.new }
{
    if is_posting(rec, parts, id) {
        return redo_posting(rec, parts, id, page);
    }
    let mut room = [0u8; 8192];
    room.copy_from_slice(page.bytes());
    change_page(rec, parts, id, &mut room)?;
    put_lsn(&mut room, rec.end().0);
    page.bytes_mut().copy_from_slice(&room);
    Ok(())
}
