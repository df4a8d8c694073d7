//! Redo of a heap record on one page.

ghost use Rattle.std.specs.Prelude.{ℕ, ◌≡◌, length};
ghost use Rattle.block_refs.specs.Parts.{ArePartsOf};
ghost use Rattle.page_masks.specs.Law.{stamped};
ghost use Rattle.redo_steps.specs.Redo.{Makes, Redoes};
ghost use Rattle.heap_replay.specs.Operation.{heap_change, heap2_change, changed_by, heap_operation};

use crate::added::{insert, multi_insert, update};
use crate::lines::{freeze, prune, vacuum, visible};
use crate::operation::acts_on;
use crate::tuples::{confirm, delete, inplace, lock, lock_updated};
use block_refs::Parts;
use heap_pages::UpdateKind;
use page_layout::lsn::put_lsn;
use page_layout::{Page, RedoWhy};
use record_layouts::{Heap2Op, HeapOp, Operation};
use wal_records::Record;

// The manager Heap.
fn heap_change(
    op: HeapOp,
    rec: &Record,
    parts: &Parts,
    id: u8,
    page: &mut [u8],
) -> Result<(), RedoWhy>
    requires parts { ArePartsOf rec.now parts.now }
    requires size { length page.old ≡ 8192 }
    ensures { Makes (heap_change op rec.now parts.now id page.old) result page.new }
{
    match op {
        HeapOp::Insert { init } => insert(rec, parts, id, init, page),
        HeapOp::Delete => delete(rec, parts, id, page),
        HeapOp::Update { init } => update(rec, parts, id, init, UpdateKind::Plain, page),
        HeapOp::Truncate => Ok(()),
        HeapOp::HotUpdate { init } => update(rec, parts, id, init, UpdateKind::Hot, page),
        HeapOp::HeapConfirm => confirm(rec, parts, id, page),
        HeapOp::Lock => lock(rec, parts, id, page),
        HeapOp::Inplace => inplace(rec, parts, id, page),
    }
}

// The manager Heap2.
fn heap2_change(
    op: Heap2Op,
    rec: &Record,
    parts: &Parts,
    id: u8,
    page: &mut [u8],
) -> Result<(), RedoWhy>
    requires parts { ArePartsOf rec.now parts.now }
    requires size { length page.old ≡ 8192 }
    ensures { Makes (heap2_change op rec.now parts.now id page.old) result page.new }
{
    match op {
        Heap2Op::Rewrite | Heap2Op::NewCid => Ok(()),
        Heap2Op::Prune => prune(rec, parts, id, page),
        Heap2Op::Vacuum => vacuum(rec, parts, id, page),
        Heap2Op::FreezePage => freeze(rec, parts, id, page),
        Heap2Op::Visible => visible(rec, parts, page),
        Heap2Op::MultiInsert { init } => multi_insert(rec, parts, id, init, page),
        Heap2Op::LockUpdated => lock_updated(rec, parts, page),
    }
}

// Any manager.
fn change(
    op: Operation,
    rec: &Record,
    parts: &Parts,
    id: u8,
    page: &mut [u8],
) -> Result<(), RedoWhy>
    requires parts { ArePartsOf rec.now parts.now }
    requires size { length page.old ≡ 8192 }
    ensures { Makes (changed_by op rec.now parts.now id page.old) result page.new }
{
    match op {
        Operation::Heap(op) => heap_change(op, rec, parts, id, page),
        Operation::Heap2(op) => heap2_change(op, rec, parts, id, page),
        _ => Ok(()),
    }
}

// All but the LSN.
fn change_page(rec: &Record, parts: &Parts, id: u8, page: &mut [u8]) -> Result<(), RedoWhy>
    requires parts { ArePartsOf rec.now parts.now }
    requires size { length page.old ≡ 8192 }
    ensures { Makes (heap_operation rec.now parts.now id page.old) result page.new }
{
    let header = rec.header();
    let op = Operation::of(header.manager, header.info);
    if !acts_on(op, id) {
        return Ok(());
    }
    change(op, rec, parts, id, page)
}

/// Redoes a record of the managers Heap and Heap2 on the main fork's page of its block with this
/// id, which then has the record's end as LSN; of a page that the record doesn't change that is
/// all. The parts have to be those of the record. Answers `Layout` where the record's bytes don't
/// hold what the operation needs, or contradict it; then `PageShape` where the page is no heap
/// page; then `Place` where a line that the record names isn't as the operation needs it; then
/// `Room`. A refused call leaves the page as it was, and no call takes memory.
#[tactic(auto, using(page_layout::proofs::Lent::over_same))]
pub fn redo_heap(rec: &Record, parts: &Parts, id: u8, page: &mut Page) -> Result<(), RedoWhy>
    requires parts { ArePartsOf rec.now parts.now }
    ensures exact { Redoes (stamped rec.now.end (heap_operation rec.now parts.now id) page.old)
        page.old result page.new }
{
    let mut room = [0u8; 8192];
    room.copy_from_slice(page.bytes());
    change_page(rec, parts, id, &mut room)?;
    put_lsn(&mut room, rec.end().0);
    page.bytes_mut().copy_from_slice(&room);
    Ok(())
}
