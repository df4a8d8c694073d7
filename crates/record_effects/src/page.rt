//! Redo of a record on the page of a block, by its manager.

ghost use Rattle.block_refs.specs.Parts.{ArePartsOf};
ghost use Rattle.rmgr_hooks.specs.Custom.{handed_in, stated};
ghost use Rattle.page_masks.specs.Law.{stamped};
ghost use Rattle.redo_steps.specs.Redo.{Redoes};
ghost use Rattle.record_effects.specs.Managers.{extension_operation, rules_for, rules_of};

use crate::acts::done_by;
use block_refs::Parts;
use btree_replay::redo_btree;
use heap_replay::redo_heap;
use page_layout::{Page, RedoWhy};
use record_layouts::Operation;
use redo_reads::bytes_for;
use rmgr_hooks::Manager;
use storage_pages::redo_sequence;
use wal_records::Record;

/// Redo by the manager of an operation.
fn redo_by(
    op: Operation,
    rec: &Record,
    parts: &Parts,
    id: u8,
    page: &mut Page,
) -> Result<(), RedoWhy>
    requires parts { ArePartsOf rec.now parts.now }
    ensures { Redoes (stamped rec.now.end ((rules_for op).operation rec.now parts.now id) page.old)
        page.old result page.new }
{
    match op {
        Operation::Xlog(_) => Err(RedoWhy::Layout),
        Operation::Heap(_) | Operation::Heap2(_) => redo_heap(rec, parts, id, page),
        Operation::Btree(_) => redo_btree(rec, parts, id, page),
        Operation::Sequence(_) => redo_sequence(rec, parts, page),
        _ => {
            page.set_lsn(rec.end());
            Ok(())
        }
    }
}

/// Redo by the manager of an extension.
fn redo_by_extension<M: Manager>(
    manager: &M,
    rec: &Record,
    parts: &Parts,
    id: u8,
    page: &mut Page,
) -> Result<(), RedoWhy>
    requires parts { ArePartsOf rec.now parts.now }
    ensures { Redoes (stamped rec.now.end
        (extension_operation (stated M.Manager) rec.now parts.now id) page.old)
        page.old result page.new }
{
    let block = bytes_for(rec, parts, id)?;
    let main = parts.main_bytes(rec);
    manager.redo(rec.header().info, id, main, block, page)?;
    page.set_lsn(rec.end());
    Ok(())
}

/// Redoes a record on the main fork's page of its block with an id, where `act_on` says `Make` or
/// `Change`; the page then has the record's end as LSN. A page that is made anew may be any before.
/// The parts have to be those of the record.
///
/// Answers what the manager's own call answers: `Layout`, `PageShape`, `Place` or `Room`, in this
/// order; of a record of XLOG, which acts by its images alone, `Layout`. A refused call leaves the
/// page as it was, and no call takes memory.
pub fn redo<M: Manager>(
    rec: &Record,
    parts: &Parts,
    id: u8,
    page: &mut Page,
    custom: Option<&M>,
) -> Result<(), RedoWhy>
    requires parts { ArePartsOf rec.now parts.now }
    ensures exact { Redoes (stamped rec.now.end
        ((rules_of (handed_in M.Manager custom.entry) rec.now).operation rec.now parts.now id)
        page.old) page.old result page.new }
{
    match custom {
        Some(manager) if rec.header().manager == M::ID => {
            redo_by_extension(manager, rec, parts, id, page)
        }
        _ => redo_by(done_by(rec), rec, parts, id, page),
    }
}
