//! Records that change lines, or several tuples.

ghost use Rattle.std.specs.Prelude.{ℕ, ◌≡◌, length};
ghost use Rattle.block_refs.specs.Parts.{ArePartsOf};
ghost use Rattle.redo_steps.specs.Redo.{Makes};
ghost use Rattle.heap_replay.specs.Lines.{prune_operation, vacuum_operation, freeze_operation, visible_operation};

use block_layouts::{first_places, freeze_plans, prune_places};
use block_refs::Parts;
use heap_pages::{redo_freeze, redo_prune, redo_vacuum, redo_visible};
use heap_tuples::trim_heap;
use page_layout::RedoWhy;
use record_layouts::{HeapFreezePage, HeapPrune, HeapVacuum, HeapVisible};
use redo_reads::bytes_for;
use wal_records::Record;

/// PRUNE.
pub fn prune(rec: &Record, parts: &Parts, id: u8, page: &mut [u8]) -> Result<(), RedoWhy>
    requires parts { ArePartsOf rec.now parts.now }
    requires size { length page.old ≡ 8192 }
    ensures { Makes (prune_operation rec.now parts.now id page.old) result page.new }
{
    let Some(op) = HeapPrune::read(parts.main_bytes(rec)) else {
        return Err(RedoWhy::Layout);
    };
    let bytes = bytes_for(rec, parts, id)?;
    let Some(places) = prune_places(bytes, op.nredirected, op.ndead) else {
        return Err(RedoWhy::Layout);
    };
    trim_heap(page)?;
    redo_prune(page, places)
}

/// VACUUM.
pub fn vacuum(rec: &Record, parts: &Parts, id: u8, page: &mut [u8]) -> Result<(), RedoWhy>
    requires parts { ArePartsOf rec.now parts.now }
    requires size { length page.old ≡ 8192 }
    ensures { Makes (vacuum_operation rec.now parts.now id page.old) result page.new }
{
    let Some(op) = HeapVacuum::read(parts.main_bytes(rec)) else {
        return Err(RedoWhy::Layout);
    };
    let bytes = bytes_for(rec, parts, id)?;
    let Some(places) = first_places(bytes, op.nunused) else {
        return Err(RedoWhy::Layout);
    };
    trim_heap(page)?;
    redo_vacuum(page, places)
}

/// FREEZE_PAGE.
pub fn freeze(rec: &Record, parts: &Parts, id: u8, page: &mut [u8]) -> Result<(), RedoWhy>
    requires parts { ArePartsOf rec.now parts.now }
    requires size { length page.old ≡ 8192 }
    ensures { Makes (freeze_operation rec.now parts.now id page.old) result page.new }
{
    let Some(op) = HeapFreezePage::read(parts.main_bytes(rec)) else {
        return Err(RedoWhy::Layout);
    };
    let bytes = bytes_for(rec, parts, id)?;
    let Some(plans) = freeze_plans(bytes, op.nplans) else {
        return Err(RedoWhy::Layout);
    };
    trim_heap(page)?;
    redo_freeze(page, plans)
}

/// VISIBLE, the heap's page.
pub fn visible(rec: &Record, parts: &Parts, page: &mut [u8]) -> Result<(), RedoWhy>
    requires parts { ArePartsOf rec.now parts.now }
    requires size { length page.old ≡ 8192 }
    ensures { Makes (visible_operation rec.now parts.now page.old) result page.new }
{
    if HeapVisible::read(parts.main_bytes(rec)).is_none() {
        return Err(RedoWhy::Layout);
    }
    trim_heap(page)?;
    redo_visible(page);
    Ok(())
}
