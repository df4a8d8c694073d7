//! DELETE and VACUUM.

ghost use Rattle.std.specs.Prelude.{ℕ, ◌≡◌, length};
ghost use Rattle.block_refs.specs.Parts.{ArePartsOf};
ghost use Rattle.redo_steps.specs.Redo.{Makes};
ghost use Rattle.btree_replay.specs.Delete.{places_operation, delete_operation, vacuum_operation};

use block_layouts::first_places;
use block_refs::Parts;
use btree_pages::{redo_delete, require_btree};
use page_layout::RedoWhy;
use record_layouts::{BtreeDelete, BtreeVacuum};
use redo_reads::bytes_for;
use wal_records::Record;

// So many places at the front of block 0's bytes.
fn delete_places(rec: &Record, parts: &Parts, ndeleted: u16, page: &mut [u8]) -> Result<(), RedoWhy>
    requires parts { ArePartsOf rec.now parts.now }
    requires size { length page.old ≡ 8192 }
    ensures { Makes (places_operation ndeleted rec.now parts.now page.old) result page.new }
{
    let bytes = bytes_for(rec, parts, 0)?;
    let Some(places) = first_places(bytes, ndeleted) else {
        return Err(RedoWhy::Layout);
    };
    require_btree(page)?;
    redo_delete(page, &places)
}

/// DELETE.
pub fn delete(rec: &Record, parts: &Parts, page: &mut [u8]) -> Result<(), RedoWhy>
    requires parts { ArePartsOf rec.now parts.now }
    requires size { length page.old ≡ 8192 }
    ensures { Makes (delete_operation rec.now parts.now page.old) result page.new }
{
    let Some(op) = BtreeDelete::read(parts.main_bytes(rec)) else {
        return Err(RedoWhy::Layout);
    };
    delete_places(rec, parts, op.ndeleted, page)
}

/// VACUUM.
pub fn vacuum(rec: &Record, parts: &Parts, page: &mut [u8]) -> Result<(), RedoWhy>
    requires parts { ArePartsOf rec.now parts.now }
    requires size { length page.old ≡ 8192 }
    ensures { Makes (vacuum_operation rec.now parts.now page.old) result page.new }
{
    let Some(op) = BtreeVacuum::read(parts.main_bytes(rec)) else {
        return Err(RedoWhy::Layout);
    };
    delete_places(rec, parts, op.ndeleted, page)
}
