//! INSERT_LEAF, INSERT_UPPER and INSERT_META.

ghost use Rattle.std.specs.Prelude.{ℕ, ◌≡◌, length};
ghost use Rattle.block_refs.specs.Parts.{ArePartsOf};
ghost use Rattle.redo_steps.specs.Redo.{Makes};
ghost use Rattle.btree_replay.specs.Insert.{settle_operation, insert_first, insert_operation};

use crate::meta::meta;
use block_refs::Parts;
use btree_pages::{redo_insert, redo_settle, require_btree};
use page_layout::RedoWhy;
use record_layouts::BtreeInsert;
use redo_reads::bytes_for;
use wal_records::Record;

/// Finishes the split of a page below.
pub fn settle(page: &mut [u8]) -> Result<(), RedoWhy>
    requires { length page.old ≡ 8192 }
    ensures { Makes (settle_operation page.old) result page.new }
{
    require_btree(page)?;
    redo_settle(page);
    Ok(())
}

// The page that gets the tuple.
fn insert_first(
    rec: &Record,
    parts: &Parts,
    op: &BtreeInsert,
    page: &mut [u8],
) -> Result<(), RedoWhy>
    requires parts { ArePartsOf rec.now parts.now }
    requires size { length page.old ≡ 8192 }
    ensures { Makes (insert_first rec.now parts.now op.now page.old) result page.new }
{
    let bytes = bytes_for(rec, parts, 0)?;
    require_btree(page)?;
    redo_insert(page, op, bytes)
}

/// Any of the three.
pub fn insert(rec: &Record, parts: &Parts, id: u8, page: &mut [u8]) -> Result<(), RedoWhy>
    requires parts { ArePartsOf rec.now parts.now }
    requires size { length page.old ≡ 8192 }
    ensures { Makes (insert_operation rec.now parts.now id page.old) result page.new }
{
    let Some(op) = BtreeInsert::read(parts.main_bytes(rec)) else {
        return Err(RedoWhy::Layout);
    };
    match id {
        0 => insert_first(rec, parts, &op, page),
        1 => settle(page),
        _ => meta(rec, parts, id, page),
    }
}
