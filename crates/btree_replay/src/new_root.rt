//! NEWROOT.

ghost use Rattle.std.specs.Prelude.{ℕ, ◌≡◌, length};
ghost use Rattle.block_refs.specs.Parts.{ArePartsOf};
ghost use Rattle.redo_steps.specs.Redo.{Makes};
ghost use Rattle.btree_replay.specs.NewRoot.{root_operation, new_root_operation};

use crate::insert::settle;
use crate::meta::meta;
use block_layouts::restored_tuples;
use block_refs::Parts;
use btree_pages::{put_root, redo_new_root};
use page_layout::RedoWhy;
use record_layouts::BtreeNewRoot;
use redo_reads::bytes_for;
use wal_records::Record;

// The root.
fn root(rec: &Record, parts: &Parts, op: &BtreeNewRoot, page: &mut [u8]) -> Result<(), RedoWhy>
    requires parts { ArePartsOf rec.now parts.now }
    requires size { length page.old ≡ 8192 }
    ensures { Makes (root_operation rec.now parts.now op.now) result page.new }
{
    if op.level == 0 {
        put_root(page, 0);
        return Ok(());
    }
    let bytes = bytes_for(rec, parts, 0)?;
    let Some(tuples) = restored_tuples(bytes) else {
        return Err(RedoWhy::Layout);
    };
    redo_new_root(page, op.level, tuples)
}

/// NEWROOT on any of its blocks.
pub fn new_root(rec: &Record, parts: &Parts, id: u8, page: &mut [u8]) -> Result<(), RedoWhy>
    requires parts { ArePartsOf rec.now parts.now }
    requires size { length page.old ≡ 8192 }
    ensures { Makes (new_root_operation rec.now parts.now id page.old) result page.new }
{
    let Some(op) = BtreeNewRoot::read(parts.main_bytes(rec)) else {
        return Err(RedoWhy::Layout);
    };
    match id {
        0 => root(rec, parts, &op, page),
        1 => settle(page),
        _ => meta(rec, parts, id, page),
    }
}
