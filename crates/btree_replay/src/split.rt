//! SPLIT_L and SPLIT_R.

ghost use Rattle.std.specs.Prelude.{ℕ, ◌≡◌, length};
ghost use Rattle.block_refs.specs.Parts.{ArePartsOf};
ghost use Rattle.redo_steps.specs.Redo.{Makes};
ghost use Rattle.redo_reads.specs.Given.{number_at};
ghost use Rattle.btree_replay.specs.Split.{or_none, split_left, split_right, split_neighbour, split_operation};

use crate::insert::settle;
use block_layouts::{restored_tuples, split_tuples};
use block_refs::Parts;
use btree_pages::{redo_neighbour, redo_split_left, redo_split_right, require_btree};
use page_layout::RedoWhy;
use record_layouts::BtreeSplit;
use redo_reads::{bytes_for, number_at};
use wal_records::Record;

// The page that is split.
fn split_left(
    rec: &Record,
    parts: &Parts,
    on_left: bool,
    op: &BtreeSplit,
    page: &mut [u8],
) -> Result<(), RedoWhy>
    requires parts { ArePartsOf rec.now parts.now }
    requires size { length page.old ≡ 8192 }
    ensures { Makes (split_left on_left rec.now parts.now op.now page.old) result page.new }
{
    let bytes = bytes_for(rec, parts, 0)?;
    let Some(tuples) = split_tuples(bytes, on_left) else {
        return Err(RedoWhy::Layout);
    };
    let right = number_at(parts, 1)?;
    require_btree(page)?;
    redo_split_left(page, right, op, tuples)
}

// The block to the right of both, 0 for none.
fn next_number(parts: &Parts) -> u32
    ensures { result ≡ or_none (number_at parts.now 2) }
{
    match parts.block(2) {
        Some(block) => block.name.block,
        None => 0,
    }
}

// The new right page.
fn split_right(rec: &Record, parts: &Parts, op: &BtreeSplit, page: &mut [u8]) -> Result<(), RedoWhy>
    requires parts { ArePartsOf rec.now parts.now }
    requires size { length page.old ≡ 8192 }
    ensures { Makes (split_right rec.now parts.now op.now) result page.new }
{
    let bytes = bytes_for(rec, parts, 1)?;
    let Some(tuples) = restored_tuples(bytes) else {
        return Err(RedoWhy::Layout);
    };
    let left = number_at(parts, 0)?;
    redo_split_right(page, left, next_number(parts), op.level, tuples)
}

// The page to the right of both.
fn split_neighbour(parts: &Parts, page: &mut [u8]) -> Result<(), RedoWhy>
    requires { length page.old ≡ 8192 }
    ensures { Makes (split_neighbour parts.now page.old) result page.new }
{
    let right = number_at(parts, 1)?;
    require_btree(page)?;
    redo_neighbour(page, right);
    Ok(())
}

/// Either of the two: `on_left` says that the new tuple comes to the left page, as SPLIT_L says.
pub fn split(
    rec: &Record,
    parts: &Parts,
    id: u8,
    on_left: bool,
    page: &mut [u8],
) -> Result<(), RedoWhy>
    requires parts { ArePartsOf rec.now parts.now }
    requires size { length page.old ≡ 8192 }
    ensures { Makes (split_operation on_left rec.now parts.now id page.old) result page.new }
{
    let Some(op) = BtreeSplit::read(parts.main_bytes(rec)) else {
        return Err(RedoWhy::Layout);
    };
    match id {
        0 => split_left(rec, parts, on_left, &op, page),
        1 => split_right(rec, parts, &op, page),
        2 => split_neighbour(parts, page),
        _ => settle(page),
    }
}
