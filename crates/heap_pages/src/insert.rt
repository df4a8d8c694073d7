ghost use Rattle.std.specs.Prelude.{ℕ, ◌≡◌, length};
ghost use Rattle.page_layout.specs.Page.{IsFormed};
ghost use Rattle.block_layouts.specs.Tuple.{tuple_seen};
ghost use Rattle.redo_steps.specs.Redo.{Makes};
ghost use Rattle.heap_pages.specs.Insert.{visible_told, insert_page};

use crate::new_tuple::{NewTuple, put_new_tuple};
use block_layouts::HeapTuple;
use heap_tuples::flags::has_bit;
use heap_tuples::heap::put_visible_cleared;
use page_layout::RedoWhy;
use record_layouts::HeapInsert;
use redo_steps::head::set_all_visible;

/// `XLH_INSERT_ALL_FROZEN_SET`.
const ALL_FROZEN_SET: u8 = 0x20;

/// Writes the flag "all visible" as the record's flags tell it.
pub fn put_visible_told(page: &mut [u8], flags: u8)
    requires { length page.old ≡ 8192 }
    ensures { page.new ≡ visible_told flags page.old }
{
    put_visible_cleared(page, flags);
    if has_bit(flags, ALL_FROZEN_SET) {
        set_all_visible(page);
    }
}

/// Redoes INSERT on a heap page of block `block`, for the record's transaction. Answers `Place`
/// where the place is 0, above 291 or in use, then `Room`; what a refused call leaves is open.
pub fn redo_insert(
    page: &mut [u8],
    xid: u32,
    block: u32,
    op: &HeapInsert,
    tuple: HeapTuple<'_>,
) -> Result<(), RedoWhy>
    requires { IsFormed page.old }
    ensures exact { Makes (insert_page xid block op.now (tuple_seen tuple.entry) page.old) result page.new }
{
    let from = NewTuple {
        xmin: xid,
        xmax: 0,
        block,
        place: op.off,
    };
    put_new_tuple(page, from, tuple)?;
    put_visible_told(page, op.flags);
    Ok(())
}
