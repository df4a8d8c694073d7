ghost use Rattle.std.specs.Prelude.{ℕ, ◌≡◌};
ghost use Rattle.page_layout.specs.Page.{IsFormed};
ghost use Rattle.redo_steps.specs.Redo.{Redoes};
ghost use Rattle.btree_pages.specs.Insert.{insert_page};

use crate::items::add_at;
use page_layout::RedoWhy;
use record_layouts::BtreeInsert;

/// Redoes INSERT_LEAF, INSERT_UPPER and INSERT_META on the page that gets the tuple, whose bytes
/// are the block's as they stand. Answers `Place` where the place is 0 or past the count and one
/// more, then `Room`.
pub fn redo_insert(page: &mut [u8], op: &BtreeInsert, bytes: &[u8]) -> Result<(), RedoWhy>
    requires { IsFormed page.old }
    ensures exact { Redoes (insert_page op.now bytes.now page.old) page.old result page.new }
{
    add_at(page, bytes, op.off)
}
