ghost use Rattle.std.specs.Prelude.{ℕ, ◌≡◌, length};
ghost use Rattle.redo_steps.specs.Redo.{Makes};
ghost use Rattle.btree_pages.specs.Split.{split_right_page};

use crate::restore::restore;
use crate::special::{Special, leaf_flag, put_empty};
use block_layouts::IndexTuples;
use page_layout::RedoWhy;

/// Redoes a split on its new right page, whatever the page was: between the blocks `left` and
/// `next`, which is 0 where there is none, of this level. Answers `Room`.
pub fn redo_split_right(
    page: &mut [u8],
    left: u32,
    next: u32,
    level: u32,
    tuples: IndexTuples<'_>,
) -> Result<(), RedoWhy>
    requires { length page.old ≡ 8192 }
    ensures exact { Makes (split_right_page left next level tuples.entry) result page.new }
{
    let special = Special {
        prev: left,
        next,
        level,
        flags: leaf_flag(level),
    };
    put_empty(page, special);
    restore(page, tuples)
}
