ghost use Rattle.std.specs.Prelude.{ℕ, ◌≡◌, length};
ghost use Rattle.page_layout.specs.Page.{IsFormed};
ghost use Rattle.redo_steps.specs.Redo.{Makes};
ghost use Rattle.btree_pages.specs.Special.{empty_page};
ghost use Rattle.btree_pages.specs.NewRoot.{root_special, new_root_page};

use crate::restore::restore;
use crate::special::{Special, leaf_flag, put_empty};
use block_layouts::IndexTuples;
use page_layout::RedoWhy;

/// `BTP_ROOT`.
const ROOT: u16 = 2;

/// Makes a root without tuples, whatever the page was.
pub fn put_root(page: &mut [u8], level: u32)
    requires { length page.old ≡ 8192 }
    ensures value { page.new ≡ empty_page (root_special level) }
    ensures formed { IsFormed page.new }
{
    let special = Special {
        prev: 0,
        next: 0,
        level,
        flags: ROOT + leaf_flag(level),
    };
    put_empty(page, special);
}

/// Redoes NEWROOT on the root, whatever the page was. Answers `Room`.
pub fn redo_new_root(page: &mut [u8], level: u32, tuples: IndexTuples<'_>) -> Result<(), RedoWhy>
    requires { length page.old ≡ 8192 }
    ensures exact { Makes (new_root_page level tuples.entry) result page.new }
{
    put_root(page, level);
    restore(page, tuples)
}
