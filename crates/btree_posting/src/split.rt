//! SPLIT_L and SPLIT_R that split a posting list, too.

ghost use Rattle.std.specs.Prelude.{ℕ, ◌≡◌, ◌≤◌, length, Some, IfSome};
ghost use Rattle.layout.specs.Splice.{splice};
ghost use Rattle.page_layout.specs.Page.{IsFormed};
ghost use Rattle.block_layouts.specs.Split.{split_seen};
ghost use Rattle.redo_steps.specs.Redo.{Makes};
ghost use Rattle.btree_pages.specs.Page.{on_btree};
ghost use Rattle.btree_pages.specs.Split.{split_left_page};
ghost use Rattle.btree_posting.specs.Split.{left_new, split_posting_page};

use crate::insert::swap_item;
use crate::swap::lay_with_tid;
use block_layouts::SplitTuples;
use btree_pages::{redo_split_left, require_btree};
use page_layout::RedoWhy;
use record_layouts::BtreeSplit;

// A new tuple and a high key as those of a split.
fn tuples_with<'a>(new: &'a [u8], high_key: &'a [u8]) -> SplitTuples<'a>
    ensures { split_seen result ≡ record { new_tuple = Some new.now; high_key = high_key.now } }
{
    SplitTuples {
        new_tuple: Some(new),
        high_key,
    }
}

// Splits the page, whose posting tuple has the new tid already, where the new tuple, with another
// tid, comes to it.
fn split_with_new(
    page: &mut [u8],
    right: u32,
    op: &BtreeSplit,
    high_key: &[u8],
    new: &[u8],
    tid: &[u8],
) -> Result<(), RedoWhy>
    requires formed { IsFormed page.old }
    requires new { 8 ≤ length new.now }
    requires fits { length new.now ≤ 8192 }
    requires tid { length tid.now ≡ 6 }
    ensures { Makes (split_left_page right op.now (record {
      new_tuple = Some (splice new.now 0 tid.now);
      high_key = high_key.now;
    }) page.old)
        result page.new }
{
    let mut room = [0u8; 8192];
    lay_with_tid(&mut room, new, tid);
    redo_split_left(page, right, op, tuples_with(&room[..new.len()], high_key))
}

// The same, and where it doesn't come to it.
fn split_rest(
    page: &mut [u8],
    right: u32,
    on_left: bool,
    op: &BtreeSplit,
    high_key: &[u8],
    new: &[u8],
    tid: &[u8],
) -> Result<(), RedoWhy>
    requires size { length page.old ≡ 8192 }
    requires new { 8 ≤ length new.now }
    requires fits { length new.now ≤ 8192 }
    requires tid { length tid.now ≡ 6 }
    ensures { Makes (on_btree (split_left_page right op.now (record {
      new_tuple = left_new on_left (splice new.now 0 tid.now);
      high_key = high_key.now;
    })) page.old)
        result page.new }
{
    require_btree(page)?;
    if on_left {
        return split_with_new(page, right, op, high_key, new, tid);
    }
    redo_split_left(
        page,
        right,
        op,
        SplitTuples {
            new_tuple: None,
            high_key,
        },
    )
}

/// Redoes a split on the page that is split, whose new right page is block `right`, where a posting
/// list is split, too: `on_left` says that the new tuple comes to the left page. Answers `Place` as
/// INSERT_POST does, then `Room`.
pub fn redo_split_posting(
    page: &mut [u8],
    right: u32,
    on_left: bool,
    op: &BtreeSplit,
    tuples: SplitTuples<'_>,
) -> Result<(), RedoWhy>
    requires formed { IsFormed page.old }
    requires new { IfSome tuples.new_tuple (λ new. (8 ≤ length new.now) × (length new.now ≤ 8192)) }
    ensures exact { Makes (split_posting_page right on_left op.now (split_seen tuples.entry) page.old)
        result page.new }
{
    let Some(new) = tuples.new_tuple else {
        return Err(RedoWhy::Layout);
    };
    let mut lost = [0u8; 6];
    let before = op.new_item.saturating_sub(1);
    swap_item(page, before, op.posting, new, &mut lost)?;
    split_rest(page, right, on_left, op, tuples.high_key, new, &lost)
}
