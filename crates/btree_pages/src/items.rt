//! Items of B-tree pages, added one by one.

ghost use Rattle.std.specs.Prelude.{ℕ, ◌≡◌, ◌+◌, ◌<◌, ◌≤◌, length, false, None, IsOk};
ghost use Rattle.page_layout.specs.Page.{IsFormed, count, item};
ghost use Rattle.page_layout.specs.Edits.{add_item};
ghost use Rattle.redo_steps.specs.Redo.{Redoes, Makes, on_page};
ghost use Rattle.btree_pages.specs.Items.{with_last, with_items, items};

use page_layout::RedoWhy;
use page_layout::add::{add_refusal, put_new};
use page_layout::line::pointer_at;
use page_layout::shape::line_count;
use redo_steps::why::why_of;

/// The most lines of a page.
pub const MOST_LINES: usize = 2042;

/// Adds an item at a place; the later lines move up. Answers `Place`, then `Room`.
pub fn add_at(page: &mut [u8], item: &[u8], place: u16) -> Result<(), RedoWhy>
    requires { IsFormed page.old }
    ensures exact { Redoes (on_page (add_item page.old item.now place false)) page.old
        result page.new }
    ensures formed { IsFormed page.new }
{
    if let Some(why) = add_refusal(page, item.len(), place, false) {
        return Err(why_of(why));
    }
    put_new(page, item, place, false);
    Ok(())
}

/// Adds an item behind the last line. Answers `Room`.
pub fn put_last(page: &mut [u8], item: &[u8]) -> Result<(), RedoWhy>
    requires { IsFormed page.old }
    ensures exact { Redoes (with_last item.now page.old) page.old result page.new }
    ensures formed { IsFormed page.new }
{
    let place = line_count(page) + 1;
    add_at(page, item, place as u16)
}

/// The item of the line at index `k`, counted from 0, empty where the line points nowhere.
#[tactic(auto, unfolding(page_layout::specs::Bytes::cut), using(page_layout::proofs::ShapeLemmas::held_in))]
pub fn item_of(page: &[u8], k: usize) -> &[u8]
    requires formed { IsFormed page.now }
    requires there { k < count page.now }
    ensures { result.now ≡ item page.now k }
{
    let line = pointer_at(page, k);
    if line.len == 0 {
        return &page[..0];
    }
    &page[line.off..line.off + line.len]
}

/// Adds the items of another page's lines, from a place up to before another one. Answers `Room`.
#[tactic(auto, using(crate::proofs::ItemsLemmas::items_step, crate::proofs::ItemsLemmas::items_none))]
pub fn put_lines_of(page: &mut [u8], from: &[u8], start: usize, end: usize) -> Result<(), RedoWhy>
    requires formed { IsFormed page.old }
    requires from { IsFormed from.now }
    requires above { start < end → 0 < start }
    requires there { end ≤ count from.now + 1 }
    ensures exact { Makes (with_items (items from.now start end) page.old) result page.new }
    ensures formed { IsFormed page.new }
{
    for place in start..end {
        put_last(page, item_of(from, place - 1))?;
    }
    Ok(())
}
