//! INSERT_POST, and what it shares with a split: the posting tuple before the new one.

ghost use Rattle.std.specs.Prelude.{ℕ, ◌≡◌, ◌-◌, ◌≤◌, length, take, false, IsOk, MatchOption, true, ◌&&◌};
ghost use Rattle.layout.specs.Splice.{splice};
ghost use Rattle.block_layouts.specs.Posting.{posting_insert_seen};
ghost use Rattle.page_layout.specs.Page.{IsFormed, item};
ghost use Rattle.page_layout.specs.Edits.{add_item};
ghost use Rattle.page_layout.specs.Overwrite.{has_item};
ghost use Rattle.redo_steps.specs.Redo.{Makes, on_page};
ghost use Rattle.btree_pages.specs.Page.{on_btree};
ghost use Rattle.btree_posting.specs.Form.{can_swap, swapped_posting, last_tid};
ghost use Rattle.btree_posting.specs.Insert.{swap_item, insert_post_page};

use crate::place::{item_at, overwrite_at};
use crate::swap::{can_swap, last_tid, lay_swapped, lay_with_tid};
use block_layouts::PostingInsert;
use btree_pages::require_btree;
use page_layout::RedoWhy;
use page_layout::add::{add_refusal, put_new};
use record_layouts::BtreeInsert;
use redo_steps::why::why_of;

// Lays the posting tuple at a place with the new tuple's tid in its list, and the tid that it
// loses. Answers its size, or `None` where there is no such tuple or index.
fn swapped_at(
    room: &mut [u8],
    lost: &mut [u8],
    page: &[u8],
    place: u16,
    k: u16,
    new: &[u8],
) -> Option<usize>
    requires room { length room.old ≡ 8192 }
    requires lost { length lost.old ≡ 6 }
    requires page { IsFormed page.now }
    requires new { 8 ≤ length new.now }
    ensures made { MatchOption result
        ((has_item page.now place && can_swap k (item page.now (place - 1))) ≡ false)
        (λ size. ((has_item page.now place && can_swap k (item page.now (place - 1))) ≡ true)
        × (size ≤ 8192)
        × (take size room.new ≡ swapped_posting k new.now (item page.now (place - 1)))
        × (lost.new ≡ last_tid (item page.now (place - 1)))) }
{
    let tuple = item_at(page, place)?;
    if !can_swap(tuple, k) {
        return None;
    }
    lay_swapped(room, tuple, k, new);
    lost.copy_from_slice(last_tid(tuple));
    Some(tuple.len())
}

/// The posting tuple at a place gets the new tuple's tid at an index of its list, counted from 0;
/// `lost` becomes the tid that it loses. Answers `Place`.
pub fn swap_item(
    page: &mut [u8],
    place: u16,
    k: u16,
    new: &[u8],
    lost: &mut [u8],
) -> Result<(), RedoWhy>
    requires formed { IsFormed page.old }
    requires new { 8 ≤ length new.now }
    requires lost { length lost.old ≡ 6 }
    ensures exact { Makes (swap_item place k new.now page.old) result page.new }
    ensures lost { IsOk result → lost.new ≡ last_tid (item page.old (place - 1)) }
{
    let mut room = [0u8; 8192];
    let Some(size) = swapped_at(&mut room, lost, page, place, k, new) else {
        return Err(RedoWhy::Place);
    };
    overwrite_at(page, place, &room[..size])
}

// Adds the new tuple with another tid, to a B-tree page.
fn add_with_tid(page: &mut [u8], new: &[u8], tid: &[u8], place: u16) -> Result<(), RedoWhy>
    requires size { length page.old ≡ 8192 }
    requires new { 8 ≤ length new.now }
    requires tid { length tid.now ≡ 6 }
    ensures { Makes (on_btree (λ p. on_page (add_item p (splice new.now 0 tid.now) place false))
        page.old) result page.new }
{
    require_btree(page)?;
    if let Some(why) = add_refusal(page, new.len(), place, false) {
        return Err(why_of(why));
    }
    let mut room = [0u8; 8192];
    lay_with_tid(&mut room, new, tid);
    put_new(page, &room[..new.len()], place, false);
    Ok(())
}

/// Redoes INSERT_POST: the posting tuple before the new one's place gets its tid, and the new tuple
/// is added with the tid that is lost. Answers `Place` where that isn't a posting tuple, or the index
/// is 0 or past its list; then `Room`.
pub fn redo_insert_post(
    page: &mut [u8],
    op: &BtreeInsert,
    post: PostingInsert<'_>,
) -> Result<(), RedoWhy>
    requires formed { IsFormed page.old }
    requires new { 8 ≤ length post.tuple.now }
    ensures exact { Makes (insert_post_page op.now (posting_insert_seen post.entry) page.old)
        result page.new }
{
    let mut lost = [0u8; 6];
    let before = op.off.saturating_sub(1);
    swap_item(page, before, post.index, post.tuple, &mut lost)?;
    add_with_tid(page, post.tuple, &lost, op.off)
}
