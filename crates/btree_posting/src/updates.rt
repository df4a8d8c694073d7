//! DELETE and VACUUM that make posting lists shorter.

ghost use Rattle.std.specs.Prelude.{ℕ, ◌≡◌, ◌-◌, ◌≤◌, length, take, true, false, ◌&&◌, IsOk, MatchOption};
ghost use Rattle.page_layout.specs.Page.{IsFormed, item};
ghost use Rattle.page_layout.specs.Overwrite.{has_item};
ghost use Rattle.redo_steps.specs.Redo.{Makes};
ghost use Rattle.btree_posting.specs.Form.{can_shorten, shortened};
ghost use Rattle.btree_posting.specs.Updates.{shorten_item, shorten_items, delete_any, updates_page};

use crate::place::{item_at, overwrite_at};
use crate::shorten::shorten;
use block_layouts::{Places, PostingUpdates, Update, Updates};
use btree_pages::{put_without_garbage, redo_delete, require_btree};
use page_layout::RedoWhy;

// Lays the posting tuple at a place without some of its tids. Answers its size, or `None` where there
// is no such tuple or one of the indexes isn't as it has to be.
fn shortened_at(room: &mut [u8], page: &[u8], place: u16, gone: Places<'_>) -> Option<usize>
    requires room { length room.old ≡ 8192 }
    requires page { IsFormed page.now }
    ensures { MatchOption result
        ((has_item page.now place && can_shorten gone.entry (item page.now (place - 1))) ≡ false)
        (λ size. ((has_item page.now place && can_shorten gone.entry (item page.now (place - 1))) ≡ true)
        × (size ≤ 8192)
        × (take size room.new ≡ shortened gone.entry (item page.now (place - 1)))) }
{
    shorten(room, item_at(page, place)?, gone)
}

// Makes one posting list shorter.
fn shorten_item(page: &mut [u8], update: Update<'_>) -> Result<(), RedoWhy>
    requires { IsFormed page.old }
    ensures { Makes (shorten_item update.entry page.old) result page.new }
{
    let mut room = [0u8; 8192];
    let place = update.place;
    let Some(size) = shortened_at(&mut room, page, place, update.gone) else {
        return Err(RedoWhy::Place);
    };
    overwrite_at(page, place, &room[..size])
}

// Makes posting lists shorter, one after another. A page whose items overlap may be no B-tree page
// then.
fn shorten_items(page: &mut [u8], mut updates: Updates<'_>) -> Result<(), RedoWhy>
    requires { IsFormed page.old }
    ensures exact { Makes (shorten_items updates.entry page.old) result page.new }
    ensures formed { IsOk result → IsFormed page.new }
{
    while let Some(update) = updates.next() {
        shorten_item(page, update)?;
        require_btree(page)?;
    }
    Ok(())
}

// Takes out the tuples at these places, if there are any, and the flag of known garbage.
fn delete_any(page: &mut [u8], places: Places<'_>) -> Result<(), RedoWhy>
    requires { IsFormed page.old }
    ensures { Makes (delete_any places.entry page.old) result page.new }
{
    if places.len() == 0 {
        put_without_garbage(page);
        return Ok(());
    }
    redo_delete(page, &places)
}

/// Redoes DELETE and VACUUM that make posting lists shorter: first the lists, then the tuples that
/// go. Answers `Place` where a list's place has no posting tuple that stands, where its indexes don't
/// rise, one isn't there or no tid is left, and where the places that go don't rise or one isn't
/// there; and `Room` and `PageShape`, which only a page whose items overlap can give.
pub fn redo_updates(page: &mut [u8], updates: PostingUpdates<'_>) -> Result<(), RedoWhy>
    requires { IsFormed page.old }
    ensures exact { Makes (updates_page updates.entry page.old) result page.new }
{
    shorten_items(page, updates.updates)?;
    delete_any(page, updates.deleted)
}
