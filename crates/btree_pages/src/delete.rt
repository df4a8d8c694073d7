ghost use Rattle.std.specs.Prelude.{ℕ, ◌≡◌, ◌≤◌, length, take};
ghost use Rattle.page_layout.specs.Page.{IsFormed};
ghost use Rattle.page_layout.specs.Deletes.{delete_items};
ghost use Rattle.redo_steps.specs.Redo.{Redoes, Makes, on_page};
ghost use Rattle.btree_pages.specs.Delete.{delete_page};

use crate::items::MOST_LINES;
use crate::special::put_without_garbage;
use block_layouts::Places;
use page_layout::RedoWhy;
use page_layout::delete::{places_refusal, put_deleted};
use redo_steps::why::why_of;

// Lays the places at the front.
fn lay_places(into: &mut [u16], places: &Places<'_>)
    requires { length places.now ≤ length into.old }
    ensures { take (length places.now) into.new ≡ places.now }
{
    for i in 0..places.len() {
        if let Some(place) = places.get(i) {
            into[i] = place;
        }
    }
}

// Takes out the lines at these places with their items.
fn take_out(page: &mut [u8], places: &[u16]) -> Result<(), RedoWhy>
    requires { length page.old ≡ 8192 }
    ensures { Redoes (on_page (delete_items page.old places.now)) page.old result page.new }
{
    if let Some(why) = places_refusal(page, places) {
        return Err(why_of(why));
    }
    match put_deleted(page, places) {
        Ok(()) => Ok(()),
        Err(why) => Err(why_of(why)),
    }
}

// The same, and the flag of known garbage is taken off.
fn take_garbage(page: &mut [u8], places: &[u16]) -> Result<(), RedoWhy>
    requires { length page.old ≡ 8192 }
    ensures { Makes (delete_page places.now page.old) result page.new }
{
    take_out(page, places)?;
    put_without_garbage(page);
    Ok(())
}

/// Redoes DELETE and VACUUM: takes out the tuples at these places. Answers `Place` where the places
/// don't rise or one isn't there, then `Room`, which only a page whose items overlap can give.
#[tactic(auto, using(crate::proofs::DeleteLemmas::too_many_places))]
pub fn redo_delete(page: &mut [u8], places: &Places<'_>) -> Result<(), RedoWhy>
    requires { IsFormed page.old }
    ensures exact { Makes (delete_page places.now page.old) result page.new }
{
    if places.len() > MOST_LINES {
        return Err(RedoWhy::Place);
    }
    let mut room = [0u16; MOST_LINES];
    lay_places(&mut room, places);
    take_garbage(page, &room[..places.len()])
}
