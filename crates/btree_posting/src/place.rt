//! The item at a place of a page, looked at and overwritten.

ghost use Rattle.std.specs.Prelude.{ℕ, ◌≡◌, ◌-◌, ◌≤◌, length, true, false, MatchOption};
ghost use Rattle.page_layout.specs.Page.{IsFormed, item};
ghost use Rattle.page_layout.specs.Overwrite.{has_item, overwrite_item};
ghost use Rattle.redo_steps.specs.Redo.{Redoes, on_page};

use btree_pages::item_of;
use page_layout::RedoWhy;
use page_layout::overwrite::{overwrite_refusal, put_overwritten};
use page_layout::shape::line_count;
use redo_steps::why::why_of;

/// The item at a place, where there is one.
pub fn item_at(page: &[u8], place: u16) -> Option<&[u8]>
    requires { IsFormed page.now }
    ensures { MatchOption result (has_item page.now place ≡ false)
        (λ bytes. (has_item page.now place ≡ true) × (bytes.now ≡ item page.now (place - 1))
        × (length bytes.now ≤ 8168)) }
{
    let at = usize::from(place);
    if at == 0 || at > line_count(page) {
        return None;
    }
    let bytes = item_of(page, at - 1);
    if bytes.is_empty() { None } else { Some(bytes) }
}

/// Lays an item over the one at a place. Answers `PageShape`, then `Place` where there is none, then
/// `Room` where it needs more room than the old one.
pub fn overwrite_at(page: &mut [u8], place: u16, item: &[u8]) -> Result<(), RedoWhy>
    requires { length page.old ≡ 8192 }
    ensures { Redoes (on_page (overwrite_item page.old place item.now)) page.old result page.new }
{
    if let Some(why) = overwrite_refusal(page, place, item.len()) {
        return Err(why_of(why));
    }
    put_overwritten(page, usize::from(place) - 1, item);
    Ok(())
}
