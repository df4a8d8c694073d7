ghost use Rattle.std.specs.Prelude.{ℕ, ◌≡◌, ◌<◌, length};
ghost use Rattle.page_layout.specs.Page.{IsFormed};
ghost use Rattle.page_layout.specs.Pack.{pack};
ghost use Rattle.redo_steps.specs.Redo.{Makes, on_page};
ghost use Rattle.heap_pages.specs.Lines.{set_place, set_places};
ghost use Rattle.heap_pages.specs.Prune.{redirect_all, prune_page};

use block_layouts::{Places, PrunePlaces, Redirects};
use page_layout::RedoWhy;
use page_layout::line::{Pointer, put_pointer};
use page_layout::pack::{has_room, put_all_packed};
use page_layout::shape::line_count;

/// `LP_UNUSED`, `LP_REDIRECT` and `LP_DEAD`.
const UNUSED: usize = 0;

const REDIRECT: usize = 2;

const DEAD: usize = 3;

// The line at a place gets these numbers and no item.
#[tactic(auto, using(crate::proofs::LineLemmas::line_formed))]
fn set_place(page: &mut [u8], place: u16, off: u16, flags: usize) -> Result<(), RedoWhy>
    requires formed { IsFormed page.old }
    requires kind { flags < 4 }
    ensures exact { Makes (set_place place off flags page.old) result page.new }
    ensures formed { IsFormed page.new }
{
    if place == 0 || place as usize > line_count(page) || off >= 32768 {
        return Err(RedoWhy::Place);
    }
    let pointer = Pointer {
        off: off as usize,
        flags,
        len: 0,
    };
    put_pointer(page, place as usize - 1, pointer);
    Ok(())
}

// Each line becomes a redirect.
fn redirect_all(page: &mut [u8], mut redirects: Redirects<'_>) -> Result<(), RedoWhy>
    requires { IsFormed page.old }
    ensures exact { Makes (redirect_all redirects.entry page.old) result page.new }
    ensures formed { IsFormed page.new }
{
    while let Some(redirect) = redirects.next() {
        set_place(page, redirect.from, redirect.to, REDIRECT)?;
    }
    Ok(())
}

// Each line becomes of this kind.
fn set_places(page: &mut [u8], mut places: Places<'_>, flags: usize) -> Result<(), RedoWhy>
    requires formed { IsFormed page.old }
    requires kind { flags < 4 }
    ensures exact { Makes (set_places flags places.entry page.old) result page.new }
    ensures formed { IsFormed page.new }
{
    while let Some(place) = places.next() {
        set_place(page, place, 0, flags)?;
    }
    Ok(())
}

// Lays the items anew.
#[tactic(auto, using(page_laws::proofs::Refused::pack_is))]
fn pack_page(page: &mut [u8]) -> Result<(), RedoWhy>
    requires { IsFormed page.old }
    ensures exact { Makes (on_page (pack page.old)) result page.new }
{
    if !has_room(page) {
        return Err(RedoWhy::Room);
    }
    put_all_packed(page);
    Ok(())
}

/// Redoes PRUNE on a heap page. Answers `Place` where a place isn't there or a redirect leads to one
/// above 32767, then `Room`, which only a page whose items overlap can give; what a refused call
/// leaves is open.
pub fn redo_prune(page: &mut [u8], places: PrunePlaces<'_>) -> Result<(), RedoWhy>
    requires { IsFormed page.old }
    ensures exact { Makes (prune_page places.entry page.old) result page.new }
{
    redirect_all(page, places.redirected)?;
    set_places(page, places.dead, DEAD)?;
    set_places(page, places.unused, UNUSED)?;
    pack_page(page)
}
