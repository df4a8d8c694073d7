ghost use Rattle.std.specs.Prelude.{ℕ, ◌≡◌, length};
ghost use Rattle.page_layout.specs.Page.{IsFormed};
ghost use Rattle.redo_steps.specs.Redo.{Makes};
ghost use Rattle.heap_pages.specs.Vacuum.{freed, vacuum_page};

use block_layouts::Places;
use page_layout::RedoWhy;
use page_layout::line::{Pointer, pointer_at, put_pointer};
use page_layout::shape::line_count;

// A line without an item becomes unused.
#[tactic(auto, using(crate::proofs::LineLemmas::line_formed))]
fn free_line(page: &mut [u8], place: u16) -> Result<(), RedoWhy>
    requires { IsFormed page.old }
    ensures exact { Makes (freed place page.old) result page.new }
    ensures formed { IsFormed page.new }
{
    if place == 0 || place as usize > line_count(page) {
        return Err(RedoWhy::Place);
    }
    let k = place as usize - 1;
    if pointer_at(page, k).len != 0 {
        return Err(RedoWhy::Place);
    }
    let unused = Pointer {
        off: 0,
        flags: 0,
        len: 0,
    };
    put_pointer(page, k, unused);
    Ok(())
}

/// Redoes VACUUM of these places on a heap page. Answers `Place` where one isn't there or has an
/// item; what a refused call leaves is open.
pub fn redo_vacuum(page: &mut [u8], mut places: Places<'_>) -> Result<(), RedoWhy>
    requires { IsFormed page.old }
    ensures exact { Makes (vacuum_page places.entry page.old) result page.new }
{
    while let Some(place) = places.next() {
        free_line(page, place)?;
    }
    Ok(())
}
