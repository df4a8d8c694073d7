ghost use Rattle.std.specs.Prelude.{ℕ, ◌≡◌, length, Ok};
ghost use Rattle.heap_pages.specs.Visible.{visible_page};

use redo_steps::head::set_all_visible;

/// Redoes VISIBLE on a heap page, not on the map's: all of its tuples are visible to all.
pub fn redo_visible(page: &mut [u8])
    requires { length page.old ≡ 8192 }
    ensures exact { visible_page page.old ≡ Ok page.new }
{
    set_all_visible(page);
}
