ghost use Rattle.std.specs.Prelude.{ℕ, ◌≡◌, ◌≤◌, length};
ghost use Rattle.page_layout.specs.Edits.{init_bytes};

use crate::bytes::put_u16;

/// Makes an empty page with `special` bytes, rounded up to 8, at its end.
pub fn put_init(page: &mut [u8], special: usize)
    requires size { length page.old ≡ 8192 }
    requires fits { special ≤ 8168 }
    ensures { page.new ≡ init_bytes special }
{
    page.fill(0);
    let end = 8192 - (special + 7) / 8 * 8;
    put_u16(page, 12, 24);
    put_u16(page, 14, end);
    put_u16(page, 16, end);
    put_u16(page, 18, 0x2004);
}
