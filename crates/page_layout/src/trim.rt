ghost use Rattle.std.specs.Prelude.{ℕ, ◌≡◌, ◌+◌, ◌*◌, ◌≤◌, length};
ghost use Rattle.page_layout.specs.Page.{count, Head};
ghost use Rattle.page_layout.specs.Edits.{is_free, trimmed_count, trimmed};

use crate::bytes::put_u16;
use crate::line::pointer_at;
use crate::shape::line_count;

/// Whether the line at index `k` is unused and has length 0.
pub fn is_free(page: &[u8], k: usize) -> bool
    requires size { length page.now ≡ 8192 }
    requires there { 28 + 4 * k ≤ 8192 }
    ensures { result ≡ is_free page.now k }
{
    let pointer = pointer_at(page, k);
    pointer.flags == 0 && pointer.len == 0
}

/// How many lines stay when unused lines of length 0 at the end are dropped.
pub fn trimmed_count(page: &[u8]) -> usize
    requires size { length page.now ≡ 8192 }
    requires head { Head page.now }
    ensures value { result ≡ trimmed_count page.now (count page.now) }
    ensures bound { result ≤ count page.now }
{
    let mut n = line_count(page);
    while n > 0 && is_free(page, n - 1) {
        n -= 1;
    }
    n
}

/// Drops unused lines of length 0 at the end.
pub fn put_trimmed(page: &mut [u8])
    requires size { length page.old ≡ 8192 }
    requires head { Head page.old }
    ensures { page.new ≡ trimmed page.old }
{
    let n = trimmed_count(page);
    put_u16(page, 12, 24 + 4 * n);
}
