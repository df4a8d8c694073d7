ghost use Rattle.std.specs.Prelude.{ℕ, ◌≡◌, ◌+◌, ◌<◌, ◌≤◌, length, replicate};
ghost use Rattle.layout.specs.Splice.{splice};
ghost use Rattle.page_layout.specs.Bytes.{u16_at, with_u16, cut};

/// The number in the two bytes at `at`, the low one first.
pub fn u16_at(page: &[u8], at: usize) -> usize
    requires { at + 1 < length page.now }
    ensures value { result ≡ u16_at page.now at }
    ensures bound { result < 65536 }
{
    page[at] as usize + 256 * (page[at + 1] as usize)
}

/// Lays `bytes` over the page from byte `at` on.
#[tactic(auto, unfolding(layout::specs::Splice::splice))]
pub fn put(page: &mut [u8], at: usize, bytes: &[u8])
    requires { at + length bytes.now ≤ length page.old }
    ensures { page.new ≡ splice page.old at bytes.now }
{
    let end = at + bytes.len();
    page[at..end].copy_from_slice(bytes);
}

/// Writes a number of two bytes at `at`.
pub fn put_u16(page: &mut [u8], at: usize, n: usize)
    requires room { at + 2 ≤ length page.old }
    requires fits { n < 65536 }
    ensures { page.new ≡ with_u16 page.old at n }
{
    put(page, at, &[(n % 256) as u8, (n / 256) as u8]);
}

/// Lays `n` zeros over the page from byte `at` on.
pub fn clear(page: &mut [u8], at: usize, n: usize)
    requires { at + n ≤ length page.old }
    ensures { page.new ≡ splice page.old at (replicate n 0) }
{
    let end = at + n;
    page[at..end].fill(0);
}

/// Moves `n` bytes from byte `from` on to byte `to` on; the two ranges may overlap.
#[tactic(auto, using(crate::proofs::BytesLemmas::moved))]
pub fn move_bytes(page: &mut [u8], from: usize, n: usize, to: usize)
    requires from_fits { from + n ≤ length page.old }
    requires to_fits { to + n ≤ length page.old }
    ensures { page.new ≡ splice page.old to (cut page.old from n) }
{
    let end = from + n;
    page.copy_within(from..end, to);
}
