ghost use Rattle.std.specs.Prelude.{ℕ, ◌≡◌, ◌+◌, ◌*◌, ◌<◌, length};
ghost use Rattle.page_layout.specs.Lsn.{lsn, with_lsn};

use crate::bytes::{put, u16_at};

/// The LSN in a page's header.
#[tactic(auto, unfolding(crate::specs::Lsn::lsn))]
pub fn lsn_of(page: &[u8]) -> u64
    requires { length page.now ≡ 8192 }
    ensures { result ≡ lsn page.now }
{
    let high = u16_at(page, 0) + 65536 * u16_at(page, 2);
    let low = u16_at(page, 4) + 65536 * u16_at(page, 6);
    (high * 0x1_0000_0000 + low) as u64
}

/// Writes the LSN of a page's header.
#[tactic(auto, unfolding(crate::specs::Lsn::with_lsn))]
pub fn put_lsn(page: &mut [u8], at: u64)
    requires { length page.old ≡ 8192 }
    ensures { page.new ≡ with_lsn at page.old }
{
    let high = at / 0x1_0000_0000;
    let low = at % 0x1_0000_0000;
    put(
        page,
        0,
        &[
            (high % 256) as u8,
            (high / 256 % 256) as u8,
            (high / 65536 % 256) as u8,
            (high / 16777216) as u8,
            (low % 256) as u8,
            (low / 256 % 256) as u8,
            (low / 65536 % 256) as u8,
            (low / 16777216) as u8,
        ],
    );
}
