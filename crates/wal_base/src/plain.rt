//! CRC-32C byte by byte: the definition's own program, beside which the fast one stands.

ghost use Rattle.std.specs.Prelude.{◌≡◌};
ghost use Rattle.wal_base.specs.Crc.{crc_byte, crc_fold, crc32c};

use crate::tables::TABLES;

fn add_byte(state: u32, byte: u8) -> u32
    ensures { result ≡ crc_byte state byte }
{
    let low = (state & 0xFF) as u8;
    TABLES[0][(low ^ byte) as usize] ^ (state >> 8)
}

/// The state after more bytes.
pub fn add_bytes(state: u32, bytes: &[u8]) -> u32
    ensures { result ≡ crc_fold state bytes.now }
{
    let mut state = state;
    for byte in bytes {
        state = add_byte(state, *byte);
    }
    state
}

/// The CRC-32C of bytes, one after another: what `Crc32c` answers, only slower.
#[tactic(auto, unfolding(crate::specs::Crc::crc32c))]
pub fn plain_crc32c(bytes: &[u8]) -> u32
    ensures { result ≡ crc32c bytes.now }
{
    add_bytes(u32::MAX, bytes) ^ u32::MAX
}
