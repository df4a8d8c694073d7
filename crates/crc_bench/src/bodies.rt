//! The two bodies, run so often that a clock can tell them apart.

ghost use Rattle.std.specs.Prelude.{◌≡◌, ◌+◌, ◌≤◌, length, vec_len, IfOk};
ghost use Rattle.wal_base.specs.Crc.{crc32c};

use std::alloc::{AllocError, Global};
use wal_base::{Crc32c, plain_crc32c};

/// How many bytes are summed at a time: a sixteenth of a MiB.
pub const SIZE: usize = 65_536;

/// How many places a piece may begin at.
pub const PLACES: usize = 16;

/// Bytes of a linear congruential generator, always the same.
pub fn filled(alloc: Global) -> Result<Vec<u8>, AllocError>
    ensures { IfOk result (λ bytes. vec_len bytes ≡ SIZE + PLACES) }
{
    let mut bytes = Vec::new(alloc);
    let mut state = 1u64;
    for _count in 0..SIZE + PLACES {
        state = state
            .wrapping_mul(6_364_136_223_846_793_005)
            .wrapping_add(1_442_695_040_888_963_407);
        bytes.push((state >> 56) as u8)?;
    }
    Ok(bytes)
}

/// The CRC-32C of bytes by the fast body.
pub fn fast_crc32c(bytes: &[u8]) -> u32
    ensures { result ≡ crc32c bytes.now }
{
    let mut crc = Crc32c::new();
    crc.add(bytes);
    crc.value()
}

/// A MiB by the plain body: the sums of a piece at each place, together.
pub fn plain_mebibyte(bytes: &[u8]) -> u32
    requires { SIZE + PLACES ≤ length bytes.now }
{
    let mut total = 0u32;
    for place in 0..PLACES {
        total = total.wrapping_add(plain_crc32c(&bytes[place..place + SIZE]));
    }
    total
}

/// A MiB by the fast body: the sums of a piece at each place, together.
pub fn fast_mebibyte(bytes: &[u8]) -> u32
    requires { SIZE + PLACES ≤ length bytes.now }
{
    let mut total = 0u32;
    for place in 0..PLACES {
        total = total.wrapping_add(fast_crc32c(&bytes[place..place + SIZE]));
    }
    total
}
