//! CRC-32C of sixteen bytes at a time.

ghost use Rattle.std.specs.Prelude.{◌≡◌, ◌+◌, ◌*◌, ◌<◌, drop};
ghost use Rattle.std.specs.Int.{w64, to_le_bytes};
ghost use Rattle.wal_base.specs.Crc.{crc_fold, crc_steps};

use crate::plain::add_bytes;
use crate::tables::TABLES;

/// What a byte has become when `after` more bytes have passed.
fn passed(after: usize, byte: u8) -> u32
    requires { after < 16 }
    ensures { result ≡ crc_steps (8 * (after + 1)) byte }
{
    TABLES[after][byte as usize]
}

/// The last eight bytes of a chunk as one number.
fn far_word(chunk: &[u8; 16]) -> u64
    ensures { to_le_bytes w64 result ≡ drop 8 chunk.now }
{
    u64::from_le_bytes([
        chunk[8], chunk[9], chunk[10], chunk[11], chunk[12], chunk[13], chunk[14], chunk[15],
    ])
}

/// What eight bytes add, which waits for no state.
fn far_bytes(bytes: &[u8; 8]) -> u32
    ensures { result ≡ crc_fold 0 bytes.now }
{
    let third = passed(7, bytes[0])
        ^ passed(6, bytes[1])
        ^ passed(5, bytes[2])
        ^ passed(4, bytes[3]);
    let fourth = passed(3, bytes[4])
        ^ passed(2, bytes[5])
        ^ passed(1, bytes[6])
        ^ passed(0, bytes[7]);
    third ^ fourth
}

/// What the last twelve bytes of a chunk add, which waits for no state.
fn late_bytes(chunk: &[u8; 16]) -> u32
    ensures { result ≡ crc_fold 0 (drop 4 chunk.now) }
{
    let second = passed(11, chunk[4])
        ^ passed(10, chunk[5])
        ^ passed(9, chunk[6])
        ^ passed(8, chunk[7]);
    second ^ far_bytes(&far_word(chunk).to_le_bytes())
}

/// The state after sixteen bytes.
pub fn add_chunk(state: u32, chunk: &[u8; 16]) -> u32
    ensures { result ≡ crc_fold state chunk.now }
{
    let late = late_bytes(chunk);
    let near = u32::from_le_bytes([chunk[0], chunk[1], chunk[2], chunk[3]]) ^ state;
    let first = passed(15, (near & 0xFF) as u8)
        ^ passed(14, (near >> 8 & 0xFF) as u8)
        ^ passed(13, (near >> 16 & 0xFF) as u8)
        ^ passed(12, (near >> 24) as u8);
    first ^ late
}

/// The state after four bytes.
fn add_word(state: u32, word: &[u8; 4]) -> u32
    ensures { result ≡ crc_fold state word.now }
{
    let near = u32::from_le_bytes(*word) ^ state;
    passed(3, (near & 0xFF) as u8)
        ^ passed(2, (near >> 8 & 0xFF) as u8)
        ^ passed(1, (near >> 16 & 0xFF) as u8)
        ^ passed(0, (near >> 24) as u8)
}

fn add_words(state: u32, bytes: &[u8]) -> u32
    ensures { result ≡ crc_fold state bytes.now }
{
    let (words, rest) = bytes.as_chunks::<4>();
    let mut state = state;
    for word in words {
        state = add_word(state, word);
    }
    add_bytes(state, rest)
}

/// The state after more bytes.
pub fn add_chunks(state: u32, bytes: &[u8]) -> u32
    ensures { result ≡ crc_fold state bytes.now }
{
    let (chunks, rest) = bytes.as_chunks::<16>();
    let mut state = state;
    for chunk in chunks {
        state = add_chunk(state, chunk);
    }
    add_words(state, rest)
}
