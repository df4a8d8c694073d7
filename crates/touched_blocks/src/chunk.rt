//! Bits of a run of blocks.

ghost use Rattle.std.specs.Prelude.{◌≡◌, ◌<◌, ◌||◌, ◌==◌, ℕ, IfOk, replicate};
ghost use Rattle.std.specs.Int.{bit_at};
ghost use Rattle.touched_blocks.specs.Chunk.{is_set};

use std::alloc::{AllocError, Global};
use std::marker::Model;

/// How many bytes a chunk has.
const BYTES: usize = 8192;

/// A fixed array of 65,536 bits.
#[derive(Drop)]
pub(crate) struct Chunk {
    bytes: Box<[u8; BYTES]>,
}

impl Model for Chunk {
    ghost use Rattle.std.specs.Prelude.{List, ℕ};

    ghost Value = { List ℕ };

    ghost view = { λ chunk. chunk.bytes.value };
}

/// A byte with one more bit.
fn with_bit(byte: u8, bit: u32) -> u8
    requires { bit < 8 }
    ensures { (i : ℕ) → bit_at result i == 1 ≡ (bit_at byte i == 1 || bit == i) }
{
    byte | (1 << bit)
}

/// Sets a bit of an array.
fn set_in(bytes: &mut [u8; BYTES], at: u16)
    ensures { (i : ℕ) → is_set bytes.new i ≡ (is_set bytes.old i || at == i) }
{
    let byte = usize::from(at / 8);
    bytes[byte] = with_bit(bytes[byte], u32::from(at % 8));
}

impl Chunk {
    /// One bit.
    pub(crate) fn of(alloc: Global, at: u16) -> Result<Chunk, AllocError>
        ensures { IfOk result (λ chunk. (i : ℕ) → is_set chunk i ≡ at == i) }
    {
        let mut bytes = [0; BYTES];
        set_in(&mut bytes, at);
        let bytes = Box::new(alloc, bytes)?;
        Ok(Chunk { bytes })
    }

    /// Sets a bit.
    pub(crate) fn set(&mut self, at: u16)
        ensures { (i : ℕ) → is_set self.new i ≡ (is_set self.old i || at == i) }
    {
        set_in(&mut self.bytes, at);
    }

    /// Whether a bit is set.
    pub(crate) fn has(&self, at: u16) -> bool
        ensures { result ≡ is_set self.now at }
    {
        let byte = self.bytes[usize::from(at / 8)];
        byte >> (at % 8) & 1 == 1
    }
}
