//! CRC-32C of bytes that come in pieces.

ghost use Rattle.std.specs.Prelude.{◌≡◌, ℕ, bit_xor, List, [], ◌++◌};
ghost use Rattle.wal_base.specs.Crc.{crc_fold, crc_start, crc32c};

use crate::folding::add_all;
use std::marker::Model;

/// The CRC-32C of the bytes added so far; contracts see its state, a number below 2^32.
#[derive(Debug, Drop)]
pub struct Crc32c {
    state: u32,
}

impl Model for Crc32c {
    ghost Value = { ℕ };

    ghost view = { λ c. c.state };
}

impl Crc32c {
    /// The CRC of no bytes.
    #[tactic(auto, unfolding(crate::specs::Crc::crc_fold))]
    pub fn new() -> Crc32c
        ensures { result ≡ crc_fold crc_start [] }
    {
        Crc32c { state: u32::MAX }
    }

    /// Adds `bytes` after those added so far.
    pub fn add(&mut self, bytes: &[u8])
        ensures is { self.new ≡ crc_fold self.old bytes.now }
        ensures more { (start : ℕ) (before : List ℕ) → self.old ≡ crc_fold start before →
            self.new ≡ crc_fold start (before ++ bytes.now) }
    {
        self.state = add_all(self.state, bytes);
    }

    /// The checksum of all bytes added.
    #[tactic(auto, unfolding(crate::specs::Crc::crc32c))]
    pub fn value(&self) -> u32
        ensures is { result ≡ bit_xor self.now crc_start }
        ensures sum { (bytes : List ℕ) → self.now ≡ crc_fold crc_start bytes → result ≡ crc32c bytes }
    {
        self.state ^ u32::MAX
    }
}
