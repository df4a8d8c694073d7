//! Bytes that go on in zeros, over which more are written.

ghost use Rattle.std.specs.Prelude.{◌≡◌, ◌+◌, ◌-◌, ◌≤◌, ◌++◌, [], length, replicate, OnOk, OnErr};
ghost use Rattle.layout.specs.Splice.{splice};
ghost use Rattle.wal_records.specs.Zeros.{with_bytes};

use std::alloc::{AllocError, Global};
use std::marker::Model;

/// Bytes, with zeros behind them in which the next ones are written.
#[derive(Drop)]
pub struct ZeroEnded {
    bytes: Vec<u8>,
    used: usize,
}

impl Model for ZeroEnded {
    ghost use Rattle.std.specs.Prelude.{◌≡◌, ◌≤◌, ◌-◌, ◌++◌, length, take, replicate};
    ghost use Rattle.wal_records.specs.Zeros.{ZeroEnded as ZeroEndedView};

    ghost Value = { ZeroEndedView };

    ghost view = { λ z. record {
      bytes = take z.used z.bytes.items;
      zeros = length z.bytes.items - z.used;
    } };

    ghost invariant = { λ z. (z.used ≤ length z.bytes.items) × (z.bytes.items
        ≡ take z.used z.bytes.items ++ replicate (length z.bytes.items - z.used) 0) };
}

/// Writes bytes at an offset, over what stood there.
#[tactic(auto, unfolding(layout::specs::Splice::splice))]
fn put(into: &mut [u8], at: usize, bytes: &[u8])
    requires room { at + length bytes.now ≤ length into.old }
    ensures { into.new ≡ splice into.old at bytes.now }
{
    into[at..at + bytes.len()].copy_from_slice(bytes);
}

impl ZeroEnded {
    /// No bytes, and no zeros.
    pub fn new(alloc: Global) -> ZeroEnded
        ensures { result ≡ record { bytes = []; zeros = 0 } }
    {
        ZeroEnded {
            bytes: Vec::new(alloc),
            used: 0,
        }
    }

    /// The bytes and the zeros.
    pub fn as_slice(&self) -> &[u8]
        ensures { result.now ≡ self.now.bytes ++ replicate self.now.zeros 0 }
    {
        &self.bytes
    }

    /// How many bytes there are, without the zeros.
    pub fn len(&self) -> usize
        ensures { result ≡ length self.now.bytes }
    {
        self.used
    }

    /// Adds zeros, so that there are so many bytes and zeros in all. Nothing is changed where there
    /// is no memory.
    pub fn grow(&mut self, size: usize) -> Result<(), AllocError>
        requires { length self.old.bytes + self.old.zeros ≤ size }
        ensures ok { OnOk result (self.new ≡ record {
          bytes = self.old.bytes;
          zeros = size - length self.old.bytes;
        }) }
        ensures err { OnErr result (self.new ≡ self.old) }
    {
        self.bytes.resize(size, 0)
    }

    /// Writes bytes over the first of the zeros.
    pub fn add(&mut self, bytes: &[u8])
        requires room { length bytes.now ≤ self.old.zeros }
        ensures { self.new ≡ with_bytes self.old bytes.now }
    {
        put(&mut self.bytes, self.used, bytes);
        self.used += bytes.len();
    }

    /// Takes so many zeros for bytes.
    pub fn pass(&mut self, count: usize)
        requires room { count ≤ self.old.zeros }
        ensures { self.new ≡ with_bytes self.old (replicate count 0) }
    {
        self.used += count;
    }
}
