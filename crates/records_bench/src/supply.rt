//! The records that are written.

use std::alloc::{AllocError, Global};
use wal_records::Record;

/// How many bytes the bodies are taken from.
const POOL: usize = 16_384;

/// What is appended as one record.
#[derive(Clone, Copy)]
pub struct New<'a> {
    pub xid: u32,
    pub info: u8,
    pub manager: u8,
    pub body: &'a [u8],
}

impl New<'_> {
    /// Whether this was read.
    pub fn is(&self, read: &Record) -> bool {
        let header = read.header();
        header.xid == self.xid
            && header.info == self.info
            && header.manager == self.manager
            && read.body() == self.body
    }
}

/// The bodies of records: parts of bytes of a linear congruential generator.
#[derive(Drop)]
pub struct Supply {
    pool: Vec<u8>,
}

impl Supply {
    /// The same bytes in every run.
    pub fn new(alloc: Global) -> Result<Supply, AllocError> {
        let mut pool = Vec::new(alloc);
        let mut state = 1u64;
        for _ in 0..POOL {
            state = state
                .wrapping_mul(6_364_136_223_846_793_005)
                .wrapping_add(1_442_695_040_888_963_407);
            pool.push((state >> 56) as u8)?;
        }
        Ok(Supply { pool })
    }

    /// The record of a number: 30 to 229 bytes of body, and every sixteenth one with a page more.
    pub fn record(&self, number: u32) -> New<'_> {
        let from = (number % 4001) as usize;
        let page = if number % 16 == 15 { 8192 } else { 0 };
        let size = 30 + (number % 200) as usize + page;
        New {
            xid: 700 + number % 1000,
            info: (number % 8 * 16) as u8,
            manager: if number % 4 == 0 { 11 } else { 10 },
            body: self.pool.get(from..from + size).unwrap_or(&[]),
        }
    }
}
