//! The parts of a record.

ghost use Rattle.std.specs.Prelude.{◌≡◌, ◌≤◌, ◌+◌, ◌<◌, ◌^◌, None, Some, length, option_map, MatchOption, OnErr};
ghost use Rattle.std.specs.List.{slice_get};
ghost use Rattle.block_refs.specs.Parts.{ArePartsOf, no_parts, parts_of};
ghost use Rattle.block_refs.specs.Bytes.{bytes_at, block_with, block_bytes, main_bytes, image_total};
ghost use Rattle.block_refs.specs.Outcomes.{MeetsIn, told};

use crate::block_ref::BlockRef;
use crate::fault::PartsFault;
use crate::placed::{Blocks, Placed};
use crate::reading::read_blocks;
use std::marker::Model;
use wal_base::Lsn;
use wal_records::Record;

/// The parts of a record: where they stand in its body, of which nothing is copied.
#[derive(Debug, Drop)]
pub struct Parts {
    start: usize,
    blocks: Blocks,
    main: usize,
}

impl Model for Parts {
    ghost use Rattle.std.specs.Prelude.{◌<◌, ◌^◌};
    ghost use Rattle.block_refs.specs.Bytes.{image_total};
    ghost use Rattle.block_refs.specs.Parts.{PartsView};

    ghost Value = { PartsView };

    ghost view = { λ p. record { start = p.start; blocks = p.blocks.items; main = p.main } };

    ghost invariant = { λ p. image_total p.blocks.items < 2 ^ 32 };
}

impl Parts {
    /// No parts.
    pub fn new() -> Parts
        ensures value { result ≡ no_parts }
    {
        Parts {
            start: 0,
            blocks: Blocks::new(),
            main: 0,
        }
    }

    /// Reads the parts of the body of a record at `start`, in place of what is there. After an error
    /// there are none.
    pub(crate) fn read(&mut self, start: Lsn, body: &[u8]) -> Result<(), PartsFault>
        requires small { length body.now < 2 ^ 31 }
        ensures exact { MeetsIn (told start (parts_of body.now)) self.new result }
        ensures none { OnErr result (self.new ≡ no_parts) }
    {
        match read_blocks(start, body, &mut self.blocks) {
            Ok(bounds) => {
                self.start = bounds.start;
                self.main = bounds.main;
                Ok(())
            }
            Err(fault) => {
                self.start = 0;
                self.blocks.clear();
                self.main = 0;
                Err(fault)
            }
        }
    }

    /// How many block references there are, 33 at most.
    pub fn count(&self) -> usize
        ensures value { result ≡ length self.now.blocks }
        ensures most { result ≤ 33 }
    {
        self.blocks.len()
    }

    /// The block reference at a place from 0 on, in the order of the record, which is that of their
    /// ids, or `None` at `count` and past it.
    pub fn get(&self, at: usize) -> Option<BlockRef>
        ensures value { result ≡ option_map (λ placed. placed.block) (slice_get self.now.blocks at) }
    {
        self.blocks.get(at).map(|placed| placed.block)
    }

    /// The block reference with an id, or `None` where there is none.
    pub fn block(&self, id: u8) -> Option<BlockRef>
        ensures value { result ≡ option_map (λ placed. placed.block) (block_with id self.now.blocks) }
    {
        self.find(id).map(|placed| placed.block)
    }

    /// Where the block with an id stands, counted from the end of the headers.
    pub(crate) fn find(&self, id: u8) -> Option<Placed>
        ensures value { result ≡ block_with id self.now.blocks }
    {
        self.blocks
            .iter()
            .copied()
            .find(|placed| placed.block.id == id)
    }

    /// So many bytes of the record from a place on, counted from the end of the headers.
    pub(crate) fn bytes_at<'a>(&self, rec: &'a Record, at: usize, size: usize) -> &'a [u8]
        requires { self.now.start + (at + size) ≤ length rec.now.body }
        ensures value { result.now ≡ bytes_at rec.now.body (self.now.start + at) size }
        ensures size { length result.now ≡ size }
    {
        let body = rec.body();
        let from = self.start + at;
        &body[from..from + size]
    }

    /// The bytes of the block with an id, without its image, or `None` where no reference has the
    /// id. The parts have to be those of the record.
    pub fn block_bytes<'a>(&self, rec: &'a Record, id: u8) -> Option<&'a [u8]>
        requires parts { ArePartsOf rec.now self.now }
        ensures value { MatchOption result (block_bytes rec.now.body self.now id ≡ None)
            (λ bytes. block_bytes rec.now.body self.now id ≡ Some bytes.now) }
    {
        let Some(placed) = self.find(id) else {
            return None;
        };
        Some(self.bytes_at(rec, placed.at, usize::from(placed.size)))
    }

    /// The main bytes, of which there may be none. The parts have to be those of the record.
    #[tactic(auto, using(crate::proofs::PlaceLemmas::main_stands))]
    pub fn main_bytes<'a>(&self, rec: &'a Record) -> &'a [u8]
        requires parts { ArePartsOf rec.now self.now }
        ensures value { result.now ≡ main_bytes rec.now.body self.now }
    {
        &rec.body()[self.main..]
    }

    /// How many bytes of the record its images have.
    pub fn image_total(&self) -> u32
        ensures value { result ≡ image_total self.now.blocks }
    {
        self.blocks
            .iter()
            .map(|placed| placed.block.image_size())
            .sum()
    }
}
