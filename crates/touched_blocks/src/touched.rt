//! A set of blocks.

ghost use Rattle.std.specs.Prelude.{◌≡◌, ◌+◌, [], ◌∷◌, ℕ, length, OnOk, OnErr};
ghost use Rattle.std.specs.List.Sorted.{IsStrictlySortedBy};
ghost use Rattle.std.specs.Map.{keys_of};
ghost use Rattle.std.specs.Ordering.{nat_cmp};
ghost use Rattle.touched_blocks.specs.Set.{Adds, has_in, rel_cmp, run_cmp};
ghost use Rattle.touched_blocks.specs.declared.named.Named.TheVariants as named;

use crate::marks::{Chunks, Cuts, RunKey, add_database, cut, has_bit, is_behind, set_bit};
use crate::named::Named;
use block_refs::RelName;
use std::alloc::{AllocError, Global};
use std::collections::{BTreeMap, BTreeSet};
use std::marker::Model;

/// How many blocks a run has: as many as a chunk has bits.
const RUN: u32 = 65_536;

/// A set of blocks of main forks: a bit for each in chunks of 65,536 bits, one for each run of a
/// relation of which a block is there; one cut for each relation from which every block on is
/// there; and the databases of which every block of every relation is.
#[derive(Drop)]
pub struct Touched {
    alloc: Global,
    chunks: Chunks,
    cuts: Cuts,
    databases: BTreeSet<u32>,
}

impl Model for Touched {
    ghost use Rattle.touched_blocks.specs.Set.{TouchedView};

    ghost Value = { TouchedView };

    ghost view = { λ t. record {
      chunks = t.chunks.entries;
      cuts = t.cuts.entries;
      databases = t.databases.keys;
    } };
}

impl Touched {
    /// A set without a block.
    pub fn new(alloc: Global) -> Touched
        ensures { result ≡ record { chunks = []; cuts = []; databases = [] } }
    {
        Touched {
            alloc,
            chunks: BTreeMap::new(alloc),
            cuts: BTreeMap::new(alloc),
            databases: BTreeSet::new(alloc),
        }
    }

    /// Whether a block of a relation's main fork is there.
    pub fn has(&self, rel: RelName, block: u32) -> bool
        ensures { result ≡ has_in self.now rel block }
    {
        let run = block / RUN;
        let at = (block % RUN) as u16;
        has_bit(&self.chunks, RunKey { rel, run }, at)
            || is_behind(&self.cuts, rel, block)
            || self.databases.contains(&rel.database)
    }

    /// How many chunks of 65,536 bits there are: at most one for each run of a relation.
    pub fn chunk_count(&self) -> usize
        ensures value { result ≡ length self.now.chunks }
        ensures each_once { IsStrictlySortedBy run_cmp (keys_of self.now.chunks) }
    {
        self.chunks.len()
    }

    /// How many cuts there are: at most one for each relation.
    pub fn cut_count(&self) -> usize
        ensures value { result ≡ length self.now.cuts }
        ensures each_once { IsStrictlySortedBy rel_cmp (keys_of self.now.cuts) }
    {
        self.cuts.len()
    }

    /// How many databases there are of which every block is there, each once.
    pub fn database_count(&self) -> usize
        ensures value { result ≡ length self.now.databases }
        ensures each_once { IsStrictlySortedBy nat_cmp self.now.databases }
    {
        self.databases.len()
    }

    /// Adds a block. After an error the set is as it was.
    fn add_block(&mut self, rel: RelName, block: u32) -> Result<(), AllocError>
        ensures added { OnOk result (Adds (named.OneBlock rel block ∷ []) self.old self.new) }
        ensures kept { OnErr result (self.new ≡ self.old) }
    {
        let run = block / RUN;
        let at = (block % RUN) as u16;
        set_bit(self.alloc, &mut self.chunks, RunKey { rel, run }, at)
    }

    /// Adds each block of a relation from one on. After an error the set is as it was.
    fn add_from(&mut self, rel: RelName, from: u32) -> Result<(), AllocError>
        ensures added { OnOk result (Adds (named.BlocksFrom rel from ∷ []) self.old self.new) }
        ensures kept { OnErr result (self.new ≡ self.old) }
    {
        cut(&mut self.cuts, rel, from)
    }

    /// Adds each block of a database. After an error the set is as it was.
    fn add_all_of(&mut self, database: u32) -> Result<(), AllocError>
        ensures added { OnOk result (Adds (named.AllOf database ∷ []) self.old self.new) }
        ensures kept { OnErr result (self.new ≡ self.old) }
    {
        add_database(&mut self.databases, database)
    }

    /// Adds what is named. After an error the set is as it was.
    pub(crate) fn add(&mut self, named: Named) -> Result<(), AllocError>
        ensures added { OnOk result (Adds (named ∷ []) self.old self.new) }
        ensures kept { OnErr result (self.new ≡ self.old) }
    {
        match named {
            Named::OneBlock(rel, block) => self.add_block(rel, block),
            Named::BlocksFrom(rel, from) => self.add_from(rel, from),
            Named::AllOf(database) => self.add_all_of(database),
        }
    }
}
