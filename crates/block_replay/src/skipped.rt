//! The names of blocks whose change was skipped.

ghost use Rattle.std.specs.Prelude.{◌≡◌, [], OnOk, OnErr};
ghost use Rattle.block_refs.specs.Parts.{ArePartsOf};
ghost use Rattle.block_replay.specs.World.{least_name, with_name, without_gone};

use block_effects::is_gone;
use block_refs::{BlockName, Parts};
use cluster_tree::OutOfMemory;
use std::alloc::Global;
use std::collections::BTreeSet;
use std::marker::Model;
use wal_records::Record;

/// The names of blocks whose change was skipped, since they had no page: what is left of them at the
/// log's end is missing. Each stands once, in the order of names.
#[derive(Drop)]
pub struct Skipped {
    names: BTreeSet<BlockName>,
}

impl Model for Skipped {
    ghost use Rattle.std.specs.Prelude.{List};
    ghost use Rattle.block_refs.specs.declared.names.BlockName.{BlockName};

    ghost Value = { List BlockName };

    ghost view = { λ s. s.names.keys };
}

impl Skipped {
    /// No name.
    pub fn new(alloc: Global) -> Skipped
        ensures { result ≡ [] }
    {
        Skipped {
            names: BTreeSet::new(alloc),
        }
    }

    /// Adds a name, which may be there. Without memory all stays as it was.
    pub fn add(&mut self, name: BlockName) -> Result<(), OutOfMemory>
        ensures ok { OnOk result (self.new ≡ with_name name self.old) }
        ensures err { OnErr result (self.new ≡ self.old) }
    {
        self.names.insert(name)?;
        Ok(())
    }

    /// Drops the names of blocks that a record takes away. The parts have to be those of the record.
    pub fn forget(&mut self, rec: &Record, parts: &Parts)
        requires parts { ArePartsOf rec.now parts.now }
        ensures { self.new ≡ without_gone rec.now parts.now self.old }
    {
        self.names.retain(|name| !is_gone(rec, parts, *name));
    }

    /// The least name, or `None` where there is none.
    pub fn least(&self) -> Option<BlockName>
        ensures { result ≡ least_name self.now }
    {
        self.names.first().copied()
    }
}
