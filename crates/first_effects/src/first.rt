//! The first effects of a log's records on blocks.

ghost use Rattle.std.specs.Prelude.{◌≡◌, ◌||◌, List, Bool, Option, [], None, true, false, OnOk, OnErr};
ghost use Rattle.std.specs.List.{slice_get};
ghost use Rattle.std.specs.Option.{option_map_or};
ghost use Rattle.block_refs.specs.Parts.{ArePartsOf};
ghost use Rattle.block_refs.specs.declared.names.BlockName.{BlockName};
ghost use Rattle.block_effects.specs.Gone.{is_main};
ghost use Rattle.block_effects.specs.Lives.{Split};
ghost use Rattle.replay_profile.specs.Names.{are_known, is_block};
ghost use Rattle.rmgr_hooks.specs.Custom.{Extension, handed_in};
ghost use Rattle.first_effects.specs.First.{IsLeastChanged, IsLeastOf, IsOneOf, is_changed};
ghost use Rattle.first_effects.specs.Gathered.{Follows, is_known, with_record};
ghost use Rattle.first_effects.specs.References.{Gathers, changed_by, changes, is_changed_anew, lesser, meets, met_by};

use crate::taken::Taken;
use block_refs::{BlockName, BlockRef, Fork, Parts};
use cluster_tree::OutOfMemory;
use record_effects::{Act, act_on};
use rmgr_hooks::Manager;
use std::alloc::Global;
use std::collections::BTreeSet;
use std::marker::Model;
use wal_records::Record;

/// Whether a fork is the main one.
fn is_main(fork: Fork) -> bool
    ensures { result ≡ is_main fork }
{
    match fork {
        Fork::Main => true,
        _ => false,
    }
}

/// The lesser one of a block that may be missing and another.
fn lesser(least: Option<BlockName>, name: BlockName) -> BlockName
    ensures { result ≡ lesser least name }
{
    match least {
        None => name,
        Some(least) if name < least => name,
        Some(least) => least,
    }
}

/// What is gathered of a log, a record at a time: the blocks of main forks on which it has an
/// effect, and the least of those whose first effect is a change of the page that stood there.
#[derive(Drop)]
pub struct FirstEffects {
    met: BTreeSet<BlockName>,
    taken: Taken,
    least: Option<BlockName>,
}

impl Model for FirstEffects {
    ghost use Rattle.first_effects.specs.Gathered.{FirstView};

    ghost Value = { FirstView };

    ghost view = { λ f. record { met = f.met.keys; taken = f.taken; least = f.least } };
}

impl FirstEffects {
    /// What is gathered of the empty log.
    pub fn new(alloc: Global) -> FirstEffects
        ensures { (custom : Option Extension) → Follows custom [] result }
    {
        FirstEffects {
            met: BTreeSet::new(alloc),
            taken: Taken::new(alloc),
            least: None,
        }
    }

    /// Whether a block of a main fork was met or taken away.
    fn is_known(&self, name: BlockName) -> bool
        ensures { result ≡ is_known name self.now }
    {
        self.met.contains(&name) || self.taken.has(name)
    }

    /// Keeps in mind that a block has an effect.
    fn meet(&mut self, name: BlockName) -> Result<(), OutOfMemory>
        ensures ok { OnOk result
            (Gathers (λ q. is_block q name) (λ _. false) self.old self.new) }
        ensures err { OnErr result (self.new.least ≡ self.old.least) }
    {
        self.met.insert(name)?;
        Ok(())
    }

    /// Keeps in mind that a block of a main fork is changed.
    fn change(&mut self, name: BlockName) -> Result<(), OutOfMemory>
        requires main { is_main name.fork ≡ true }
        ensures ok { OnOk result
            (Gathers (λ q. is_block q name) (λ q. is_block q name) self.old self.new) }
        ensures err { OnErr result (self.new.least ≡ self.old.least) }
    {
        if self.is_known(name) {
            return Ok(());
        }
        self.met.insert(name)?;
        self.least = Some(lesser(self.least, name));
        Ok(())
    }

    /// Adds what a record does to the block of a reference.
    fn add_block<M: Manager>(
        &mut self,
        rec: &Record,
        parts: &Parts,
        block: &BlockRef,
        custom: Option<&M>,
    ) -> Result<(), OutOfMemory>
        requires parts { ArePartsOf rec.now parts.now }
        ensures ok { OnOk result (Gathers
            (λ q. meets (handed_in M.Manager custom.entry) rec.now parts.now q block.now)
            (λ q. changes (handed_in M.Manager custom.entry) rec.now parts.now q block.now)
            self.old self.new) }
        ensures err { OnErr result (self.new.least ≡ self.old.least) }
    {
        if !is_main(block.name.fork) {
            return Ok(());
        }
        match act_on(rec, parts, block, custom) {
            Act::Nothing | Act::MapPage | Act::Gone => Ok(()),
            Act::Image | Act::Make => self.meet(block.name),
            Act::Change => self.change(block.name),
        }
    }

    /// Adds what a record does to the block of the reference at a place, if there is one.
    fn add_at<M: Manager>(
        &mut self,
        rec: &Record,
        parts: &Parts,
        at: usize,
        custom: Option<&M>,
    ) -> Result<(), OutOfMemory>
        requires parts { ArePartsOf rec.now parts.now }
        ensures ok { OnOk result (Gathers
            (λ q. option_map_or (λ placed. meets (handed_in M.Manager custom.entry) rec.now
            parts.now q placed.block) (slice_get parts.now.blocks at) false)
            (λ q. option_map_or (λ placed. changes (handed_in M.Manager custom.entry) rec.now
            parts.now q placed.block) (slice_get parts.now.blocks at) false)
            self.old self.new) }
        ensures err { OnErr result (self.new.least ≡ self.old.least) }
    {
        match parts.get(at) {
            Some(block) => self.add_block(rec, parts, &block, custom),
            None => Ok(()),
        }
    }

    /// Adds what a record does to the blocks that it references.
    fn add_references<M: Manager>(
        &mut self,
        rec: &Record,
        parts: &Parts,
        custom: Option<&M>,
    ) -> Result<(), OutOfMemory>
        requires parts { ArePartsOf rec.now parts.now }
        requires known { are_known parts.now.blocks ≡ true }
        ensures ok { OnOk result (Gathers
            (met_by (handed_in M.Manager custom.entry) rec.now parts.now parts.now.blocks)
            (changed_by (handed_in M.Manager custom.entry) rec.now parts.now parts.now.blocks)
            self.old self.new) }
        ensures err { OnErr result ((is_it : BlockName → Bool) → IsLeastOf is_it self.old.least →
            IsOneOf (λ name. is_it name || is_changed_anew self.old
            (changed_by (handed_in M.Manager custom.entry) rec.now parts.now parts.now.blocks)
            name) self.new.least) }
    {
        for at in 0..parts.count() {
            self.add_at(rec, parts, at, custom)?;
        }
        Ok(())
    }

    /// Adds a record behind those that were added: the blocks of main forks on which it has an
    /// effect are known then, and `least_changed` tells of them too. The parts have to be those of
    /// the record, and each reference names a known block, none twice, as the profile of replay has
    /// it. The manager of an extension is the same for all records, or there is none.
    ///
    /// Answers `OutOfMemory` only for want of memory. A block that `least_changed` tells then is
    /// one that is changed first, by this record or before it; but it needn't be the least, and
    /// none may be told where there is one.
    pub fn add_record<M: Manager>(
        &mut self,
        rec: &Record,
        parts: &Parts,
        custom: Option<&M>,
    ) -> Result<(), OutOfMemory>
        requires parts { ArePartsOf rec.now parts.now }
        requires known { are_known parts.now.blocks ≡ true }
        ensures ok { OnOk result ((log : List Split) →
            Follows (handed_in M.Manager custom.entry) log self.old →
            Follows (handed_in M.Manager custom.entry)
            (with_record log rec.now parts.now) self.new) }
        ensures err { OnErr result ((log : List Split) →
            Follows (handed_in M.Manager custom.entry) log self.old →
            IsOneOf (is_changed (handed_in M.Manager custom.entry)
            (with_record log rec.now parts.now)) self.new.least) }
    {
        self.add_references(rec, parts, custom)?;
        self.taken.add_record(rec, parts)?;
        Ok(())
    }

    /// The least block of a main fork whose first effect in the log is a change of the page that
    /// stood there, by the order of blocks, or `None` where there is none.
    pub fn least_changed(&self) -> Option<BlockName>
        ensures value { result ≡ self.now.least }
        ensures least { (custom : Option Extension) (log : List Split) →
            Follows custom log self.now → IsLeastChanged custom log result }
    {
        self.least
    }
}
