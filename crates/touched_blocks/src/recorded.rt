//! Records that are added to a set.

ghost use Rattle.std.specs.Prelude.{◌≡◌, ◌||◌, ◌⊎◌, ℕ, ◌++◌, Ok, Err, MatchResult, OnOk, OnErr, is_ok, true};
ghost use Rattle.std.specs.List.{flat_map};
ghost use Rattle.block_refs.specs.Parts.{ArePartsOf};
ghost use Rattle.block_refs.specs.declared.names.RelName.{RelName};
ghost use Rattle.touched_blocks.specs.FieldNames.{names_of_fields};
ghost use Rattle.touched_blocks.specs.Named.{named_if_there, whole_rel};
ghost use Rattle.touched_blocks.specs.Set.{Adds, AddsFirst, has_in};
ghost use Rattle.touched_blocks.specs.Touched.{named_by_block, named_by_references, names_block, names_of, names_or_none, unknown};
ghost use Rattle.touched_blocks.specs.declared.fault.TouchFault.{TouchFault};
ghost use Rattle.touched_blocks.specs.declared.fault.TouchFault.TheVariants as fault;

use crate::fault::TouchFault;
use crate::fields::{Fields, fields_of, is_kind};
use crate::named::Named;
use crate::touched::Touched;
use block_refs::{BlockName, BlockRef, Fork, Parts, RelName};
use record_layouts::{Items, Operation};
use std::alloc::AllocError;
use wal_records::Record;

/// The fault of a record that isn't known.
fn unknown(rec: &Record) -> TouchFault
    ensures { result ≡ unknown rec.now }
{
    let header = rec.header();
    TouchFault::UnknownSpecial(rec.start(), header.manager, header.info)
}

/// What a record names by its fields, or that it isn't known.
fn read_fields<'a>(rec: &'a Record, parts: &Parts) -> Result<Fields<'a>, TouchFault>
    requires parts { ArePartsOf rec.now parts.now }
    ensures { MatchResult result
        (λ fields. names_of rec.now parts.now
        ≡ Ok (named_by_references parts.now.blocks ++ names_of_fields fields))
        (λ e. names_of rec.now parts.now ≡ Err e) }
{
    let header = rec.header();
    let op = Operation::of(header.manager, header.info);
    if header.info & 1 != 0 && !is_kind(op) {
        return Err(unknown(rec));
    }
    fields_of(op, parts.main_bytes(rec)).ok_or(unknown(rec))
}

impl Touched {
    /// Adds a block that is referenced, where it is one of a main fork.
    fn add_reference(&mut self, name: BlockName) -> Result<(), AllocError>
        ensures added { OnOk result (Adds (named_by_block name) self.old self.new) }
        ensures kept { OnErr result (self.new ≡ self.old) }
    {
        match name.fork {
            Fork::Main => self.add(Named::OneBlock(name.rel, name.block)),
            Fork::FreeSpace | Fork::Visibility | Fork::Init => Ok(()),
        }
    }

    /// Adds the block of a reference, if there is one.
    fn add_referenced(&mut self, block: Option<BlockRef>) -> Result<(), AllocError>
        ensures added { OnOk result
            (Adds (named_if_there (λ block. named_by_block block.name) block) self.old self.new) }
        ensures kept { OnErr result (self.new ≡ self.old) }
    {
        match block {
            Some(block) => self.add_reference(block.name),
            None => Ok(()),
        }
    }

    /// Adds a relation whole, if there is one.
    fn add_relation(&mut self, rel: Option<RelName>) -> Result<(), AllocError>
        ensures added { OnOk result (Adds (named_if_there whole_rel rel) self.old self.new) }
        ensures kept { OnErr result (self.new ≡ self.old) }
    {
        match rel {
            Some(rel) => self.add(Named::BlocksFrom(rel, 0)),
            None => Ok(()),
        }
    }

    /// Adds the blocks that a record references.
    fn add_references(&mut self, parts: &Parts) -> Result<(), AllocError>
        ensures added { OnOk result (Adds (named_by_references parts.now.blocks) self.old self.new) }
        ensures first { OnErr result (AddsFirst (named_by_references parts.now.blocks) self.old self.new) }
    {
        for at in 0..parts.count() {
            self.add_referenced(parts.get(at))?;
        }
        Ok(())
    }

    /// Adds relations, each whole.
    fn add_relations(&mut self, rels: &Items<'_, RelName>) -> Result<(), AllocError>
        ensures added { OnOk result (Adds (flat_map whole_rel rels.now) self.old self.new) }
        ensures first { OnErr result (AddsFirst (flat_map whole_rel rels.now) self.old self.new) }
    {
        for at in 0..rels.len() {
            self.add_relation(rels.get(at))?;
        }
        Ok(())
    }

    /// Adds what the fields of a record name.
    fn add_fields(&mut self, fields: &Fields<'_>) -> Result<(), AllocError>
        ensures added { OnOk result (Adds (names_of_fields fields.now) self.old self.new) }
        ensures first { OnErr result (AddsFirst (names_of_fields fields.now) self.old self.new) }
    {
        match fields {
            Fields::Nothing => Ok(()),
            Fields::One(named) => self.add(*named),
            Fields::Whole(rels) => self.add_relations(rels),
        }
    }

    /// Adds what references name, and then fields.
    fn add_names(&mut self, parts: &Parts, fields: &Fields<'_>) -> Result<(), AllocError>
        ensures added { OnOk result
            (Adds (named_by_references parts.now.blocks ++ names_of_fields fields.now) self.old self.new) }
        ensures first { OnErr result
            (AddsFirst (named_by_references parts.now.blocks ++ names_of_fields fields.now) self.old self.new) }
    {
        self.add_references(parts)?;
        self.add_fields(fields)
    }

    /// Adds what a record names (`extractPageInfo`): each block of a main fork that it references;
    /// of a truncation of the main fork each block from the cut on; each block of a relation that
    /// is made, and of those that the end of a transaction drops; and each block of a database that
    /// is made or dropped. The parts have to be those of the record.
    ///
    /// Answers `UnknownSpecial` where the record changes relations without references
    /// (`XLR_SPECIAL_REL_UPDATE`) and is of none of these kinds, and where it is of one of them and
    /// its fields aren't whole; then nothing is added. Without memory some first names were added.
    pub fn add_record(&mut self, rec: &Record, parts: &Parts) -> Result<(), TouchFault>
        requires parts { ArePartsOf rec.now parts.now }
        // It is known exactly where its names are; only want of memory is free beside that.
        ensures told { MatchResult result
            (λ _. is_ok (names_of rec.now parts.now) ≡ true)
            (λ e. MatchResult (names_of rec.now parts.now) (λ _. e ≡ fault.OutOfMemory) (λ f. e ≡ f)) }
        ensures kept { (e : TouchFault) → names_of rec.now parts.now ≡ Err e → self.new ≡ self.old }

        // Each block is there that was, or that the record names; and no others.
        ensures added { OnOk result ((rel : RelName) (block : ℕ) →
            has_in self.new rel block ≡ (has_in self.old rel block || names_block rec.now rel block)) }
        // Chunks, cuts and databases are there for what is named alone.
        ensures bound { OnOk result
            (Adds (names_or_none (names_of rec.now parts.now)) self.old self.new) }
        ensures partly { OnErr result
            (AddsFirst (names_or_none (names_of rec.now parts.now)) self.old self.new) }
    {
        let fields = read_fields(rec, parts)?;
        self.add_names(parts, &fields)?;
        Ok(())
    }
}
