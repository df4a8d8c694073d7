//! What a record takes away.

ghost use Rattle.std.specs.Prelude.{◌≡◌, OnOk, false};
ghost use Rattle.std.specs.List.{list_any, slice_get};
ghost use Rattle.std.specs.Option.{option_map_or};
ghost use Rattle.block_refs.specs.Parts.{ArePartsOf};
ghost use Rattle.replay_profile.specs.Names.{is_rel};
ghost use Rattle.block_effects.specs.Gone.{gone_by, gone_by_database, gone_by_end, gone_by_storage, is_cut, is_gone};
ghost use Rattle.first_effects.specs.Taken.{Takes};

use crate::taken::Taken;
use block_refs::{Parts, RelName};
use record_layouts::{
    DatabaseDrop, DatabaseOp, Items, Operation, StorageOp, StorageTruncate, TransactionEnd,
    TransactionOp,
};
use std::alloc::AllocError;
use wal_records::Record;

/// The flag of a truncation that cuts the main fork (`SMGR_TRUNCATE_HEAP`).
const CUTS_MAIN: u32 = 1;

impl Taken {
    /// Adds what a truncation takes.
    fn add_cut(&mut self, cut: StorageTruncate) -> Result<(), AllocError>
        ensures { OnOk result (Takes (λ name. is_cut name cut) self.old self.new) }
    {
        if cut.flags & CUTS_MAIN == 0 {
            return Ok(());
        }
        self.add_from(cut.rel, cut.blocks)
    }

    /// Adds the relation at a place of a list.
    fn add_dropped_at(&mut self, rels: &Items<'_, RelName>, at: usize) -> Result<(), AllocError>
        ensures { OnOk result (Takes (λ name. option_map_or (λ rel. is_rel rel name.rel)
            (slice_get rels.now at) false) self.old self.new) }
    {
        match rels.get(at) {
            Some(rel) => self.add_from(rel, 0),
            None => Ok(()),
        }
    }

    /// Adds relations.
    fn add_dropped(&mut self, rels: &Items<'_, RelName>) -> Result<(), AllocError>
        ensures { OnOk result
            (Takes (λ name. list_any (λ rel. is_rel rel name.rel) rels.now) self.old self.new) }
    {
        for at in 0..rels.len() {
            self.add_dropped_at(rels, at)?;
        }
        Ok(())
    }

    fn add_by_storage(&mut self, op: StorageOp, main: &[u8]) -> Result<(), AllocError>
        ensures { OnOk result (Takes (gone_by_storage op main.now) self.old self.new) }
    {
        match op {
            StorageOp::Truncate => match StorageTruncate::read(main) {
                Some(cut) => self.add_cut(cut),
                None => Ok(()),
            },
            _ => Ok(()),
        }
    }

    fn add_by_end(&mut self, op: TransactionOp, main: &[u8]) -> Result<(), AllocError>
        ensures { OnOk result (Takes (gone_by_end op main.now) self.old self.new) }
    {
        match op {
            TransactionOp::End {
                outcome,
                has_xinfo,
                ..
            } => match TransactionEnd::read(outcome, has_xinfo, main) {
                Some(end) => self.add_dropped(&end.dropped),
                None => Ok(()),
            },
            _ => Ok(()),
        }
    }

    fn add_by_database(&mut self, op: DatabaseOp, main: &[u8]) -> Result<(), AllocError>
        ensures { OnOk result (Takes (gone_by_database op main.now) self.old self.new) }
    {
        match op {
            DatabaseOp::Drop => match DatabaseDrop::read(main) {
                Some(gone) => self.add_database(gone.database),
                None => Ok(()),
            },
            _ => Ok(()),
        }
    }

    fn add_by(&mut self, op: Operation, main: &[u8]) -> Result<(), AllocError>
        ensures { OnOk result (Takes (gone_by op main.now) self.old self.new) }
    {
        match op {
            Operation::Storage(op) => self.add_by_storage(op, main),
            Operation::Transaction(op) => self.add_by_end(op, main),
            Operation::Database(op) => self.add_by_database(op, main),
            _ => Ok(()),
        }
    }

    /// Adds the blocks that a record takes away.
    pub(crate) fn add_record(&mut self, rec: &Record, parts: &Parts) -> Result<(), AllocError>
        requires parts { ArePartsOf rec.now parts.now }
        ensures { OnOk result (Takes (is_gone rec.now parts.now) self.old self.new) }
    {
        let header = rec.header();
        let op = Operation::of(header.manager, header.info);
        self.add_by(op, parts.main_bytes(rec))
    }
}
