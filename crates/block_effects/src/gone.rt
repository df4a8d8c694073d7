//! Blocks that a record takes away.

ghost use Rattle.std.specs.Prelude.{◌≡◌, false, slice_get};
ghost use Rattle.std.specs.List.{list_any};
ghost use Rattle.std.specs.Option.{option_map_or};
ghost use Rattle.block_refs.specs.Parts.{ArePartsOf};
ghost use Rattle.replay_profile.specs.Names.{is_rel};
ghost use Rattle.block_effects.specs.Gone.{gone_by, gone_by_database, gone_by_end, gone_by_storage, is_cut, is_gone, is_main};

use block_refs::{BlockName, Fork, Parts, RelName};
use record_layouts::{
    DatabaseDrop, DatabaseOp, Items, Operation, StorageOp, StorageTruncate, TransactionEnd,
    TransactionOp,
};
use wal_records::Record;

/// The flag of a truncation that cuts the main fork (`SMGR_TRUNCATE_HEAP`).
const CUTS_MAIN: u32 = 1;

/// Whether a fork is the main one.
pub(crate) fn is_main(fork: Fork) -> bool
    ensures { result ≡ is_main fork }
{
    match fork {
        Fork::Main => true,
        _ => false,
    }
}

fn is_rel(a: RelName, b: RelName) -> bool
    ensures { result ≡ is_rel a b }
{
    a.space == b.space && a.database == b.database && a.relation == b.relation
}

/// Whether a truncation takes a block.
fn is_cut(name: BlockName, cut: StorageTruncate) -> bool
    ensures { result ≡ is_cut name cut }
{
    cut.flags & CUTS_MAIN != 0
        && is_main(name.fork)
        && is_rel(cut.rel, name.rel)
        && cut.blocks <= name.block
}

/// Whether the relation at a place of a list is this one.
fn is_listed_at(rel: RelName, rels: &Items<'_, RelName>, at: usize) -> bool
    ensures { result ≡ option_map_or (λ listed. is_rel listed rel) (slice_get rels.now at) false }
{
    match rels.get(at) {
        Some(listed) => is_rel(listed, rel),
        None => false,
    }
}

/// Whether a relation is one of a list.
fn is_listed(rel: RelName, rels: &Items<'_, RelName>) -> bool
    ensures { result ≡ list_any (λ listed. is_rel listed rel) rels.now }
{
    for at in 0..rels.len() {
        if is_listed_at(rel, rels, at) {
            return true;
        }
    }
    false
}

fn gone_by_storage(op: StorageOp, main: &[u8], name: BlockName) -> bool
    ensures { result ≡ gone_by_storage op main.now name }
{
    match op {
        StorageOp::Truncate => match StorageTruncate::read(main) {
            Some(cut) => is_cut(name, cut),
            None => false,
        },
        _ => false,
    }
}

fn gone_by_end(op: TransactionOp, main: &[u8], name: BlockName) -> bool
    ensures { result ≡ gone_by_end op main.now name }
{
    match op {
        TransactionOp::End {
            outcome,
            has_xinfo,
            ..
        } => match TransactionEnd::read(outcome, has_xinfo, main) {
            Some(end) => is_listed(name.rel, &end.dropped),
            None => false,
        },
        _ => false,
    }
}

fn gone_by_database(op: DatabaseOp, main: &[u8], name: BlockName) -> bool
    ensures { result ≡ gone_by_database op main.now name }
{
    match op {
        DatabaseOp::Drop => match DatabaseDrop::read(main) {
            Some(gone) => gone.database == name.rel.database,
            None => false,
        },
        _ => false,
    }
}

fn gone_by(op: Operation, main: &[u8], name: BlockName) -> bool
    ensures { result ≡ gone_by op main.now name }
{
    match op {
        Operation::Storage(op) => gone_by_storage(op, main, name),
        Operation::Transaction(op) => gone_by_end(op, main, name),
        Operation::Database(op) => gone_by_database(op, main, name),
        _ => false,
    }
}

/// Whether a record takes a block away: a truncation of the main fork its blocks from the cut on,
/// the end of a transaction those of the relations that it drops, of every fork, and the drop of a
/// database those of every relation in it. Fields that aren't whole take nothing. The parts have to
/// be those of the record.
pub fn is_gone(rec: &Record, parts: &Parts, name: BlockName) -> bool
    requires parts { ArePartsOf rec.now parts.now }
    ensures { result ≡ is_gone rec.now parts.now name }
{
    let header = rec.header();
    let op = Operation::of(header.manager, header.info);
    gone_by(op, parts.main_bytes(rec), name)
}
