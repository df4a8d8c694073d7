//! Which references have to do with posting lists.

ghost use Rattle.std.specs.Prelude.{ℕ, ◌≡◌};
ghost use Rattle.block_refs.specs.Parts.{ArePartsOf};
ghost use Rattle.btree_posting.specs.Posting.{splits_list, delete_updates, vacuum_updates, posting_op, has_posting, is_posting};

use block_refs::Parts;
use record_layouts::{
    BtreeDedup, BtreeDelete, BtreeInsert, BtreeOp, BtreeSplit, BtreeVacuum, Operation,
};
use wal_records::Record;

fn splits_list(op: Option<BtreeSplit>) -> bool
    ensures { result ≡ splits_list op }
{
    match op {
        Some(op) => op.posting != 0,
        None => false,
    }
}

fn delete_updates(op: Option<BtreeDelete>) -> bool
    ensures { result ≡ delete_updates op }
{
    match op {
        Some(op) => op.nupdated != 0,
        None => false,
    }
}

fn vacuum_updates(op: Option<BtreeVacuum>) -> bool
    ensures { result ≡ vacuum_updates op }
{
    match op {
        Some(op) => op.nupdated != 0,
        None => false,
    }
}

fn posting_op(op: BtreeOp, main: &[u8]) -> bool
    ensures { result ≡ posting_op op main.now }
{
    match op {
        BtreeOp::InsertPost => BtreeInsert::read(main).is_some(),
        BtreeOp::Dedup => BtreeDedup::read(main).is_some(),
        BtreeOp::SplitLeft | BtreeOp::SplitRight => splits_list(BtreeSplit::read(main)),
        BtreeOp::Delete => delete_updates(BtreeDelete::read(main)),
        BtreeOp::Vacuum => vacuum_updates(BtreeVacuum::read(main)),
        _ => false,
    }
}

fn has_posting(op: Operation, main: &[u8]) -> bool
    ensures { result ≡ has_posting op main.now }
{
    match op {
        Operation::Btree(op) => posting_op(op, main),
        _ => false,
    }
}

/// Whether the reference with an id is block 0 of a B-tree record that has to do with posting lists,
/// as its main bytes tell where they are whole: DEDUP, INSERT_POST, a split of a list, and a DELETE
/// or VACUUM that makes some shorter.
pub fn is_posting(rec: &Record, parts: &Parts, id: u8) -> bool
    requires { ArePartsOf rec.now parts.now }
    ensures { result ≡ is_posting rec.now parts.now id }
{
    let header = rec.header();
    id == 0
        && has_posting(
            Operation::of(header.manager, header.info),
            parts.main_bytes(rec),
        )
}
