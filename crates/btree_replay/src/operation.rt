//! Which references of a B-tree record have an effect.

ghost use Rattle.std.specs.Prelude.{ℕ, ◌≡◌};
ghost use Rattle.block_refs.specs.Parts.{ArePartsOf};
ghost use Rattle.btree_replay.specs.Operation.{split_acts, new_root_acts, btree_acts_on, acts_on, btree_makes_anew, makes_anew, btree_acts, btree_fresh};

use block_refs::Parts;
use record_layouts::{BtreeNewRoot, BtreeOp, BtreeSplit, Operation};
use wal_records::Record;

fn split_acts(op: Option<BtreeSplit>, id: u8) -> bool
    ensures { result ≡ split_acts op id }
{
    match op {
        Some(op) => id <= 2 || id == 3 && op.level != 0,
        None => id <= 3,
    }
}

fn new_root_acts(op: Option<BtreeNewRoot>, id: u8) -> bool
    ensures { result ≡ new_root_acts op id }
{
    let Some(op) = op else {
        return id <= 2;
    };
    match id {
        0 | 2 => true,
        1 => op.level != 0,
        _ => false,
    }
}

fn btree_acts_on(op: BtreeOp, main: &[u8], id: u8) -> bool
    ensures { result ≡ btree_acts_on op main.now id }
{
    match op {
        BtreeOp::InsertLeaf
        | BtreeOp::InsertPost
        | BtreeOp::Dedup
        | BtreeOp::Delete
        | BtreeOp::Vacuum
        | BtreeOp::MetaCleanup => id == 0,
        BtreeOp::InsertUpper => id <= 1,
        BtreeOp::InsertMeta => id <= 2,
        BtreeOp::SplitLeft | BtreeOp::SplitRight => split_acts(BtreeSplit::read(main), id),
        BtreeOp::NewRoot => new_root_acts(BtreeNewRoot::read(main), id),
        _ => false,
    }
}

// Whether an operation with these main bytes changes the page of the reference with an id.
fn acts_on(op: Operation, main: &[u8], id: u8) -> bool
    ensures { result ≡ acts_on op main.now id }
{
    match op {
        Operation::Btree(op) => btree_acts_on(op, main, id),
        _ => false,
    }
}

/// Whether a record changes the main fork's page of its reference with an id. Records of other
/// managers change none.
pub fn acts(rec: &Record, parts: &Parts, id: u8) -> bool
    requires { ArePartsOf rec.now parts.now }
    ensures { result ≡ btree_acts rec.now parts.now id }
{
    let header = rec.header();
    acts_on(
        Operation::of(header.manager, header.info),
        parts.main_bytes(rec),
        id,
    )
}

fn btree_makes_anew(op: BtreeOp, id: u8) -> bool
    ensures { result ≡ btree_makes_anew op id }
{
    match op {
        BtreeOp::InsertMeta => id == 2,
        BtreeOp::SplitLeft | BtreeOp::SplitRight => id == 1,
        BtreeOp::NewRoot => id == 0 || id == 2,
        BtreeOp::MetaCleanup => id == 0,
        _ => false,
    }
}

fn makes_anew(op: Operation, id: u8) -> bool
    ensures { result ≡ makes_anew op id }
{
    match op {
        Operation::Btree(op) => btree_makes_anew(op, id),
        _ => false,
    }
}

/// Whether a record makes that page anew, whatever it was: a new right page, a new root, a metapage.
pub fn is_fresh(rec: &Record, parts: &Parts, id: u8) -> bool
    ensures { result ≡ btree_fresh rec.now parts.now id }
{
    let header = rec.header();
    makes_anew(Operation::of(header.manager, header.info), id)
}
