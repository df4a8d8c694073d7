//! The text of a record.

ghost use Rattle.std.specs.Prelude.{◌≡◌, ◌++◌, [], IfOk, OnErr, string_bytes};
ghost use Rattle.block_refs.specs.Parts.{ArePartsOf};
ghost use Rattle.rmgr_desc.specs.Describe.{description_of, text_of};

use crate::btree::add_btree;
use crate::clog::add_clog;
use crate::database::add_database;
use crate::heap::add_heap;
use crate::heap2::add_heap2;
use crate::multixact::add_multixact;
use crate::pieces::or_emptied;
use crate::relmap::add_relmap;
use crate::sequence::add_sequence;
use crate::standby::add_standby;
use crate::storage::add_storage;
use crate::transaction::add_transaction;
use crate::xlog::add_xlog;
use block_refs::Parts;
use record_layouts::Operation;
use std::alloc::{AllocError, Global};
use wal_base::{OutOfMemory, Text};
use wal_records::Record;

/// What a record says, as pg_waldump shows it behind the name of its operation (docs/RECORDS.md):
/// `(short)` where its main bytes don't hold the whole layout, and nothing where the operation has
/// no text. The parts have to be those of the record. Answers `OutOfMemory` only for want of memory.
pub fn describe(alloc: Global, rec: &Record, parts: &Parts) -> Result<Text, OutOfMemory>
    requires parts { ArePartsOf rec.now parts.now }
    ensures { IfOk result (λ text. text ≡ description_of rec.now parts.now) }
{
    let mut text = String::new(alloc);
    add_description(&mut text, rec, parts)?;
    Ok(Text::from(text))
}

/// Adds what `describe` gives to a text, in the text's own memory, so that a text which is used
/// again takes none after a while. Answers `OutOfMemory` only for want of memory, and then the text
/// is empty.
#[tactic(auto, unfolding(crate::specs::Describe::description_of))]
pub fn add_description(text: &mut String, rec: &Record, parts: &Parts) -> Result<(), OutOfMemory>
    requires parts { ArePartsOf rec.now parts.now }
    ensures ok { IfOk result (λ _. string_bytes text.new
        ≡ string_bytes text.old ++ description_of rec.now parts.now) }
    ensures err { OnErr result (string_bytes text.new ≡ []) }
{
    let header = rec.header();
    let operation = Operation::of(header.manager, header.info);
    let added = add_text(text, operation, parts.main_bytes(rec));
    or_emptied(text, added)
}

/// Adds the text of an operation with these main bytes.
pub(crate) fn add_text(
    text: &mut String,
    operation: Operation,
    main: &[u8],
) -> Result<(), AllocError>
    ensures { IfOk result (λ _. string_bytes text.new
        ≡ string_bytes text.old ++ text_of operation main.now) }
{
    match operation {
        Operation::Xlog(op) => add_xlog(text, op, main),
        Operation::Transaction(op) => add_transaction(text, op, main),
        Operation::Storage(op) => add_storage(text, op, main),
        Operation::Clog(op) => add_clog(text, op, main),
        Operation::Database(op) => add_database(text, op, main),
        Operation::MultiXact(op) => add_multixact(text, op, main),
        Operation::RelMap(op) => add_relmap(text, op, main),
        Operation::Standby(op) => add_standby(text, op, main),
        Operation::Heap2(op) => add_heap2(text, op, main),
        Operation::Heap(op) => add_heap(text, op, main),
        Operation::Btree(op) => add_btree(text, op, main),
        Operation::Sequence(op) => add_sequence(text, op, main),
        Operation::Tablespace(_) | Operation::Other { .. } => Ok(()),
    }
}
