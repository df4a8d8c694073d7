//! What the fields of a record name.

ghost use Rattle.std.specs.Prelude.{◌≡◌, option_map};
ghost use Rattle.touched_blocks.specs.Fields.{named_by_fields, storage_names, transaction_names, database_names, is_kind, is_storage_kind, is_transaction_kind, is_database_kind, cut_names};
ghost use Rattle.touched_blocks.specs.FieldNames.{names_of_fields};

use crate::named::Named;
use block_refs::RelName;
use record_layouts::{
    DatabaseCopy, DatabaseCreate, DatabaseDrop, DatabaseOp, Items, Operation, StorageCreate,
    StorageOp, StorageTruncate, TransactionEnd, TransactionOp,
};

/// What a record names by its fields.
#[derive(Drop)]
pub(crate) enum Fields<'a> {
    /// Nothing.
    Nothing,
    /// One thing.
    One(Named),
    /// Relations, each whole.
    Whole(Items<'a, RelName>),
}

/// Whether the operations of Storage are of those that change relations without a reference.
fn is_storage_kind(op: StorageOp) -> bool
    ensures { result ≡ is_storage_kind op }
{
    match op {
        StorageOp::Create | StorageOp::Truncate => true,
        StorageOp::Unlisted(_) => false,
    }
}

/// The same of Transaction.
fn is_transaction_kind(op: TransactionOp) -> bool
    ensures { result ≡ is_transaction_kind op }
{
    match op {
        TransactionOp::End { .. } => true,
        TransactionOp::Prepare | TransactionOp::Assignment => false,
        TransactionOp::Invalidation | TransactionOp::Unlisted(_) => false,
    }
}

/// The same of Database.
fn is_database_kind(op: DatabaseOp) -> bool
    ensures { result ≡ is_database_kind op }
{
    match op {
        DatabaseOp::CreateFileCopy | DatabaseOp::CreateWalLog | DatabaseOp::Drop => true,
        DatabaseOp::Unlisted(_) => false,
    }
}

/// Whether an operation is of those that change relations without a reference and whose fields are
/// read here.
pub(crate) fn is_kind(op: Operation) -> bool
    ensures { result ≡ is_kind op }
{
    match op {
        Operation::Storage(op) => is_storage_kind(op),
        Operation::Transaction(op) => is_transaction_kind(op),
        Operation::Database(op) => is_database_kind(op),
        _ => false,
    }
}

/// What a truncation names.
fn cut_by<'a>(cut: StorageTruncate) -> Fields<'a>
    ensures { names_of_fields result ≡ cut_names cut }
{
    if cut.flags & 1 != 0 {
        Fields::One(Named::BlocksFrom(cut.rel, cut.blocks))
    } else {
        Fields::Nothing
    }
}

/// What an operation of Storage names, or `None` where its fields aren't whole.
fn storage_fields<'a>(op: StorageOp, main: &[u8]) -> Option<Fields<'a>>
    ensures { option_map names_of_fields result ≡ storage_names op main.now }
{
    match op {
        StorageOp::Create => {
            let create = StorageCreate::read(main)?;
            Some(Fields::One(Named::BlocksFrom(create.rel, 0)))
        }
        StorageOp::Truncate => {
            let cut = StorageTruncate::read(main)?;
            Some(cut_by(cut))
        }
        StorageOp::Unlisted(_) => Some(Fields::Nothing),
    }
}

/// What an operation of Transaction names, or `None` where its fields aren't whole.
fn transaction_fields<'a>(op: TransactionOp, main: &'a [u8]) -> Option<Fields<'a>>
    ensures { option_map names_of_fields result ≡ transaction_names op main.now }
{
    match op {
        TransactionOp::End {
            outcome,
            has_xinfo,
            ..
        } => {
            let end = TransactionEnd::read(outcome, has_xinfo, main)?;
            Some(Fields::Whole(end.dropped))
        }
        TransactionOp::Prepare | TransactionOp::Assignment => Some(Fields::Nothing),
        TransactionOp::Invalidation | TransactionOp::Unlisted(_) => Some(Fields::Nothing),
    }
}

/// What an operation of Database names, or `None` where its fields aren't whole.
fn database_fields<'a>(op: DatabaseOp, main: &[u8]) -> Option<Fields<'a>>
    ensures { option_map names_of_fields result ≡ database_names op main.now }
{
    let database = match op {
        DatabaseOp::CreateFileCopy => DatabaseCopy::read(main)?.database,
        DatabaseOp::CreateWalLog => DatabaseCreate::read(main)?.database,
        DatabaseOp::Drop => DatabaseDrop::read(main)?.database,
        DatabaseOp::Unlisted(_) => return Some(Fields::Nothing),
    };
    Some(Fields::One(Named::AllOf(database)))
}

/// What the fields of an operation name, or `None` where they aren't whole.
pub(crate) fn fields_of<'a>(op: Operation, main: &'a [u8]) -> Option<Fields<'a>>
    ensures { option_map names_of_fields result ≡ named_by_fields op main.now }
{
    match op {
        Operation::Storage(op) => storage_fields(op, main),
        Operation::Transaction(op) => transaction_fields(op, main),
        Operation::Database(op) => database_fields(op, main),
        _ => Some(Fields::Nothing),
    }
}
