//! The names and values in main bytes, also where the layout isn't whole.

ghost use Rattle.std.specs.Prelude.{◌≡◌};
ghost use Rattle.std.specs.List.{list_all};
ghost use Rattle.replay_profile.specs.Fields.{takes_creation, takes_database, takes_drop, takes_fields, takes_storage, takes_transaction, takes_xlog};
ghost use Rattle.replay_profile.specs.Names.{is_known_database, is_known_rel, is_known_space};
ghost use Rattle.replay_profile.specs.Values.{passes};

use crate::names::{is_known_database, is_known_rel, is_known_space};
use crate::values::{is_known_change, is_known_checkpoint};
use block_refs::RelName;
use record_layouts::{
    CheckpointPrefix, DatabaseCreatePrefix, DatabaseDropPrefix, DatabaseOp, Items, Operation,
    ParameterPrefix, StorageCreate, StorageOp, StorageTruncate, TransactionEnd, TransactionOp,
    XlogOp,
};

fn takes_xlog(op: XlogOp, main: &[u8]) -> bool
    ensures { result ≡ takes_xlog op main.now }
{
    match op {
        XlogOp::CheckpointShutdown | XlogOp::CheckpointOnline => is_known_checkpoint(
            CheckpointPrefix::read(main),
        ),
        XlogOp::ParameterChange => is_known_change(&ParameterPrefix::read(main)),
        _ => true,
    }
}

fn is_known_name(rel: Option<RelName>) -> bool
    ensures { result ≡ passes is_known_rel rel }
{
    match rel {
        Some(rel) => is_known_rel(rel),
        None => true,
    }
}

/// Whether each of some relations is a known one.
fn are_known_names(rels: &Items<'_, RelName>) -> bool
    ensures { result ≡ list_all is_known_rel rels.now }
{
    for at in 0..rels.len() {
        if !is_known_name(rels.get(at)) {
            return false;
        }
    }
    true
}

fn takes_transaction(op: TransactionOp, main: &[u8]) -> bool
    ensures { result ≡ takes_transaction op main.now }
{
    match op {
        TransactionOp::End { has_xinfo, .. } => {
            let dropped = TransactionEnd::dropped_prefix(has_xinfo, main);
            are_known_names(&dropped)
        }
        _ => true,
    }
}

fn takes_storage(op: StorageOp, main: &[u8]) -> bool
    ensures { result ≡ takes_storage op main.now }
{
    match op {
        StorageOp::Create => is_known_name(StorageCreate::rel_if_whole(main)),
        StorageOp::Truncate => is_known_name(StorageTruncate::rel_if_whole(main)),
        StorageOp::Unlisted(_) => true,
    }
}

fn is_database(database: Option<u32>) -> bool
    ensures { result ≡ passes is_known_database database }
{
    match database {
        Some(database) => is_known_database(database),
        None => true,
    }
}

fn is_space(space: Option<u32>) -> bool
    ensures { result ≡ passes is_known_space space }
{
    match space {
        Some(space) => is_known_space(space),
        None => true,
    }
}

/// Whether each of some tablespaces is the default one.
fn are_known_spaces(spaces: &Items<'_, u32>) -> bool
    ensures { result ≡ list_all is_known_space spaces.now }
{
    for at in 0..spaces.len() {
        if !is_space(spaces.get(at)) {
            return false;
        }
    }
    true
}

fn takes_creation(create: &DatabaseCreatePrefix) -> bool
    ensures { result ≡ takes_creation create.now }
{
    is_database(create.database) && is_space(create.space)
}

fn takes_drop(gone: &DatabaseDropPrefix<'_>) -> bool
    ensures { result ≡ takes_drop gone.now }
{
    is_database(gone.database) && are_known_spaces(&gone.spaces)
}

fn takes_database(op: DatabaseOp, main: &[u8]) -> bool
    ensures { result ≡ takes_database op main.now }
{
    match op {
        DatabaseOp::CreateWalLog => takes_creation(&DatabaseCreatePrefix::read(main)),
        DatabaseOp::Drop => takes_drop(&DatabaseDropPrefix::read(main)),
        _ => true,
    }
}

/// Whether replay takes the names and values in the main bytes of an operation, as far as they are
/// there.
pub(crate) fn takes_fields(op: Operation, main: &[u8]) -> bool
    ensures { result ≡ takes_fields op main.now }
{
    match op {
        Operation::Xlog(op) => takes_xlog(op, main),
        Operation::Transaction(op) => takes_transaction(op, main),
        Operation::Storage(op) => takes_storage(op, main),
        Operation::Database(op) => takes_database(op, main),
        _ => true,
    }
}
