//! The operations that replay knows.

ghost use Rattle.std.specs.Prelude.{◌≡◌};
ghost use Rattle.replay_profile.specs.Operations.{
  is_known_operation,
  knows_btree,
  knows_clog,
  knows_database,
  knows_heap2,
  knows_multixact,
  knows_other,
  knows_relmap,
  knows_sequence,
  knows_storage,
  knows_transaction,
  knows_xlog,
};

use record_layouts::{
    BtreeOp, ClogOp, DatabaseOp, Heap2Op, MultiXactOp, Operation, RelMapOp, SequenceOp, StorageOp,
    TransactionOp, XlogOp,
};

/// The manager of messages of logical decoding (`RM_LOGICALMSG_ID`).
const LOGICAL_MESSAGE: u8 = 21;

fn knows_xlog(op: XlogOp) -> bool
    ensures { result ≡ knows_xlog op }
{
    match op {
        XlogOp::Unlisted(_) => false,
        _ => true,
    }
}

fn knows_transaction(op: TransactionOp) -> bool
    ensures { result ≡ knows_transaction op }
{
    match op {
        TransactionOp::End { prepared, .. } => !prepared,
        TransactionOp::Assignment | TransactionOp::Invalidation => true,
        TransactionOp::Prepare | TransactionOp::Unlisted(_) => false,
    }
}

fn knows_storage(op: StorageOp) -> bool
    ensures { result ≡ knows_storage op }
{
    match op {
        StorageOp::Unlisted(_) => false,
        _ => true,
    }
}

fn knows_clog(op: ClogOp) -> bool
    ensures { result ≡ knows_clog op }
{
    match op {
        ClogOp::Unlisted(_) => false,
        _ => true,
    }
}

fn knows_database(op: DatabaseOp) -> bool
    ensures { result ≡ knows_database op }
{
    match op {
        DatabaseOp::CreateWalLog | DatabaseOp::Drop => true,
        DatabaseOp::CreateFileCopy | DatabaseOp::Unlisted(_) => false,
    }
}

fn knows_multixact(op: MultiXactOp) -> bool
    ensures { result ≡ knows_multixact op }
{
    match op {
        MultiXactOp::Unlisted(_) => false,
        _ => true,
    }
}

fn knows_relmap(op: RelMapOp) -> bool
    ensures { result ≡ knows_relmap op }
{
    match op {
        RelMapOp::Unlisted(_) => false,
        _ => true,
    }
}

fn knows_heap2(op: Heap2Op) -> bool
    ensures { result ≡ knows_heap2 op }
{
    match op {
        Heap2Op::Rewrite => false,
        _ => true,
    }
}

fn knows_btree(op: BtreeOp) -> bool
    ensures { result ≡ knows_btree op }
{
    match op {
        BtreeOp::UnlinkPage | BtreeOp::UnlinkPageMeta | BtreeOp::MarkPageHalfDead => false,
        BtreeOp::Unlisted(_) => false,
        _ => true,
    }
}

fn knows_sequence(op: SequenceOp) -> bool
    ensures { result ≡ knows_sequence op }
{
    match op {
        SequenceOp::Unlisted(_) => false,
        _ => true,
    }
}

fn knows_other(manager: u8) -> bool
    ensures { result ≡ knows_other manager }
{
    manager == LOGICAL_MESSAGE
}

/// Whether replay knows an operation.
pub(crate) fn is_known_operation(op: Operation) -> bool
    ensures { result ≡ is_known_operation op }
{
    match op {
        Operation::Xlog(op) => knows_xlog(op),
        Operation::Transaction(op) => knows_transaction(op),
        Operation::Storage(op) => knows_storage(op),
        Operation::Clog(op) => knows_clog(op),
        Operation::Database(op) => knows_database(op),
        Operation::Tablespace(_) => false,
        Operation::MultiXact(op) => knows_multixact(op),
        Operation::RelMap(op) => knows_relmap(op),
        Operation::Standby(_) | Operation::Heap(_) => true,
        Operation::Heap2(op) => knows_heap2(op),
        Operation::Btree(op) => knows_btree(op),
        Operation::Sequence(op) => knows_sequence(op),
        Operation::Other { manager, .. } => knows_other(manager),
    }
}
