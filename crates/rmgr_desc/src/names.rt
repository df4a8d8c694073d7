//! The names of the operations of each resource manager.

ghost use Rattle.std.specs.Prelude.{◌≡◌, option_map};
ghost use Rattle.rmgr_desc.specs.Operations.{listed_name, btree_name, clog_name, database_name, end_name, heap2_name, heap_name, multixact_name, relmap_name, sequence_name, standby_name, storage_name, tablespace_name, transaction_name, xlog_name};

use record_layouts::{
    BtreeOp, ClogOp, DatabaseOp, Heap2Op, HeapOp, MultiXactOp, Operation, Outcome, RelMapOp,
    SequenceOp, StandbyOp, StorageOp, TablespaceOp, TransactionOp, XlogOp,
};

/// The name of an operation, or `None` where it is in no row of docs/RECORDS.md.
pub fn listed_name(operation: Operation) -> Option<&'static str>
    ensures { option_map (λ name. name.now) result ≡ listed_name operation }
{
    match operation {
        Operation::Xlog(op) => xlog_name(op),
        Operation::Transaction(op) => transaction_name(op),
        Operation::Storage(op) => storage_name(op),
        Operation::Clog(op) => clog_name(op),
        Operation::Database(op) => database_name(op),
        Operation::Tablespace(op) => tablespace_name(op),
        Operation::MultiXact(op) => multixact_name(op),
        Operation::RelMap(op) => relmap_name(op),
        Operation::Standby(op) => standby_name(op),
        Operation::Heap2(op) => Some(heap2_name(op)),
        Operation::Heap(op) => Some(heap_name(op)),
        Operation::Btree(op) => btree_name(op),
        Operation::Sequence(op) => sequence_name(op),
        Operation::Other { .. } => None,
    }
}

fn xlog_name(op: XlogOp) -> Option<&'static str>
    ensures { option_map (λ name. name.now) result ≡ xlog_name op }
{
    match op {
        XlogOp::CheckpointShutdown => Some("CHECKPOINT_SHUTDOWN"),
        XlogOp::CheckpointOnline => Some("CHECKPOINT_ONLINE"),
        XlogOp::Noop => Some("NOOP"),
        XlogOp::NextOid => Some("NEXTOID"),
        XlogOp::Switch => Some("SWITCH"),
        XlogOp::BackupEnd => Some("BACKUP_END"),
        XlogOp::ParameterChange => Some("PARAMETER_CHANGE"),
        XlogOp::RestorePoint => Some("RESTORE_POINT"),
        XlogOp::FpwChange => Some("FPW_CHANGE"),
        XlogOp::EndOfRecovery => Some("END_OF_RECOVERY"),
        XlogOp::FpiForHint => Some("FPI_FOR_HINT"),
        XlogOp::Fpi => Some("FPI"),
        XlogOp::OverwriteContrecord => Some("OVERWRITE_CONTRECORD"),
        XlogOp::Unlisted(_) => None,
    }
}

fn end_name(outcome: Outcome, prepared: bool) -> &'static str
    ensures { result.now ≡ end_name outcome prepared }
{
    match (outcome, prepared) {
        (Outcome::Commit, false) => "COMMIT",
        (Outcome::Abort, false) => "ABORT",
        (Outcome::Commit, true) => "COMMIT_PREPARED",
        (Outcome::Abort, true) => "ABORT_PREPARED",
    }
}

fn transaction_name(op: TransactionOp) -> Option<&'static str>
    ensures { option_map (λ name. name.now) result ≡ transaction_name op }
{
    match op {
        TransactionOp::End {
            outcome,
            prepared,
            ..
        } => Some(end_name(outcome, prepared)),
        TransactionOp::Prepare => Some("PREPARE"),
        TransactionOp::Assignment => Some("ASSIGNMENT"),
        TransactionOp::Invalidation => Some("INVALIDATION"),
        TransactionOp::Unlisted(_) => None,
    }
}

fn storage_name(op: StorageOp) -> Option<&'static str>
    ensures { option_map (λ name. name.now) result ≡ storage_name op }
{
    match op {
        StorageOp::Create => Some("CREATE"),
        StorageOp::Truncate => Some("TRUNCATE"),
        StorageOp::Unlisted(_) => None,
    }
}

fn clog_name(op: ClogOp) -> Option<&'static str>
    ensures { option_map (λ name. name.now) result ≡ clog_name op }
{
    match op {
        ClogOp::ZeroPage => Some("ZEROPAGE"),
        ClogOp::Truncate => Some("TRUNCATE"),
        ClogOp::Unlisted(_) => None,
    }
}

fn database_name(op: DatabaseOp) -> Option<&'static str>
    ensures { option_map (λ name. name.now) result ≡ database_name op }
{
    match op {
        DatabaseOp::CreateFileCopy => Some("CREATE_FILE_COPY"),
        DatabaseOp::CreateWalLog => Some("CREATE_WAL_LOG"),
        DatabaseOp::Drop => Some("DROP"),
        DatabaseOp::Unlisted(_) => None,
    }
}

fn tablespace_name(op: TablespaceOp) -> Option<&'static str>
    ensures { option_map (λ name. name.now) result ≡ tablespace_name op }
{
    match op {
        TablespaceOp::Create => Some("CREATE"),
        TablespaceOp::Drop => Some("DROP"),
        TablespaceOp::Unlisted(_) => None,
    }
}

fn multixact_name(op: MultiXactOp) -> Option<&'static str>
    ensures { option_map (λ name. name.now) result ≡ multixact_name op }
{
    match op {
        MultiXactOp::ZeroOffsetsPage => Some("ZERO_OFF_PAGE"),
        MultiXactOp::ZeroMembersPage => Some("ZERO_MEM_PAGE"),
        MultiXactOp::CreateId => Some("CREATE_ID"),
        MultiXactOp::TruncateId => Some("TRUNCATE_ID"),
        MultiXactOp::Unlisted(_) => None,
    }
}

fn relmap_name(op: RelMapOp) -> Option<&'static str>
    ensures { option_map (λ name. name.now) result ≡ relmap_name op }
{
    match op {
        RelMapOp::Update => Some("UPDATE"),
        RelMapOp::Unlisted(_) => None,
    }
}

fn standby_name(op: StandbyOp) -> Option<&'static str>
    ensures { option_map (λ name. name.now) result ≡ standby_name op }
{
    match op {
        StandbyOp::Lock => Some("LOCK"),
        StandbyOp::RunningXacts => Some("RUNNING_XACTS"),
        StandbyOp::Invalidations => Some("INVALIDATIONS"),
        StandbyOp::Unlisted(_) => None,
    }
}

fn heap2_name(op: Heap2Op) -> &'static str
    ensures { result.now ≡ heap2_name op }
{
    match op {
        Heap2Op::Rewrite => "REWRITE",
        Heap2Op::Prune => "PRUNE",
        Heap2Op::Vacuum => "VACUUM",
        Heap2Op::FreezePage => "FREEZE_PAGE",
        Heap2Op::Visible => "VISIBLE",
        Heap2Op::MultiInsert { .. } => "MULTI_INSERT",
        Heap2Op::LockUpdated => "LOCK_UPDATED",
        Heap2Op::NewCid => "NEW_CID",
    }
}

fn heap_name(op: HeapOp) -> &'static str
    ensures { result.now ≡ heap_name op }
{
    match op {
        HeapOp::Insert { .. } => "INSERT",
        HeapOp::Delete => "DELETE",
        HeapOp::Update { .. } => "UPDATE",
        HeapOp::Truncate => "TRUNCATE",
        HeapOp::HotUpdate { .. } => "HOT_UPDATE",
        HeapOp::HeapConfirm => "HEAP_CONFIRM",
        HeapOp::Lock => "LOCK",
        HeapOp::Inplace => "INPLACE",
    }
}

fn btree_name(op: BtreeOp) -> Option<&'static str>
    ensures { option_map (λ name. name.now) result ≡ btree_name op }
{
    match op {
        BtreeOp::InsertLeaf => Some("INSERT_LEAF"),
        BtreeOp::InsertUpper => Some("INSERT_UPPER"),
        BtreeOp::InsertMeta => Some("INSERT_META"),
        BtreeOp::SplitLeft => Some("SPLIT_L"),
        BtreeOp::SplitRight => Some("SPLIT_R"),
        BtreeOp::InsertPost => Some("INSERT_POST"),
        BtreeOp::Dedup => Some("DEDUP"),
        BtreeOp::Delete => Some("DELETE"),
        BtreeOp::UnlinkPage => Some("UNLINK_PAGE"),
        BtreeOp::UnlinkPageMeta => Some("UNLINK_PAGE_META"),
        BtreeOp::NewRoot => Some("NEWROOT"),
        BtreeOp::MarkPageHalfDead => Some("MARK_PAGE_HALFDEAD"),
        BtreeOp::Vacuum => Some("VACUUM"),
        BtreeOp::ReusePage => Some("REUSE_PAGE"),
        BtreeOp::MetaCleanup => Some("META_CLEANUP"),
        BtreeOp::Unlisted(_) => None,
    }
}

fn sequence_name(op: SequenceOp) -> Option<&'static str>
    ensures { option_map (λ name. name.now) result ≡ sequence_name op }
{
    match op {
        SequenceOp::Log => Some("LOG"),
        SequenceOp::Unlisted(_) => None,
    }
}
