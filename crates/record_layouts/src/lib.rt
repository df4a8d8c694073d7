//! The layouts of the main bytes of records of the log, and what records do.
#![tactic(auto)]

mod btree;
mod bytes;
mod clog;
mod database;
mod end;
mod end_parts;
mod fields;
mod heap;
mod heap2;
mod items;
mod kinds;
mod laws;
mod multixact;
mod operation;
mod places;
mod relmap;
mod sequence;
mod standby;
mod storage;
mod tablespace;
mod transaction;
mod xlog;
mod xlog_prefixes;

pub use btree::{
    BtreeDedup, BtreeDelete, BtreeInsert, BtreeNewRoot, BtreeOp, BtreeSplit, BtreeVacuum,
};
pub use bytes::Bytes;
pub use clog::{ClogOp, ClogTruncate, ClogZeroPage};
pub use control_file::{Checkpoint, read_checkpoint};
pub use database::{
    DatabaseCopy, DatabaseCreate, DatabaseCreatePrefix, DatabaseDrop, DatabaseDropPrefix,
    DatabaseOp,
};
pub use end::TransactionEnd;
pub use end_parts::{DatabaseName, Origin, Outcome, Prepared};
pub use heap::{
    HeapConfirm, HeapDelete, HeapInplace, HeapInsert, HeapLock, HeapOp, HeapTruncate, HeapUpdate,
};
pub use heap2::{Heap2Op, HeapFreezePage, HeapMultiInsert, HeapPrune, HeapVacuum, HeapVisible};
pub use items::{Item, Items};
pub use kinds::{Member, Message, StatsItem};
pub use laws::{
    ends_are_read_again, operations_have_their_numbers, prefixes_are_of_their_layouts,
    prunes_are_spelled, updates_are_spelled,
};
pub use multixact::{MultiXactCreate, MultiXactOp, MultiXactTruncate, MultiXactZeroPage};
pub use operation::Operation;
pub use places::Places;
pub use relmap::{RelMapOp, RelMapUpdate};
pub use sequence::{SequenceLog, SequenceOp};
pub use standby::{RunningXacts, StandbyOp};
pub use storage::{StorageCreate, StorageOp, StorageTruncate};
pub use tablespace::TablespaceOp;
pub use transaction::{Assignment, TransactionOp};
pub use xlog::{
    BackupEnd, EndOfRecovery, FpwChange, NextOid, OverwriteContrecord, ParameterChange,
    RestorePoint, XlogOp,
};
pub use xlog_prefixes::{CheckpointPrefix, ParameterPrefix};
