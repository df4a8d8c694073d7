//! The operation of a record.

ghost use Rattle.std.specs.Prelude.{◌≡◌};
ghost use Rattle.record_layouts.specs.Operation.{is_whole, manager_of, number_of, operation_of};

use crate::btree::BtreeOp;
use crate::clog::ClogOp;
use crate::database::DatabaseOp;
use crate::heap::HeapOp;
use crate::heap2::Heap2Op;
use crate::multixact::MultiXactOp;
use crate::relmap::RelMapOp;
use crate::sequence::SequenceOp;
use crate::standby::StandbyOp;
use crate::storage::StorageOp;
use crate::tablespace::TablespaceOp;
use crate::transaction::TransactionOp;
use crate::xlog::XlogOp;

/// What a record does, by its resource manager (src/include/access/rmgrlist.h).
#[derive(Clone, Copy, Debug, PartialEq, Eq)]
pub enum Operation {
    /// Manager 0, XLOG.
    Xlog(XlogOp),
    /// Manager 1, Transaction.
    Transaction(TransactionOp),
    /// Manager 2, Storage.
    Storage(StorageOp),
    /// Manager 3, CLOG.
    Clog(ClogOp),
    /// Manager 4, Database.
    Database(DatabaseOp),
    /// Manager 5, Tablespace.
    Tablespace(TablespaceOp),
    /// Manager 6, MultiXact.
    MultiXact(MultiXactOp),
    /// Manager 7, RelMap.
    RelMap(RelMapOp),
    /// Manager 8, Standby.
    Standby(StandbyOp),
    /// Manager 9, Heap2.
    Heap2(Heap2Op),
    /// Manager 10, Heap.
    Heap(HeapOp),
    /// Manager 11, Btree.
    Btree(BtreeOp),
    /// Manager 15, Sequence.
    Sequence(SequenceOp),
    /// Any other manager, whose operations are not told apart here.
    Other {
        /// The manager.
        manager: u8,
        /// The number of the operation, `info` without the low four bits.
        number: u8,
    },
}

impl Operation {
    /// The operation of a record with this manager and this `info`.
    #[tactic(auto, unfolding(crate::specs::Operation::operation_of))]
    pub fn of(manager: u8, info: u8) -> Operation
        ensures { result ≡ operation_of manager info }
    {
        match manager {
            0 => Operation::Xlog(XlogOp::of(info)),
            1 => Operation::Transaction(TransactionOp::of(info)),
            2 => Operation::Storage(StorageOp::of(info)),
            3 => Operation::Clog(ClogOp::of(info)),
            4 => Operation::Database(DatabaseOp::of(info)),
            5 => Operation::Tablespace(TablespaceOp::of(info)),
            6 => Operation::MultiXact(MultiXactOp::of(info)),
            7 => Operation::RelMap(RelMapOp::of(info)),
            8 => Operation::Standby(StandbyOp::of(info)),
            9 => Operation::Heap2(Heap2Op::of(info)),
            10 => Operation::Heap(HeapOp::of(info)),
            11 => Operation::Btree(BtreeOp::of(info)),
            15 => Operation::Sequence(SequenceOp::of(info)),
            _ => Operation::Other {
                manager,
                number: info & 0xF0,
            },
        }
    }

    /// The number of its manager.
    pub fn manager(self) -> u8
        ensures { result ≡ manager_of self }
    {
        match self {
            Operation::Xlog(_) => 0,
            Operation::Transaction(_) => 1,
            Operation::Storage(_) => 2,
            Operation::Clog(_) => 3,
            Operation::Database(_) => 4,
            Operation::Tablespace(_) => 5,
            Operation::MultiXact(_) => 6,
            Operation::RelMap(_) => 7,
            Operation::Standby(_) => 8,
            Operation::Heap2(_) => 9,
            Operation::Heap(_) => 10,
            Operation::Btree(_) => 11,
            Operation::Sequence(_) => 15,
            Operation::Other { manager, .. } => manager,
        }
    }

    /// Its number, as `info` has it: `info` without the low four bits, and for Transaction, Heap and
    /// Heap2 without bit 80.
    pub fn number(self) -> u8
        ensures { result ≡ number_of self }
    {
        match self {
            Operation::Xlog(op) => op.number(),
            Operation::Transaction(op) => op.number(),
            Operation::Storage(op) => op.number(),
            Operation::Clog(op) => op.number(),
            Operation::Database(op) => op.number(),
            Operation::Tablespace(op) => op.number(),
            Operation::MultiXact(op) => op.number(),
            Operation::RelMap(op) => op.number(),
            Operation::Standby(op) => op.number(),
            Operation::Heap2(op) => op.number(),
            Operation::Heap(op) => op.number(),
            Operation::Btree(op) => op.number(),
            Operation::Sequence(op) => op.number(),
            Operation::Other { number, .. } => number,
        }
    }

    /// Whether the main bytes of a record hold the whole layout of what it does. An operation whose
    /// layout isn't read here is whole.
    pub fn is_whole(self, main: &[u8]) -> bool
        ensures { result ≡ is_whole self main.now }
    {
        match self {
            Operation::Xlog(op) => op.is_whole(main),
            Operation::Transaction(op) => op.is_whole(main),
            Operation::Storage(op) => op.is_whole(main),
            Operation::Clog(op) => op.is_whole(main),
            Operation::Database(op) => op.is_whole(main),
            Operation::MultiXact(op) => op.is_whole(main),
            Operation::RelMap(op) => op.is_whole(main),
            Operation::Standby(op) => op.is_whole(main),
            Operation::Heap2(op) => op.is_whole(main),
            Operation::Heap(op) => op.is_whole(main),
            Operation::Btree(op) => op.is_whole(main),
            Operation::Sequence(op) => op.is_whole(main),
            Operation::Tablespace(_) | Operation::Other { .. } => true,
        }
    }
}
