//! Operations of the manager Transaction, and the layout of one of them.

ghost use Rattle.std.specs.Prelude.{◌≡◌};
ghost use Rattle.record_layouts.specs.declared.transaction.TransactionOp.TheVariants as ends;
ghost use Rattle.record_layouts.specs.Transaction.{assignment_of, end_number, transaction_is_whole, transaction_number, transaction_op_of};

use crate::end::TransactionEnd;
use crate::end_parts::Outcome;
use layout::u32_at;

/// An operation of the manager Transaction (`XLOG_XACT_..` of src/include/access/xact.h).
#[derive(Clone, Copy, Debug, PartialEq, Eq)]
pub enum TransactionOp {
    /// A transaction ends: COMMIT, ABORT, COMMIT_PREPARED or ABORT_PREPARED. The layout is
    /// `TransactionEnd`.
    End {
        /// Whether it commits or is aborted.
        outcome: Outcome,
        /// Whether it was prepared.
        prepared: bool,
        /// Whether the layout has flags for further parts, `XLOG_XACT_HAS_INFO`.
        has_xinfo: bool,
    },
    /// A transaction is prepared.
    Prepare,
    /// Subtransactions are assigned to a top transaction.
    Assignment,
    /// Caches are no longer valid.
    Invalidation,
    /// An operation that version 16 does not have: its number, `info` in the bits 70.
    Unlisted(u8),
}

impl TransactionOp {
    /// The operation of a record with this `info`: the bits 70 (`XLOG_XACT_OPMASK`), and beside them
    /// bit 80.
    #[tactic(auto, unfolding(crate::specs::Transaction::transaction_op_of))]
    pub fn of(info: u8) -> TransactionOp
        ensures { result ≡ transaction_op_of info }
    {
        let has_xinfo = info & 0x80 != 0;
        match info & 0x70 {
            0x00 => end(Outcome::Commit, false, has_xinfo),
            0x10 => TransactionOp::Prepare,
            0x20 => end(Outcome::Abort, false, has_xinfo),
            0x30 => end(Outcome::Commit, true, has_xinfo),
            0x40 => end(Outcome::Abort, true, has_xinfo),
            0x50 => TransactionOp::Assignment,
            0x60 => TransactionOp::Invalidation,
            number => TransactionOp::Unlisted(number),
        }
    }

    /// Its number, as `info` has it.
    pub fn number(self) -> u8
        ensures { result ≡ transaction_number self }
    {
        match self {
            TransactionOp::End {
                outcome,
                prepared,
                ..
            } => end_number(outcome, prepared),
            TransactionOp::Prepare => 0x10,
            TransactionOp::Assignment => 0x50,
            TransactionOp::Invalidation => 0x60,
            TransactionOp::Unlisted(number) => number,
        }
    }

    /// Whether the main bytes hold its whole layout. An operation whose layout isn't read here is
    /// whole.
    pub fn is_whole(self, main: &[u8]) -> bool
        ensures { result ≡ transaction_is_whole self main.now }
    {
        match self {
            TransactionOp::End {
                outcome,
                has_xinfo,
                ..
            } => TransactionEnd::read(outcome, has_xinfo, main).is_some(),
            TransactionOp::Assignment => Assignment::read(main).is_some(),
            TransactionOp::Prepare | TransactionOp::Invalidation => true,
            TransactionOp::Unlisted(_) => true,
        }
    }
}

/// The end of a transaction.
fn end(outcome: Outcome, prepared: bool, has_xinfo: bool) -> TransactionOp
    ensures { result ≡ ends.End outcome prepared has_xinfo }
{
    TransactionOp::End {
        outcome,
        prepared,
        has_xinfo,
    }
}

/// The number of an end.
fn end_number(outcome: Outcome, prepared: bool) -> u8
    ensures { result ≡ end_number outcome prepared }
{
    match (outcome, prepared) {
        (Outcome::Commit, false) => 0x00,
        (Outcome::Abort, false) => 0x20,
        (Outcome::Commit, true) => 0x30,
        (Outcome::Abort, true) => 0x40,
    }
}

/// What ASSIGNMENT says (`xl_xact_assignment`). The transactions that are assigned stand behind it.
#[derive(Clone, Copy, Debug, PartialEq, Eq)]
pub struct Assignment {
    /// The top transaction.
    pub top: u32,
}

impl Assignment {
    /// The layout at the front of the main bytes, or `None` where there are fewer than 4.
    pub fn read(bytes: &[u8]) -> Option<Assignment>
        ensures { result ≡ assignment_of bytes.now }
    {
        if bytes.len() < 4 {
            return None;
        }
        Some(Assignment {
            top: u32_at(bytes, 0),
        })
    }
}
