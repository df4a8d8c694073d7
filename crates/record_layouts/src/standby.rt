//! Operations of the manager Standby, and the layout of one of them.

ghost use Rattle.std.specs.Prelude.{◌≡◌};
ghost use Rattle.record_layouts.specs.Standby.{running_xacts_of, standby_op_of, standby_number, standby_is_whole};

use crate::fields::i32_at;
use layout::{u8_at, u32_at};

/// An operation of the manager Standby (`XLOG_..` of src/include/storage/standbydefs.h).
#[derive(Clone, Copy, Debug, PartialEq, Eq)]
pub enum StandbyOp {
    /// Locks are held.
    Lock,
    /// Which transactions are running.
    RunningXacts,
    /// Caches are no longer valid.
    Invalidations,
    /// An operation that version 16 does not have: its number, `info` without the low four bits.
    Unlisted(u8),
}

impl StandbyOp {
    /// The operation of a record with this `info`, whose low four bits belong to every manager alike.
    #[tactic(auto, unfolding(crate::specs::Standby::standby_op_of))]
    pub fn of(info: u8) -> StandbyOp
        ensures { result ≡ standby_op_of info }
    {
        match info & 0xF0 {
            0x00 => StandbyOp::Lock,
            0x10 => StandbyOp::RunningXacts,
            0x20 => StandbyOp::Invalidations,
            number => StandbyOp::Unlisted(number),
        }
    }

    /// Its number, as `info` has it.
    pub fn number(self) -> u8
        ensures { result ≡ standby_number self }
    {
        match self {
            StandbyOp::Lock => 0x00,
            StandbyOp::RunningXacts => 0x10,
            StandbyOp::Invalidations => 0x20,
            StandbyOp::Unlisted(number) => number,
        }
    }

    /// Whether the main bytes hold its whole layout. An operation whose layout isn't read here is
    /// whole.
    pub fn is_whole(self, main: &[u8]) -> bool
        ensures { result ≡ standby_is_whole self main.now }
    {
        match self {
            StandbyOp::RunningXacts => RunningXacts::read(main).is_some(),
            StandbyOp::Lock | StandbyOp::Invalidations | StandbyOp::Unlisted(_) => true,
        }
    }
}

/// What RUNNING_XACTS says (`xl_running_xacts`), but for the transactions behind it, which nothing here reads: so its counts are numbers like all others.
#[derive(Clone, Copy, Debug, PartialEq, Eq)]
pub struct RunningXacts {
    /// How many transactions stand behind it.
    pub count: i32,
    /// How many subtransactions stand behind these.
    pub subcount: i32,
    /// Whether subtransactions are missing: 0 or 1, where a server wrote it.
    pub overflow: u8,
    /// The next transaction id.
    pub next_xid: u32,
    /// The oldest transaction id that was running.
    pub oldest_xid: u32,
    /// The latest transaction id that had ended.
    pub latest_xid: u32,
}

impl RunningXacts {
    /// The layout at the front of the main bytes, or `None` where there are fewer than 24.
    pub fn read(bytes: &[u8]) -> Option<RunningXacts>
        ensures { result ≡ running_xacts_of bytes.now }
    {
        if bytes.len() < 24 {
            return None;
        }
        Some(RunningXacts {
            count: i32_at(bytes, 0),
            subcount: i32_at(bytes, 4),
            overflow: u8_at(bytes, 8),
            next_xid: u32_at(bytes, 12),
            oldest_xid: u32_at(bytes, 16),
            latest_xid: u32_at(bytes, 20),
        })
    }
}
