//! Why a walk over a log is refused.

ghost use Rattle.std.specs.Prelude.{◌≡◌};
ghost use Rattle.log_walk.specs.Faults.{log_cause, parts_cause, touch_cause};

use block_refs::PartsFault;
use thiserror::Error;
use touched_blocks::TouchFault;
use wal_base::Lsn;
use wal_records::{LogFault, Why};

/// Why a walk over a log is refused.
#[derive(Clone, Copy, Debug, PartialEq, Eq, Error)]
pub enum LogWalkFault {
    /// The log ends where a record is needed: the place at which it ends, and why.
    #[error("the log ends")]
    LogEnds(Lsn, Why),
    /// A record has no parts: its start, and the offset in its body of the first fragment at which
    /// no rule fits. Of a checkpoint record whose main bytes are fewer than a checkpoint's, the
    /// offset is the length of its body.
    #[error("a record has no parts")]
    BadParts(Lsn, u32),
    /// An image is compressed: the record's start, and the id of the block reference.
    #[error("an image is compressed")]
    Compressed(Lsn, u8),
    /// No checkpoint stands before the fork: the start of the record that links to none before it.
    #[error("there is no common checkpoint")]
    NoCommonCheckpoint(Lsn),
    /// A record changes relations in a way that isn't known, or its fields aren't whole: its start,
    /// its resource manager and its `info`.
    #[error("a record changes relations in an unknown way")]
    UnknownSpecial(Lsn, u8, u8),
    /// The end isn't that of a record: the end, and where the record ends that starts below it.
    #[error("the log's end is not the end of a record")]
    EndNotRecord(Lsn, Lsn),
    /// A read of the tree failed.
    #[error("a read failed")]
    ReadFault,
    /// There was no memory.
    #[error("out of memory")]
    OutOfMemory,
}

impl From<LogFault> for LogWalkFault {
    ghost from_gives = { λ fault e. e ≡ log_cause fault };

    fn from(fault: LogFault) -> LogWalkFault {
        match fault {
            LogFault::ReadFault => LogWalkFault::ReadFault,
            LogFault::OutOfMemory => LogWalkFault::OutOfMemory,
        }
    }
}

impl From<PartsFault> for LogWalkFault {
    ghost from_gives = { λ fault e. e ≡ parts_cause fault };

    fn from(fault: PartsFault) -> LogWalkFault {
        match fault {
            PartsFault::BadParts(at, offset) => LogWalkFault::BadParts(at, offset),
            PartsFault::Compressed(at, id) => LogWalkFault::Compressed(at, id),
        }
    }
}

impl From<TouchFault> for LogWalkFault {
    ghost from_gives = { λ fault e. e ≡ touch_cause fault };

    fn from(fault: TouchFault) -> LogWalkFault {
        match fault {
            TouchFault::UnknownSpecial(at, manager, info) => {
                LogWalkFault::UnknownSpecial(at, manager, info)
            }
            TouchFault::OutOfMemory => LogWalkFault::OutOfMemory,
        }
    }
}
