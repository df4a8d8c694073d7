//! Why a dump is refused.

ghost use Rattle.std.specs.Prelude.{◌≡◌};
ghost use Rattle.waldump_core.specs.Faults.{log_cause, parts_cause};
ghost use Rattle.waldump_core.specs.declared.fault.DumpFault.TheVariants as faults;

use block_refs::PartsFault;
use cluster_tree::SinkFailed;
use std::alloc::AllocError;
use thiserror::Error;
use wal_base::Lsn;
use wal_records::{LogFault, Why};

/// Why a dump is refused, or why it was cut off. The lines before it stand.
#[derive(Clone, Copy, Debug, PartialEq, Eq, Error)]
pub enum DumpFault {
    /// The log has no record at or past the start whose last byte lies below the stop: the start.
    #[error("there is no record")]
    NoRecordAt(Lsn),
    /// The log ends before the stop and before the limit: the place at which it ends, and why.
    #[error("the log ends")]
    LogEnds(Lsn, Why),
    /// A record has no parts: its start, and the offset in its body of the first fragment at which
    /// no rule fits.
    #[error("a record has no parts")]
    BadParts(Lsn, u32),
    /// An image is compressed: the record's start, and the id of the block reference.
    #[error("an image is compressed")]
    Compressed(Lsn, u8),
    /// A read of the tree failed.
    #[error("a read failed")]
    ReadFault,
    /// A write on the sink failed.
    #[error("a write failed")]
    SinkFault,
    /// There was no memory.
    #[error("out of memory")]
    OutOfMemory,
}

impl From<AllocError> for DumpFault {
    ghost from_gives = { λ _ e. e ≡ faults.OutOfMemory };

    fn from(_error: AllocError) -> DumpFault {
        DumpFault::OutOfMemory
    }
}

impl From<wal_base::OutOfMemory> for DumpFault {
    ghost from_gives = { λ _ e. e ≡ faults.OutOfMemory };

    fn from(_error: wal_base::OutOfMemory) -> DumpFault {
        DumpFault::OutOfMemory
    }
}

impl From<cluster_tree::OutOfMemory> for DumpFault {
    ghost from_gives = { λ _ e. e ≡ faults.OutOfMemory };

    fn from(_error: cluster_tree::OutOfMemory) -> DumpFault {
        DumpFault::OutOfMemory
    }
}

impl From<SinkFailed> for DumpFault {
    ghost from_gives = { λ _ e. e ≡ faults.SinkFault };

    fn from(_error: SinkFailed) -> DumpFault {
        DumpFault::SinkFault
    }
}

impl From<LogFault> for DumpFault {
    ghost from_gives = { λ fault e. e ≡ log_cause fault };

    fn from(fault: LogFault) -> DumpFault {
        match fault {
            LogFault::ReadFault => DumpFault::ReadFault,
            LogFault::OutOfMemory => DumpFault::OutOfMemory,
        }
    }
}

impl From<PartsFault> for DumpFault {
    ghost from_gives = { λ fault e. e ≡ parts_cause fault };

    fn from(fault: PartsFault) -> DumpFault {
        match fault {
            PartsFault::BadParts(at, offset) => DumpFault::BadParts(at, offset),
            PartsFault::Compressed(at, id) => DumpFault::Compressed(at, id),
        }
    }
}
