// Why a text of cases can't be run.
use cluster_tree::{PathFault, TreeFault};
use hex::FromHexError;
use std::alloc::{AllocError, AllocFailed};
use thiserror::Error;
use wal_records::LogWriteFault;

/// Why a line can't be taken.
#[derive(Clone, Copy, Debug, Error)]
pub enum LineFault {
    /// There is no memory for it.
    #[error("out of memory")]
    OutOfMemory,
    /// It is none of the lines of a case.
    #[error("not a line of a case")]
    NotALine,
    /// A word is no number, or too great a one.
    #[error("not a number that fits")]
    NotANumber,
    /// A word is no path.
    #[error("not a path: {0}")]
    NotAPath(#[from] PathFault),
    /// A word is no pairs of hexadecimal digits.
    #[error("not bytes: {0}")]
    NotBytes(#[from] FromHexError),
    /// Nothing was named so.
    #[error("nothing was named so")]
    NotNamed,
    /// It doesn't say which calls fail.
    #[error("not calls that may fail")]
    NotCalls,
    /// It has no field of a control file.
    #[error("not a field of a control file")]
    NotAField,
    /// It is no place where a log begins, or no size of its segments.
    #[error("not a start of a log")]
    NotAStart,
    /// No log was begun.
    #[error("no log was begun")]
    NoLog,
    /// Its record is none that a log can have.
    #[error("not a record of a log")]
    NotARecord,
    /// Its record isn't written.
    #[error("the record can't be written: {0}")]
    NotWritten(#[from] LogWriteFault),
    /// No pair can be made.
    #[error("no pair is made")]
    NoPair,
    /// The tree holds too many entries.
    #[error("too many entries")]
    TooMany,
    /// The tree refuses it.
    #[error("the tree refuses it: {0}")]
    Refused(#[from] TreeFault),
}

impl From<AllocError> for LineFault {
    fn from(_: AllocError) -> LineFault {
        LineFault::OutOfMemory
    }
}

impl<T: Drop> From<AllocFailed<T>> for LineFault {
    fn from(_: AllocFailed<T>) -> LineFault {
        LineFault::OutOfMemory
    }
}

impl From<wal_base::OutOfMemory> for LineFault {
    fn from(_: wal_base::OutOfMemory) -> LineFault {
        LineFault::OutOfMemory
    }
}

impl From<cluster_tree::OutOfMemory> for LineFault {
    fn from(_: cluster_tree::OutOfMemory) -> LineFault {
        LineFault::OutOfMemory
    }
}

/// Which line of a text can't be taken, from 1, and why.
#[derive(Clone, Copy, Debug, Error)]
#[error("line {line}: {fault}")]
pub struct TextFault {
    pub line: usize,
    pub fault: LineFault,
}
