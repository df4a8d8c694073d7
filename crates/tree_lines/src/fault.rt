// Why a line can't be taken.
use cluster_tree::{PathFault, TreeFault};
use hex::FromHexError;
use std::alloc::{AllocError, AllocFailed};
use thiserror::Error;

/// Why a line can't be taken.
#[derive(Clone, Copy, Debug, Error)]
pub enum LineFault {
    /// There is no memory for it.
    #[error("out of memory")]
    OutOfMemory,
    /// A word isn't what the line needs.
    #[error("not a line of a tree")]
    NotALine,
    /// A word is no number, or too great a one.
    #[error("not a number that fits")]
    NotANumber,
    /// A word is no path, or too deep a one.
    #[error("not a path")]
    NotAPath,
    /// A word is no pairs of hexadecimal digits.
    #[error("not bytes")]
    NotBytes,
    /// The tree refuses it.
    #[error("the tree refuses it: {0}")]
    Refused(#[from] TreeFault),
}

impl From<AllocError> for LineFault {
    fn from(_: AllocError) -> LineFault {
        LineFault::OutOfMemory
    }
}

impl<T: Drop> From<AllocFailed<T>> for LineFault {
    fn from(_: AllocFailed<T>) -> LineFault {
        LineFault::OutOfMemory
    }
}

impl From<PathFault> for LineFault {
    fn from(cause: PathFault) -> LineFault {
        match cause {
            PathFault::OutOfMemory => LineFault::OutOfMemory,
            PathFault::Empty | PathFault::DotDot | PathFault::TooDeep => LineFault::NotAPath,
        }
    }
}

impl From<FromHexError> for LineFault {
    fn from(_: FromHexError) -> LineFault {
        LineFault::NotBytes
    }
}
