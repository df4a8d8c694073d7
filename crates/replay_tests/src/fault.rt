//! Why a row can't be run.
use block_refs::PartsFault;
use cluster_tree::{PathFault, TreeFault};
use hex::FromHexError;
use page_layout::PageRefusal;
use std::alloc::AllocError;
use thiserror::Error;
use wal_records::{LogFault, LogWriteFault};

/// Why a line can't be taken.
#[derive(Clone, Copy, Debug, Error)]
pub(crate) enum RowFault {
    /// There is no memory for it.
    #[error("out of memory")]
    OutOfMemory(#[from(alloc)] AllocError),
    /// It says of no kind that there is what the rows behind it are about.
    #[error("not a kind of rows")]
    NotAKind,
    /// It is a row, and no line before it says of which kind.
    #[error("a row of no kind")]
    NoKind,
    /// It has nothing that is wanted, or calls of the device that are none.
    #[error("not a row")]
    NotARow,
    /// Its call is none.
    #[error("not a call")]
    NotACall,
    /// It has an entry that is none.
    #[error("not an entry")]
    NotAnEntry,
    /// It has a fact that is none.
    #[error("not a fact")]
    NotAFact,
    /// It has a command for a page that is none.
    #[error("not a command for a page")]
    NotACommand,
    /// A word is no number, or too great a one.
    #[error("not a number that fits")]
    NotANumber,
    /// A word is no bytes.
    #[error("not bytes: {0}")]
    NotBytes(#[from] FromHexError),
    /// A word is no path.
    #[error("not a path: {0}")]
    NotAPath(#[from] PathFault),
    /// The path of a root or of a log has too many parts.
    #[error("a path with too many parts")]
    TooDeep,
    /// A word is no fork.
    #[error("not a fork")]
    NotAFork,
    /// A word is no area of status or multixacts.
    #[error("not an area")]
    NotAnArea,
    /// No block has its number.
    #[error("not the number of a block")]
    NotABlock,
    /// Bytes are laid past the end.
    #[error("bytes past the end")]
    PastTheEnd,
    /// The bytes of a record's part are more than its length can say.
    #[error("too many bytes of a record")]
    TooLong,
    /// No log has its record.
    #[error("not a record of a log")]
    NotARecord,
    /// Its record isn't written.
    #[error("the record can't be written: {0}")]
    NotWritten(#[from] LogWriteFault),
    /// Its record isn't read.
    #[error("the record can't be read: {0}")]
    NotRead(#[from] LogFault),
    /// Its record has no parts.
    #[error("{0}")]
    NoParts(#[from] PartsFault),
    /// Its record isn't in the profile.
    #[error("the record is not in the profile")]
    NotInProfile,
    /// The page refuses a command.
    #[error("the page refuses it: {0}")]
    PageRefuses(#[from] PageRefusal),
    /// The tree refuses an entry.
    #[error("the tree refuses it: {0}")]
    TreeRefuses(#[from] TreeFault),
}

impl From<wal_base::OutOfMemory> for RowFault {
    fn from(_: wal_base::OutOfMemory) -> RowFault {
        RowFault::OutOfMemory(AllocError)
    }
}

impl From<cluster_tree::OutOfMemory> for RowFault {
    fn from(_: cluster_tree::OutOfMemory) -> RowFault {
        RowFault::OutOfMemory(AllocError)
    }
}

/// Which line of a text can't be taken, from 1, and why.
#[derive(Clone, Copy, Debug, Error)]
#[error("line {line}: {fault}")]
pub(crate) struct TextFault {
    pub(crate) line: usize,
    pub(crate) fault: RowFault,
}
