//! What a rule of a valid page is about.

use thiserror::Error;

/// A field of a page's header, each with one rule of a valid page, in the order in which they are
/// tried.
#[derive(Clone, Copy, Debug, PartialEq, Eq, Error)]
pub enum PageField {
    /// The first two bytes are D113 (`xlp_magic`).
    #[error("Magic")]
    Magic,
    /// No unknown bit is set, and the long header's bit exactly on a segment's first page
    /// (`xlp_info`).
    #[error("Info")]
    Info,
    /// The timeline is from 1 to that of the segment's file (`xlp_tli`).
    #[error("Timeline")]
    Timeline,
    /// The address is the page's position (`xlp_pageaddr`).
    #[error("Address")]
    Address,
    /// On a segment's first page the system is the log's, where that is given (`xlp_sysid`).
    #[error("System")]
    System,
    /// On a segment's first page the segment size is the log's (`xlp_seg_size`).
    #[error("SegmentSize")]
    SegmentSize,
    /// On a segment's first page the page size is 8192 (`xlp_xlog_blcksz`).
    #[error("BlockSize")]
    BlockSize,
}
