//! Why there is no page.

use crate::field::PageField;
use thiserror::Error;
use wal_base::{Lsn, OutOfMemory, Segment};

/// Why there is no page.
#[derive(Clone, Copy, Debug, PartialEq, Eq, Error)]
pub enum PageFault {
    /// The folder has no file of this segment's name: no entry, or a folder or a link.
    #[error("a segment file is missing")]
    SegmentMissing(Segment),
    /// The page reaches past the end of this segment's file.
    #[error("a segment file is too short")]
    ShortSegment(Segment),
    /// The page at this position breaks a rule: the first one, in the order of `PageField`.
    #[error("the page at {0} has a bad field: {1}")]
    BadPage(Lsn, PageField),
    /// A read of the device failed.
    #[error("a read failed")]
    ReadFault,
    /// There was no memory.
    #[error("out of memory")]
    OutOfMemory,
}

impl From<OutOfMemory> for PageFault {
    ghost use Rattle.std.specs.Prelude.{◌≡◌};
    ghost use Rattle.wal_pages.specs.declared.fault.PageFault.TheVariants as fault;

    ghost from_gives = { λ _ e. e ≡ fault.OutOfMemory };

    fn from(_: OutOfMemory) -> PageFault {
        PageFault::OutOfMemory
    }
}
