//! Why a log ends.

/// Why a log ends at a place: the first of these that holds, as reading goes on from there.
#[derive(Clone, Copy, Debug, PartialEq, Eq)]
pub enum Why {
    /// The place isn't a multiple of 8, or lies in a page's header.
    Place,
    /// A page that is needed lies in a segment that has no file, or the record would end at 2^64.
    NoSegment,
    /// A page that is needed reaches past the end of its segment's file.
    ShortSegment,
    /// A page that is needed isn't valid.
    Page,
    /// A record goes on at the place from before, or a further page doesn't announce what is still
    /// to come of this one.
    Continuation,
    /// The length is 0, as in the part of a segment that was never written.
    ZeroLength,
    /// The length is below that of a header, 24 bytes.
    ShortLength,
    /// The length is above 1020 MiB.
    TooLong,
    /// No resource manager has the number.
    Manager,
    /// The link back isn't to the record before; or, of a cursor's first record, isn't below it.
    Prev,
    /// The checksum isn't that of the record's bytes.
    Crc,
}

/// Why a place spells no record.
#[derive(Clone, Copy, Debug, PartialEq, Eq)]
pub enum Stop {
    /// The log ends at the place.
    Ends(Why),
    /// The page that begins at this position says that the record begun before was dropped.
    Dropped(u64),
}
