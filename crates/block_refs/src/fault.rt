//! Why a record has no parts.

ghost use Rattle.std.specs.Prelude.{◌≡◌};
ghost use Rattle.block_refs.specs.Outcomes.{fault_of};

use thiserror::Error;
use wal_base::Lsn;

/// The first flaw of a record's body.
#[derive(Clone, Copy, Debug, PartialEq, Eq)]
pub enum Flaw {
    /// No rule fits the fragment at this offset.
    Bad(u32),
    /// The image of the block reference with this id is compressed.
    Compressed(u8),
}

/// Why a record has no parts.
#[derive(Clone, Copy, Debug, PartialEq, Eq, Error)]
pub enum PartsFault {
    /// No rule fits a fragment: the record's start, and the offset in its body of the first such
    /// fragment.
    #[error("a record has no parts")]
    BadParts(Lsn, u32),
    /// An image is compressed: the record's start, and the id of the first such block reference.
    #[error("an image is compressed")]
    Compressed(Lsn, u8),
}

/// The fault of the record at `start` with this flaw.
pub fn fault_of(start: Lsn, flaw: Flaw) -> PartsFault
    ensures { result ≡ fault_of start flaw }
{
    match flaw {
        Flaw::Bad(at) => PartsFault::BadParts(start, at),
        Flaw::Compressed(id) => PartsFault::Compressed(start, id),
    }
}
