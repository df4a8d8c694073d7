//! Why a record can't be replayed, whatever the cluster is.

ghost use Rattle.std.specs.Prelude.{◌≡◌};
ghost use Rattle.replay_profile.specs.Profile.{without_parts};

use block_refs::PartsFault;
use thiserror::Error;
use wal_base::Lsn;

/// Why a record can't be replayed, whatever the cluster is.
#[derive(Clone, Copy, Debug, PartialEq, Eq, Error)]
pub enum ProfileFault {
    /// No rule fits a fragment of its body: the record's start, and the offset of the first such
    /// fragment.
    #[error("a record has no parts")]
    BadParts(Lsn, u32),
    /// An image is compressed: the record's start, and the id of the first such block reference.
    #[error("an image is compressed")]
    Compressed(Lsn, u8),
    /// Replay doesn't take it: the record's start, its resource manager and its `info`.
    #[error("a record is not in the profile of replay")]
    NotInProfile(Lsn, u8, u8),
}

/// Why a record has no parts.
pub(crate) fn without_parts(fault: PartsFault) -> ProfileFault
    ensures { result ≡ without_parts fault }
{
    match fault {
        PartsFault::BadParts(start, offset) => ProfileFault::BadParts(start, offset),
        PartsFault::Compressed(start, id) => ProfileFault::Compressed(start, id),
    }
}
