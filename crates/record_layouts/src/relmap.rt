//! Operations of the manager RelMap, and the layout of one of them.

ghost use Rattle.std.specs.Prelude.{◌≡◌};
ghost use Rattle.record_layouts.specs.RelMap.{relmap_op_of, relmap_update_of, relmap_number, relmap_is_whole};

use crate::bytes::{Bytes, counted_bytes, word};

/// An operation of the manager RelMap (`XLOG_RELMAP_..` of src/include/utils/relmapper.h).
#[derive(Clone, Copy, Debug, PartialEq, Eq)]
pub enum RelMapOp {
    /// A relation map becomes another one.
    Update,
    /// An operation that version 16 does not have: its number, `info` without the low four bits.
    Unlisted(u8),
}

impl RelMapOp {
    /// The operation of a record with this `info`, whose low four bits belong to every manager alike.
    #[tactic(auto, unfolding(crate::specs::RelMap::relmap_op_of))]
    pub fn of(info: u8) -> RelMapOp
        ensures { result ≡ relmap_op_of info }
    {
        match info & 0xF0 {
            0x00 => RelMapOp::Update,
            number => RelMapOp::Unlisted(number),
        }
    }

    /// Its number, as `info` has it.
    pub fn number(self) -> u8
        ensures { result ≡ relmap_number self }
    {
        match self {
            RelMapOp::Update => 0x00,
            RelMapOp::Unlisted(number) => number,
        }
    }

    /// Whether the main bytes hold its whole layout. An operation whose layout isn't read here is
    /// whole.
    pub fn is_whole(self, main: &[u8]) -> bool
        ensures { result ≡ relmap_is_whole self main.now }
    {
        match self {
            RelMapOp::Update => RelMapUpdate::read(main).is_some(),
            RelMapOp::Unlisted(_) => true,
        }
    }
}

/// What UPDATE says (`xl_relmap_update`).
#[derive(Drop)]
pub struct RelMapUpdate<'a> {
    /// The database, or 0 for the shared map.
    pub database: u32,
    /// Its tablespace.
    pub space: u32,
    /// The bytes that the map becomes.
    pub map: Bytes<'a>,
}

impl<'a> RelMapUpdate<'a> {
    /// The layout at the front of the main bytes, or `None` where it isn't whole: the number of the
    /// map's bytes, which is signed, is negative, or fewer stand behind it.
    pub fn read(bytes: &'a [u8]) -> Option<RelMapUpdate<'a>>
        ensures { result ≡ relmap_update_of bytes.now }
    {
        let database = word(bytes)?;
        let space = word(database.rest.slice())?;
        let map = counted_bytes(space.rest.slice())?;
        Some(RelMapUpdate {
            database: database.value,
            space: space.value,
            map: map.value,
        })
    }
}
