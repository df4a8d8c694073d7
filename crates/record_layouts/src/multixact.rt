//! Operations of the manager MultiXact, and their layouts.

ghost use Rattle.std.specs.Prelude.{◌≡◌};
ghost use Rattle.record_layouts.specs.MultiXact.{multixact_zero_page_of, multixact_truncate_of, multixact_op_of, multixact_create_of, multixact_number, multixact_is_whole};

use crate::bytes::word;
use crate::items::Items;
use crate::kinds::Member;
use layout::u32_at;

/// An operation of the manager MultiXact (`XLOG_MULTIXACT_..` of src/include/access/multixact.h).
#[derive(Clone, Copy, Debug, PartialEq, Eq)]
pub enum MultiXactOp {
    /// A page of offsets is made (ZERO_OFF_PAGE).
    ZeroOffsetsPage,
    /// A page of members is made (ZERO_MEM_PAGE).
    ZeroMembersPage,
    /// A multixact is made.
    CreateId,
    /// Old multixacts go.
    TruncateId,
    /// An operation that version 16 does not have: its number, `info` without the low four bits.
    Unlisted(u8),
}

impl MultiXactOp {
    /// The operation of a record with this `info`, whose low four bits belong to every manager alike.
    #[tactic(auto, unfolding(crate::specs::MultiXact::multixact_op_of))]
    pub fn of(info: u8) -> MultiXactOp
        ensures { result ≡ multixact_op_of info }
    {
        match info & 0xF0 {
            0x00 => MultiXactOp::ZeroOffsetsPage,
            0x10 => MultiXactOp::ZeroMembersPage,
            0x20 => MultiXactOp::CreateId,
            0x30 => MultiXactOp::TruncateId,
            number => MultiXactOp::Unlisted(number),
        }
    }

    /// Its number, as `info` has it.
    pub fn number(self) -> u8
        ensures { result ≡ multixact_number self }
    {
        match self {
            MultiXactOp::ZeroOffsetsPage => 0x00,
            MultiXactOp::ZeroMembersPage => 0x10,
            MultiXactOp::CreateId => 0x20,
            MultiXactOp::TruncateId => 0x30,
            MultiXactOp::Unlisted(number) => number,
        }
    }

    /// Whether the main bytes hold its whole layout. An operation whose layout isn't read here is
    /// whole.
    pub fn is_whole(self, main: &[u8]) -> bool
        ensures { result ≡ multixact_is_whole self main.now }
    {
        match self {
            MultiXactOp::ZeroOffsetsPage | MultiXactOp::ZeroMembersPage => MultiXactZeroPage::read(
                main,
            ).is_some(),
            MultiXactOp::CreateId => MultiXactCreate::read(main).is_some(),
            MultiXactOp::TruncateId => MultiXactTruncate::read(main).is_some(),
            MultiXactOp::Unlisted(_) => true,
        }
    }
}

/// What CREATE_ID says (`xl_multixact_create`).
#[derive(Drop)]
pub struct MultiXactCreate<'a> {
    /// The multixact that is made.
    pub multi: u32,
    /// The place of its first member.
    pub offset: u32,
    /// Its members.
    pub members: Items<'a, Member>,
}

impl<'a> MultiXactCreate<'a> {
    /// The layout at the front of the main bytes, or `None` where it isn't whole: the number of
    /// members, which is signed, is negative, or fewer stand behind it.
    pub fn read(bytes: &'a [u8]) -> Option<MultiXactCreate<'a>>
        ensures { result ≡ multixact_create_of bytes.now }
    {
        let multi = word(bytes)?;
        let offset = word(multi.rest.slice())?;
        let members = Items::read(offset.rest.slice())?;
        Some(MultiXactCreate {
            multi: multi.value,
            offset: offset.value,
            members: members.value,
        })
    }
}

/// What ZERO_OFF_PAGE and ZERO_MEM_PAGE say.
#[derive(Clone, Copy, Debug, PartialEq, Eq)]
pub struct MultiXactZeroPage {
    /// The number of the page of offsets or of members that is made.
    pub page: u32,
}

impl MultiXactZeroPage {
    /// The layout at the front of the main bytes, or `None` where there are fewer than 4.
    pub fn read(bytes: &[u8]) -> Option<MultiXactZeroPage>
        ensures { result ≡ multixact_zero_page_of bytes.now }
    {
        if bytes.len() < 4 {
            return None;
        }
        Some(MultiXactZeroPage {
            page: u32_at(bytes, 0),
        })
    }
}

/// What TRUNCATE_ID says (`xl_multixact_truncate`).
#[derive(Clone, Copy, Debug, PartialEq, Eq)]
pub struct MultiXactTruncate {
    /// The database that holds the oldest multixact.
    pub database: u32,
    /// The first multixact that goes.
    pub first_multi: u32,
    /// The first multixact that stays.
    pub end_multi: u32,
    /// The first place of members that goes.
    pub first_offset: u32,
    /// The first place of members that stays.
    pub end_offset: u32,
}

impl MultiXactTruncate {
    /// The layout at the front of the main bytes, or `None` where there are fewer than 20.
    pub fn read(bytes: &[u8]) -> Option<MultiXactTruncate>
        ensures { result ≡ multixact_truncate_of bytes.now }
    {
        if bytes.len() < 20 {
            return None;
        }
        Some(MultiXactTruncate {
            database: u32_at(bytes, 0),
            first_multi: u32_at(bytes, 4),
            end_multi: u32_at(bytes, 8),
            first_offset: u32_at(bytes, 12),
            end_offset: u32_at(bytes, 16),
        })
    }
}
