//! Operations of the manager CLOG, and their layouts.

ghost use Rattle.std.specs.Prelude.{◌≡◌};
ghost use Rattle.record_layouts.specs.Clog.{clog_zero_page_of, clog_truncate_of, clog_op_of, clog_number, clog_is_whole};

use layout::u32_at;

/// An operation of the manager CLOG (`CLOG_..` of src/include/access/clog.h).
#[derive(Clone, Copy, Debug, PartialEq, Eq)]
pub enum ClogOp {
    /// A page of zeros is made.
    ZeroPage,
    /// Old pages go.
    Truncate,
    /// An operation that version 16 does not have: its number, `info` without the low four bits.
    Unlisted(u8),
}

impl ClogOp {
    /// The operation of a record with this `info`, whose low four bits belong to every manager alike.
    #[tactic(auto, unfolding(crate::specs::Clog::clog_op_of))]
    pub fn of(info: u8) -> ClogOp
        ensures { result ≡ clog_op_of info }
    {
        match info & 0xF0 {
            0x00 => ClogOp::ZeroPage,
            0x10 => ClogOp::Truncate,
            number => ClogOp::Unlisted(number),
        }
    }

    /// Its number, as `info` has it.
    pub fn number(self) -> u8
        ensures { result ≡ clog_number self }
    {
        match self {
            ClogOp::ZeroPage => 0x00,
            ClogOp::Truncate => 0x10,
            ClogOp::Unlisted(number) => number,
        }
    }

    /// Whether the main bytes hold its whole layout. An operation whose layout isn't read here is
    /// whole.
    pub fn is_whole(self, main: &[u8]) -> bool
        ensures { result ≡ clog_is_whole self main.now }
    {
        match self {
            ClogOp::ZeroPage => ClogZeroPage::read(main).is_some(),
            ClogOp::Truncate => ClogTruncate::read(main).is_some(),
            ClogOp::Unlisted(_) => true,
        }
    }
}

/// What ZEROPAGE says.
#[derive(Clone, Copy, Debug, PartialEq, Eq)]
pub struct ClogZeroPage {
    /// The number of the page of transaction status that is made.
    pub page: u32,
}

impl ClogZeroPage {
    /// The layout at the front of the main bytes, or `None` where there are fewer than 4.
    pub fn read(bytes: &[u8]) -> Option<ClogZeroPage>
        ensures { result ≡ clog_zero_page_of bytes.now }
    {
        if bytes.len() < 4 {
            return None;
        }
        Some(ClogZeroPage {
            page: u32_at(bytes, 0),
        })
    }
}

/// What TRUNCATE says (`xl_clog_truncate`).
#[derive(Clone, Copy, Debug, PartialEq, Eq)]
pub struct ClogTruncate {
    /// The first page that stays.
    pub page: u32,
    /// The oldest transaction id whose status is needed.
    pub oldest_xid: u32,
    /// The database that holds it.
    pub oldest_xid_db: u32,
}

impl ClogTruncate {
    /// The layout at the front of the main bytes, or `None` where there are fewer than 12.
    pub fn read(bytes: &[u8]) -> Option<ClogTruncate>
        ensures { result ≡ clog_truncate_of bytes.now }
    {
        if bytes.len() < 12 {
            return None;
        }
        Some(ClogTruncate {
            page: u32_at(bytes, 0),
            oldest_xid: u32_at(bytes, 4),
            oldest_xid_db: u32_at(bytes, 8),
        })
    }
}
