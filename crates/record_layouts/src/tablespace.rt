//! Operations of the manager Tablespace.

ghost use Rattle.std.specs.Prelude.{◌≡◌};
ghost use Rattle.record_layouts.specs.Tablespace.{tablespace_op_of, tablespace_number};

/// An operation of the manager Tablespace (`XLOG_TBLSPC_..` of src/include/commands/tablespace.h). Its layouts are not read.
#[derive(Clone, Copy, Debug, PartialEq, Eq)]
pub enum TablespaceOp {
    /// A tablespace is made.
    Create,
    /// A tablespace goes.
    Drop,
    /// An operation that version 16 does not have: its number, `info` without the low four bits.
    Unlisted(u8),
}

impl TablespaceOp {
    /// The operation of a record with this `info`, whose low four bits belong to every manager alike.
    #[tactic(auto, unfolding(crate::specs::Tablespace::tablespace_op_of))]
    pub fn of(info: u8) -> TablespaceOp
        ensures { result ≡ tablespace_op_of info }
    {
        match info & 0xF0 {
            0x00 => TablespaceOp::Create,
            0x10 => TablespaceOp::Drop,
            number => TablespaceOp::Unlisted(number),
        }
    }

    /// Its number, as `info` has it.
    pub fn number(self) -> u8
        ensures { result ≡ tablespace_number self }
    {
        match self {
            TablespaceOp::Create => 0x00,
            TablespaceOp::Drop => 0x10,
            TablespaceOp::Unlisted(number) => number,
        }
    }
}
