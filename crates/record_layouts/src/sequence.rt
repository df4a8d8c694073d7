//! Operations of the manager Sequence, and the layout of one of them.

ghost use Rattle.std.specs.Prelude.{◌≡◌};
ghost use Rattle.record_layouts.specs.Sequence.{sequence_op_of, sequence_log_of, sequence_number, sequence_is_whole};

use crate::bytes::Bytes;
use crate::fields::relation_at;
use block_refs::RelName;

/// An operation of the manager Sequence (`XLOG_SEQ_..` of src/include/commands/sequence.h).
#[derive(Clone, Copy, Debug, PartialEq, Eq)]
pub enum SequenceOp {
    /// A sequence's page is made anew.
    Log,
    /// An operation that version 16 does not have: its number, `info` without the low four bits.
    Unlisted(u8),
}

impl SequenceOp {
    /// The operation of a record with this `info`, whose low four bits belong to every manager alike.
    #[tactic(auto, unfolding(crate::specs::Sequence::sequence_op_of))]
    pub fn of(info: u8) -> SequenceOp
        ensures { result ≡ sequence_op_of info }
    {
        match info & 0xF0 {
            0x00 => SequenceOp::Log,
            number => SequenceOp::Unlisted(number),
        }
    }

    /// Its number, as `info` has it.
    pub fn number(self) -> u8
        ensures { result ≡ sequence_number self }
    {
        match self {
            SequenceOp::Log => 0x00,
            SequenceOp::Unlisted(number) => number,
        }
    }

    /// Whether the main bytes hold its whole layout. An operation whose layout isn't read here is
    /// whole.
    pub fn is_whole(self, main: &[u8]) -> bool
        ensures { result ≡ sequence_is_whole self main.now }
    {
        match self {
            SequenceOp::Log => SequenceLog::read(main).is_some(),
            SequenceOp::Unlisted(_) => true,
        }
    }
}

/// What LOG says (`xl_seq_rec`).
#[derive(Drop)]
pub struct SequenceLog<'a> {
    /// The sequence.
    pub rel: RelName,
    /// Its tuple: all bytes behind the name.
    pub tuple: Bytes<'a>,
}

impl<'a> SequenceLog<'a> {
    /// The layout of the main bytes, or `None` where there are fewer than 12.
    pub fn read(bytes: &'a [u8]) -> Option<SequenceLog<'a>>
        ensures { result ≡ sequence_log_of bytes.now }
    {
        if bytes.len() < 12 {
            return None;
        }
        Some(SequenceLog {
            rel: relation_at(bytes, 0),
            tuple: Bytes::new(&bytes[12..]),
        })
    }
}
