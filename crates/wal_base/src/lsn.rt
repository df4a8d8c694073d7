//! Positions in the log.

ghost use Rattle.std.specs.Prelude.{◌≡◌, IfOk};

use crate::hex;
use crate::memory::OutOfMemory;
use crate::text::Text;
use std::alloc::Global;
use std::fmt;

/// A position in the write-ahead log: the number of bytes before it.
#[derive(Clone, Copy, Debug, PartialEq, Eq, PartialOrd, Ord)]
pub struct Lsn(pub u64);

impl Lsn {
    ghost use Rattle.wal_base.specs.Lsn.{lsn_of, lsn_text, lsn_padded};

    /// The position that a text names: one to eight hexadecimal digits of either case, `/`, and one to eight such
    /// digits. `None` for every other text.
    pub fn parse(text: &str) -> Option<Lsn>
        ensures value { result ≡ lsn_of text.now }
    {
        let (high, low) = text.split_once('/')?;
        let high = hex::word(high.as_bytes())?;
        let low = hex::word(low.as_bytes())?;
        Some(Lsn((u64::from(high) << 32) + u64::from(low)))
    }

    /// The position as `%X/%X` of its high and its low half, as `0/16B3748`.
    /// Answers `OutOfMemory` only for want of memory.
    pub fn text(self, alloc: Global) -> Result<Text, OutOfMemory>
        ensures value { IfOk result (λ text. text ≡ lsn_text self.0) }
        ensures again { IfOk result (λ text. lsn_of text ≡ Some self) }
    {
        Ok(Text::from(self.to_string(alloc)?))
    }

    /// The position as `%X/%08X` of its high and its low half, as `0/016B3748`.
    /// Answers `OutOfMemory` only for want of memory.
    pub fn padded(self, alloc: Global) -> Result<Text, OutOfMemory>
        ensures value { IfOk result (λ text. text ≡ lsn_padded self.0) }
        ensures again { IfOk result (λ text. lsn_of text ≡ Some self) }
    {
        let high = self.0 >> 32;
        let low = self.0 % 0x1_0000_0000;
        Ok(Text::from(format!(in alloc; "{high:X}/{low:08X}")?))
    }
}

impl fmt::Display for Lsn {
    ghost use Rattle.std.specs.Prelude.{Some};
    ghost use Rattle.wal_base.specs.Lsn.{lsn_text};

    ghost output = { λ at. Some (lsn_text at.0) };

    fn fmt<W: fmt::Write>(&self, f: &mut fmt::Formatter<W>) -> fmt::Result {
        let high = self.0 >> 32;
        let low = self.0 % 0x1_0000_0000;
        write!(f, "{high:X}/{low:X}")
    }
}
