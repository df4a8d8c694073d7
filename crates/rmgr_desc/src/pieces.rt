//! Pieces that the texts of records are made of.

ghost use Rattle.std.specs.Prelude.{◌≡◌, ◌++◌, [], IfOk, OnErr, codes, is_ok, string_bytes};
ghost use Rattle.rmgr_desc.specs.Pieces.{switch_text};

use std::alloc::AllocError;
use std::fmt;
use wal_base::{HexByte, OutOfMemory};

/// A byte of flags, which shows as `0x` and two hexadecimal digits.
#[derive(Clone, Copy)]
pub struct Flags(pub u8);

impl fmt::Display for Flags {
    ghost use Rattle.std.specs.Prelude.{Some};
    ghost use Rattle.rmgr_desc.specs.Pieces.{flags_text};

    ghost output = { λ flags. Some (flags_text flags.0) };

    fn fmt<W: fmt::Write>(&self, f: &mut fmt::Formatter<W>) -> fmt::Result {
        let digits = HexByte(self.0);
        write!(f, "0x{digits}")
    }
}

/// The word for a setting that is 0 or 1.
#[tactic(auto, unfolding(crate::specs::Pieces::switch_text))]
pub fn switch(setting: u8) -> &'static str
    ensures { result.now ≡ switch_text setting }
{
    if setting == 0 { "off" } else { "on" }
}

/// Says that a layout isn't whole.
pub fn add_short(text: &mut String) -> Result<(), AllocError>
    ensures { IfOk result (λ _. string_bytes text.new ≡ string_bytes text.old ++ codes "(short)") }
{
    text.push_str("(short)")
}

/// Hands an outcome on, and empties the text where it is want of memory: nobody goes on with a part
/// of a text.
pub fn or_emptied(text: &mut String, added: Result<(), AllocError>) -> Result<(), OutOfMemory>
    ensures ok { IfOk result (λ _. string_bytes text.new ≡ string_bytes text.old) }
    ensures same { is_ok result ≡ is_ok added }
    ensures err { OnErr result (string_bytes text.new ≡ []) }
{
    match added {
        Ok(()) => Ok(()),
        Err(_) => {
            text.clear();
            Err(OutOfMemory)
        }
    }
}
