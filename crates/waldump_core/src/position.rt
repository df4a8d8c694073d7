//! Positions as lines show them.

ghost use Rattle.std.specs.Prelude.{◌≡◌, ◌++◌, IfOk, string_bytes};
ghost use Rattle.wal_base.specs.Hex.{hex8, hex_text};
ghost use Rattle.wal_base.specs.Lsn.{lsn_padded};

use std::alloc::AllocError;
use std::str;
use wal_base::{Lsn, eight_digits, hex_digit};

/// Adds the eight digits of a number in hexadecimal.
#[tactic(auto, using(crate::proofs::LineLemmas::text_of_ascii))]
fn add_low(text: &mut String, number: u32) -> Result<(), AllocError>
    ensures { IfOk result (λ _. string_bytes text.new ≡ string_bytes text.old ++ hex8 number) }
{
    let digits = eight_digits(number);
    text.push_str(str::from_utf8(&digits).unwrap())
}

/// Adds a number in hexadecimal, which mostly has one digit.
fn add_high(text: &mut String, number: u32) -> Result<(), AllocError>
    ensures { IfOk result (λ _. string_bytes text.new ≡ string_bytes text.old ++ hex_text number) }
{
    if number < 16 {
        return text.push_str(hex_digit(number as u8));
    }
    write!(text, "{number:X}")
}

/// Adds a position, with eight digits behind the slash. Each line has two, so they aren't laid out
/// by `write!`, which is slower.
pub fn add_lsn(text: &mut String, at: Lsn) -> Result<(), AllocError>
    ensures { IfOk result (λ _. string_bytes text.new ≡ string_bytes text.old ++ lsn_padded at.0) }
{
    let high = (at.0 >> 32) as u32;
    let low = (at.0 % 0x1_0000_0000) as u32;
    add_high(text, high)?;
    text.push_str("/")?;
    add_low(text, low)
}
