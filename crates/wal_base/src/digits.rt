//! Numbers written as hexadecimal digits, 0 to 9 and A to F.

ghost use Rattle.std.specs.Prelude.{◌≡◌, ◌<◌, ◌%◌, true};
ghost use Rattle.std.specs.Fmt.{digit_glyph};
ghost use Rattle.std.specs.Str.{IsAscii};
ghost use Rattle.wal_base.specs.Hex.{hex8, hex_text};

use std::fmt;

/// The digit of a number below 16.
#[tactic(auto, using(crate::proofs::GlyphLemmas::digit_steps))]
pub fn hex_digit(number: u8) -> &'static str
    requires { number < 16 }
    ensures { result.now ≡ hex_text number }
{
    match number {
        0 => "0",
        1 => "1",
        2 => "2",
        3 => "3",
        4 => "4",
        5 => "5",
        6 => "6",
        7 => "7",
        8 => "8",
        9 => "9",
        10 => "A",
        11 => "B",
        12 => "C",
        13 => "D",
        14 => "E",
        _ => "F",
    }
}

/// The last digit of a number.
fn last_digit(number: u32) -> u8
    ensures value { result ≡ digit_glyph true (number % 16) }
    ensures ascii { result < 128 }
{
    let digit = (number % 16) as u8;
    if digit < 10 {
        b'0' + digit
    } else {
        b'A' + (digit - 10)
    }
}

/// The eight digits of a number (`%08X`). They are a text, and cheaper than `write!`.
#[tactic(auto, unfolding(crate::specs::Hex::hex_digits))]
pub fn eight_digits(number: u32) -> [u8; 8]
    ensures value { result ≡ hex8 number }
    ensures ascii { IsAscii result }
{
    [
        last_digit(number / 0x1000_0000),
        last_digit(number / 0x100_0000),
        last_digit(number / 0x10_0000),
        last_digit(number / 0x1_0000),
        last_digit(number / 0x1000),
        last_digit(number / 0x100),
        last_digit(number / 0x10),
        last_digit(number),
    ]
}

/// A byte, which shows as its two digits (`%02X`).
#[derive(Clone, Copy, Debug)]
pub struct HexByte(pub u8);

impl fmt::Display for HexByte {
    ghost use Rattle.std.specs.Prelude.{Some};
    ghost use Rattle.wal_base.specs.Hex.{hex2};

    ghost output = { λ byte. Some (hex2 byte.0) };

    #[tactic(auto, using(crate::proofs::GlyphLemmas::digit_steps))]
    fn fmt<W: fmt::Write>(&self, f: &mut fmt::Formatter<W>) -> fmt::Result {
        let high = hex_digit(self.0 / 16);
        let low = hex_digit(self.0 % 16);
        write!(f, "{high}{low}")
    }
}

/// A number, which shows as its digits, with zeros before them where they are fewer than `width`: `%04X` for a width
/// of 4.
#[derive(Clone, Copy, Debug)]
pub struct HexWord {
    /// How many digits are shown at least.
    pub width: usize,
    /// The number.
    pub number: u64,
}

impl fmt::Display for HexWord {
    ghost use Rattle.std.specs.Prelude.{Some};
    ghost use Rattle.wal_base.specs.Hex.{upper_hex};

    ghost output = { λ word. Some (upper_hex word.width word.number) };

    fn fmt<W: fmt::Write>(&self, f: &mut fmt::Formatter<W>) -> fmt::Result {
        let width = self.width;
        let number = self.number;
        write!(f, "{number:0width$X}")
    }
}
