// Numbers in the words of pg_resetwal, which are hexadecimal, octal or decimal.
ghost use Rattle.std.specs.Prelude.{◌≡◌, ◌≤◌};
ghost use Rattle.std.specs.Char.{is_digit};
ghost use Rattle.std.specs.List.{list_all};
ghost use Rattle.wal_base.specs.Decimal.{has_leading_zero};
ghost use Rattle.command_words.specs.Answers.{AnswersAs};
ghost use Rattle.tool_words.specs.Forms.{given};
ghost use Rattle.tool_words.specs.Numbers.{is_hex, is_numeral, name_numbers_of, number_of, numeral, pair_of};

use crate::forms::{Form, cut};
use command_words::{Found, WordsFault};
use std::str;
use wal_base::is_long_name;

fn all_digits(radix: u32, text: &[u8]) -> bool
    requires lower { 2 ≤ radix }
    requires upper { radix ≤ 16 }
    ensures { result ≡ list_all (λ c. is_digit c radix) text.now }
{
    text.iter().all(|byte| char::from(*byte).is_digit(radix))
}

// At least one digit of this radix, and nothing else.
fn is_numeral(radix: u32, text: &[u8]) -> bool
    requires lower { 2 ≤ radix }
    requires upper { radix ≤ 16 }
    ensures { result ≡ is_numeral radix text.now }
{
    !text.is_empty() && all_digits(radix, text)
}

// The number below 2^32 that digits of this radix write.
#[tactic(auto, unfolding(crate::specs::Numbers::numeral))]
fn numeral(radix: u32, text: &[u8]) -> Option<u32>
    requires lower { 2 ≤ radix }
    requires upper { radix ≤ 16 }
    ensures { result ≡ numeral radix text.now }
{
    if !is_numeral(radix, text) {
        return None;
    }
    match str::from_utf8(text) {
        Ok(text) => u32::from_str_radix(text, radix).ok(),
        Err(_) => None,
    }
}

fn is_hex(text: &[u8]) -> bool
    ensures { result ≡ is_hex text.now }
{
    let front = &text[..text.len().min(2)];
    front == b"0x".as_slice() || front == b"0X".as_slice()
}

fn has_leading_zero(text: &[u8]) -> bool
    ensures { result ≡ has_leading_zero text.now }
{
    text.len() > 1 && text[0] == b'0'
}

// A number: hexadecimal behind 0x or 0X, octal behind a 0 that isn't alone, and else decimal.
#[tactic(auto, unfolding(crate::specs::Numbers::number_of))]
fn number(text: &[u8]) -> Option<u32>
    ensures { result ≡ number_of text.now }
{
    if is_hex(text) {
        numeral(16, &text[2..])
    } else if has_leading_zero(text) {
        numeral(8, text)
    } else {
        numeral(10, text)
    }
}

/// The number that is the value of an option, which may be left out. Answers `Usage` where the value
/// is none below 2^32.
pub(crate) fn number_given(found: &Found<'_>, id: &str) -> Result<Option<u32>, WordsFault>
    ensures { AnswersAs (given number_of id.now found.now) result }
{
    match found.value(id) {
        None => Ok(None),
        Some(text) => match number(text.as_bytes()) {
            None => Err(WordsFault::Usage),
            Some(number) => Ok(Some(number)),
        },
    }
}

// Two numbers with a comma between them.
#[tactic(auto, unfolding(crate::specs::Numbers::pair_of))]
fn pair(text: &str) -> Option<(u32, u32)>
    ensures { result ≡ pair_of text.now }
{
    let (first, second) = cut(text, ',');
    let first = number(first.as_bytes())?;
    let second = number(second.as_bytes())?;
    Some((first, second))
}

impl Form for (u32, u32) {
    ghost form = { pair_of };

    fn parse(text: &str) -> Option<(u32, u32)> {
        pair(text)
    }
}

// The three numbers of a segment's name, of eight digits each.
#[tactic(auto, unfolding(crate::specs::Numbers::name_numbers_of))]
fn name_numbers(name: &[u8]) -> Option<(u32, u64, u64)>
    ensures { result ≡ name_numbers_of name.now }
{
    if !is_long_name(name) {
        return None;
    }
    let tli = numeral(16, &name[..8])?;
    let high = numeral(16, &name[8..16])?;
    let low = numeral(16, &name[16..24])?;
    Some((tli, u64::from(high), u64::from(low)))
}

impl Form for (u32, u64, u64) {
    ghost form = { name_numbers_of };

    fn parse(text: &str) -> Option<(u32, u64, u64)> {
        name_numbers(text.as_bytes())
    }
}
