//! Numbers as decimal digits.

ghost use Rattle.std.specs.Prelude.{◌≡◌, ◌^◌};
ghost use Rattle.std.specs.Char.{is_ascii_digit};
ghost use Rattle.std.specs.List.{list_all};
ghost use Rattle.wal_base.specs.Decimal.{decimal_number, has_leading_zero, is_decimal};

use std::str;

fn all_digits(text: &[u8]) -> bool
    ensures { result ≡ list_all is_ascii_digit text.now }
{
    text.iter().all(|byte| byte.is_ascii_digit())
}

fn has_leading_zero(text: &[u8]) -> bool
    ensures { result ≡ has_leading_zero text.now }
{
    text.len() > 1 && text[0] == b'0'
}

/// Whether these are decimal digits with no leading zero.
fn is_decimal(text: &[u8]) -> bool
    ensures { result ≡ is_decimal text.now }
{
    !text.is_empty() && all_digits(text) && !has_leading_zero(text)
}

/// The number below 2^32 that a text writes: decimal digits without a sign or a leading zero. `None` for every other
/// text.
#[tactic(auto, unfolding(crate::specs::Decimal::decimal_number))]
pub fn decimal_u32(text: &[u8]) -> Option<u32>
    ensures { result ≡ decimal_number (2 ^ 32) text.now }
{
    if !is_decimal(text) {
        return None;
    }
    match str::from_utf8(text) {
        Ok(text) => text.parse().ok(),
        Err(_) => None,
    }
}

/// The number below 2^64 that a text writes: decimal digits without a sign or a leading zero. `None` for every other
/// text.
#[tactic(auto, unfolding(crate::specs::Decimal::decimal_number))]
pub fn decimal_u64(text: &[u8]) -> Option<u64>
    ensures { result ≡ decimal_number (2 ^ 64) text.now }
{
    if !is_decimal(text) {
        return None;
    }
    match str::from_utf8(text) {
        Ok(text) => text.parse().ok(),
        Err(_) => None,
    }
}
