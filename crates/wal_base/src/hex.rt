//! Numbers as hexadecimal digits.

ghost use Rattle.std.specs.Prelude.{◌≡◌, ◌≤◌, IsTrue, length};
ghost use Rattle.std.specs.Char.{is_ascii_hexdigit, digit_value};
ghost use Rattle.std.specs.List.{list_all};
ghost use Rattle.wal_base.specs.Hex.{hex_value, hex_word, is_hex_word, is_upper_hex};

/// The value of a digit of either case.
fn digit_value(digit: u8) -> u8
    requires { IsTrue (is_ascii_hexdigit digit) }
    ensures { result ≡ digit_value digit }
{
    match digit {
        b'0'..=b'9' => digit - b'0',
        b'A'..=b'F' => digit - b'A' + 10,
        _ => digit - b'a' + 10,
    }
}

/// The number that up to eight digits of either case write.
pub fn value(digits: &[u8]) -> u32
    requires short { length digits.now ≤ 8 }
    requires hex { IsTrue (list_all is_ascii_hexdigit digits.now) }
    ensures { result ≡ hex_value digits.now }
{
    let mut value = 0;
    for digit in digits {
        value = value * 16 + u32::from(digit_value(*digit));
    }
    value
}

fn all_digits(bytes: &[u8]) -> bool
    ensures { result ≡ list_all is_ascii_hexdigit bytes.now }
{
    bytes.iter().all(|byte| byte.is_ascii_hexdigit())
}

/// Whether these are one to eight digits of either case.
fn is_word(bytes: &[u8]) -> bool
    ensures { result ≡ is_hex_word bytes.now }
{
    !bytes.is_empty() && bytes.len() <= 8 && all_digits(bytes)
}

/// The number that one to eight digits of either case write, or `None` for all other bytes.
pub fn word(digits: &[u8]) -> Option<u32>
    ensures { result ≡ hex_word digits.now }
{
    if is_word(digits) {
        Some(value(digits))
    } else {
        None
    }
}

/// Whether all bytes are digits 0 to 9 and A to F.
pub fn all_upper(bytes: &[u8]) -> bool
    ensures { result ≡ list_all is_upper_hex bytes.now }
{
    bytes
        .iter()
        .all(|byte| matches!(byte, b'0'..=b'9' | b'A'..=b'F'))
}
