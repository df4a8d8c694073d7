// The line on a replay that is done. It is made without memory, since none may be wanting behind the
// last change.
ghost use Rattle.std.specs.Prelude.{◌≡◌, ◌+◌, ◌≤◌, ◌++◌, length, decimal};
ghost use Rattle.arrayvec.specs.ArrayString.{array_string_len};
ghost use Rattle.wal_base.specs.Hex.{hex_text};
ghost use Rattle.wal_base.specs.Lsn.{lsn_text};
ghost use Rattle.cmd_walreplay.specs.Walreplay.{replayed_line};

use arrayvec::ArrayString;
use itoa::Buffer;
use replay_core::Replayed;
use wal_base::{Lsn, hex_digit};

/// A line on a replay, of at most 106 bytes: 49 are its words, 20 the digits of each number, and 17 those of its
/// position.
pub type Line = ArrayString<112>;

// Adds a number in decimal.
fn put_number(line: &mut Line, number: u64)
    requires { array_string_len line.old + 20 ≤ 112 }
    ensures bytes { line.new.bytes ≡ line.old.bytes ++ decimal number }
    ensures len { array_string_len line.new ≤ array_string_len line.old + 20 }
{
    let mut buffer = Buffer::new();
    line.push_str(buffer.format(number));
}

// Adds a number as hexadecimal digits, with no leading zero.
#[tactic(auto, using(crate::proofs::HexSteps::hex_steps))]
fn put_hex(line: &mut Line, number: u32)
    requires { array_string_len line.old + length (hex_text number) ≤ 112 }
    ensures bytes { line.new.bytes ≡ line.old.bytes ++ hex_text number }
    ensures len { array_string_len line.new ≡ array_string_len line.old + length (hex_text number) }
{
    if number < 16 {
        line.push_str(hex_digit(number as u8));
    } else {
        put_hex(line, number / 16);
        line.push_str(hex_digit((number % 16) as u8));
    }
}

// Adds a position.
#[tactic(auto, using(crate::proofs::HexSteps::short_steps))]
fn put_position(line: &mut Line, at: Lsn)
    requires { array_string_len line.old + 17 ≤ 112 }
    ensures bytes { line.new.bytes ≡ line.old.bytes ++ lsn_text at.0 }
    ensures len { array_string_len line.new ≤ array_string_len line.old + 17 }
{
    put_hex(line, (at.0 >> 32) as u32);
    line.push_str("/");
    put_hex(line, (at.0 % 0x1_0000_0000) as u32);
}

/// The line on what was replayed: the number of records, where the last of them ends, and the timeline.
pub fn replayed_line(done: Replayed) -> Line
    ensures { result.bytes ≡ replayed_line done.records done.end.0 done.tli }
{
    let mut line = Line::new();
    line.push_str("pg_walreplay: replayed ");
    put_number(&mut line, done.records);
    line.push_str(" records to ");
    put_position(&mut line, done.end);
    line.push_str(" on timeline ");
    put_number(&mut line, u64::from(done.tli));
    line.push_str("\n");
    line
}
