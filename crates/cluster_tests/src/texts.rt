//! The words of rows, and answers told piece by piece. A word that isn't what its row needs ends the test.
use std::fmt::{Debug, Display};
use std::process::Abort;
use wal_base::{decimal_u32, decimal_u64};

/// A number below 2^32.
pub(crate) fn number<R: Abort>(rt: &R, text: &str) -> u32 {
    decimal_u32(text.as_bytes()).expect(rt, "no number")
}

/// A number below 2^64.
pub(crate) fn long<R: Abort>(rt: &R, text: &str) -> u64 {
    decimal_u64(text.as_bytes()).expect(rt, "no number")
}

/// Tells a text.
pub(crate) fn tell<R: Abort>(rt: &R, out: &mut String, text: &str) {
    out.push_str(text).expect(rt, "no memory");
}

/// Tells a text and a value behind it.
pub(crate) fn says<T: Display, R: Abort>(rt: &R, out: &mut String, before: &str, value: &T) {
    write!(out, "{before}{value}").expect(rt, "no memory");
}

/// Tells a text and a value behind it, as `Debug` shows it.
pub(crate) fn shows<T: Debug, R: Abort>(rt: &R, out: &mut String, before: &str, value: &T) {
    write!(out, "{before}{value:?}").expect(rt, "no memory");
}

/// Tells a blank, and a checksum by its eight digits.
pub(crate) fn tell_sum<R: Abort>(rt: &R, out: &mut String, sum: u32) {
    write!(out, " {sum:08X}").expect(rt, "no memory");
}

/// Tells bytes by their runs, each behind a blank.
pub(crate) fn tell_runs<R: Abort>(rt: &R, out: &mut String, bytes: &[u8]) {
    tree_lines::tell_runs(out, bytes).expect(rt, "no memory");
}
