//! The words of rows, and answers as texts. A word that isn't what its row needs ends the test.
use cluster_tree::Path;
use std::fmt::{Debug, Display};
use std::process::Abort;
use std::str::FromStr;

/// What stands before a blank, and what behind it.
pub(crate) fn first_word(text: &str) -> (&str, &str) {
    text.split_once(' ').unwrap_or((text, ""))
}

/// A number.
pub(crate) fn number<N: FromStr, R: Abort>(rt: &R, text: &str) -> N
where
    N::Err: Debug,
{
    text.parse::<N>().expect(rt, "no number")
}

/// A path.
pub(crate) fn path_of<R: AllocGlobal + Abort>(rt: &R, text: &str) -> Path {
    Path::parse(rt.alloc(), text).expect(rt, "no path")
}

/// Bytes by their digits, none for a dash; behind a plus so many zeros.
pub(crate) fn bytes_of<R: AllocGlobal + Abort>(rt: &R, text: &str) -> Vec<u8> {
    let (digits, zeros) = text.split_once('+').unwrap_or((text, "0"));
    let digits = if digits == "-" { "" } else { digits };
    let mut bytes = hex::decode(rt.alloc(), digits).expect(rt, "no digits");
    let size = bytes.len() + usize::from(number::<u16, R>(rt, zeros));
    bytes.resize(size, 0).expect(rt, "no memory");
    bytes
}

/// A text of one's own.
pub(crate) fn owned<R: AllocGlobal + Abort>(rt: &R, text: &str) -> String {
    String::from_str(rt.alloc(), text).expect(rt, "no memory")
}

/// The text of bytes.
pub(crate) fn text_of<R: AllocGlobal + Abort>(rt: &R, bytes: &[u8]) -> String {
    String::from_utf8_lossy(rt.alloc(), bytes).expect(rt, "no memory")
}

/// A value's text.
pub(crate) fn said<D: Display, R: AllocGlobal + Abort>(rt: &R, value: &D) -> String {
    format!(in rt.alloc(); "{value}").expect(rt, "no memory")
}

/// A value as `Debug` shows it.
pub(crate) fn shown<D: Debug, R: AllocGlobal + Abort>(rt: &R, value: &D) -> String {
    format!(in rt.alloc(); "{value:?}").expect(rt, "no memory")
}
