//! The words of rows. A word that isn't what its row needs ends the test.
use cluster_tree::Path;
use memory_tree::FailPlan;
use std::process::Abort;
use wal_base::{Lsn, decimal_u32};

/// What stands before a mark, and what behind it.
pub fn cut_at<'a>(text: &'a str, mark: &str) -> (&'a str, &'a str) {
    text.split_once(mark).unwrap_or((text, ""))
}

/// A number below 2^32.
pub fn number<R: Abort>(rt: &R, text: &str) -> u32 {
    decimal_u32(text.as_bytes()).expect(rt, "no number")
}

/// A number, and what stands behind the blank after it.
pub fn first_number<'a, R: Abort>(rt: &R, text: &'a str) -> (u32, &'a str) {
    let (word, behind) = cut_at(text, " ");
    (number(rt, word), behind)
}

/// A number below 256.
pub fn byte<R: Abort>(rt: &R, text: &str) -> u8 {
    u8::try_from(number(rt, text)).expect(rt, "no byte")
}

/// A number below 65536.
pub fn half<R: Abort>(rt: &R, text: &str) -> u16 {
    u16::try_from(number(rt, text)).expect(rt, "no number below 65536")
}

/// A position of a log.
pub fn position<R: Abort>(rt: &R, text: &str) -> u64 {
    Lsn::parse(text).expect(rt, "no position").0
}

/// The path of a text.
pub fn path_of<R: AllocGlobal + Abort>(rt: &R, text: &str) -> Path {
    Path::parse(rt.alloc(), text).expect(rt, "no path")
}

/// The bytes of digits.
pub fn decoded<R: AllocGlobal + Abort>(rt: &R, digits: &str) -> Vec<u8> {
    hex::decode(rt.alloc(), digits).expect(rt, "no digits")
}

/// One byte so many times.
pub fn filled<R: AllocGlobal + Abort>(rt: &R, byte: u8, count: u32) -> Vec<u8> {
    vec![in rt.alloc(); byte; count as usize].expect(rt, "no memory")
}

/// The byte of two digits, so many times.
fn repeated<R: AllocGlobal + Abort>(rt: &R, digits: &str, count: u32) -> Vec<u8> {
    let mut byte = [0];
    hex::decode_to_slice(digits, &mut byte).expect(rt, "no digits of one byte");
    filled(rt, byte[0], count)
}

/// Bytes by their digits, none for a dash; with a star behind one byte it stands so many times.
pub fn bytes_of<R: AllocGlobal + Abort>(rt: &R, text: &str) -> Vec<u8> {
    match text.split_once("*") {
        Some((digits, count)) => repeated(rt, digits, number(rt, count)),
        None if text == "-" => Vec::new(rt.alloc()),
        None => decoded(rt, text),
    }
}

/// Which calls fail: `never`, `at N` or `from N`.
pub fn plan_of<R: Abort>(rt: &R, text: &str) -> FailPlan {
    let (kind, count) = cut_at(text, " ");
    match kind {
        "never" => FailPlan::Never,
        "at" => FailPlan::At(u64::from(number(rt, count))),
        "from" => FailPlan::From(u64::from(number(rt, count))),
        _ => panic!(rt; "no plan"),
    }
}
