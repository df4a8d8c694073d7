// Bytes of files as runs, `a*8192 b*3`: a letter, and how many of it stand one behind another. The letter `?` is the byte
// A5, which a stop may leave where bytes were written; `-` is a file without bytes.
use crate::fault::LineFault;
use crate::words::{cut_at, number};
use std::alloc::Global;

// The byte of a letter.
fn byte_of(letter: &str) -> Result<u8, LineFault> {
    match letter.as_bytes() {
        [b'?'] => Ok(0xA5),
        [byte] => Ok(*byte),
        _ => Err(LineFault::NotALine),
    }
}

/// The bytes of runs, as `a*8192 b*3`, where the letter `?` is the byte A5; none for a dash.
pub fn runs_of(alloc: Global, text: &str) -> Result<Vec<u8>, LineFault> {
    let mut bytes = Vec::new(alloc);
    if text == "-" {
        return Ok(bytes);
    }
    for run in text.split(' ') {
        let (letter, count) = cut_at(run, "*");
        let size = bytes.len().saturating_add(number(count)? as usize);
        bytes.resize(size, byte_of(letter)?)?;
    }
    Ok(bytes)
}

// Tells a run behind a blank, none of no byte.
fn tell_run(out: &mut String, byte: Option<u8>, count: u64) -> Result<(), LineFault> {
    match byte {
        None => {}
        Some(0xA5) => write!(out, " ?*{count}")?,
        Some(byte) => write!(out, " {}*{count}", char::from(byte))?,
    }
    Ok(())
}

/// Tells bytes by their runs, each behind a blank.
pub fn tell_runs(out: &mut String, bytes: &[u8]) -> Result<(), LineFault> {
    let (mut last, mut count) = (None, 0_u64);
    for byte in bytes {
        if last == Some(*byte) {
            count = count.saturating_add(1);
        } else {
            tell_run(out, last, count)?;
            (last, count) = (Some(*byte), 1);
        }
    }
    tell_run(out, last, count)?;
    if bytes.is_empty() {
        out.push_str(" -")?;
    }
    Ok(())
}
