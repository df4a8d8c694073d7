// What the lines of a plan say but for its steps.
ghost use Rattle.std.specs.Prelude.{◌≡◌, map, IfOk};
ghost use Rattle.std.specs.Option.{option_map};
ghost use Rattle.mark_lines.specs.Words.{words_of};
ghost use Rattle.plan_text.specs.Reading.{bytes_of, control_of, source_of, told_by, told_of};

use crate::words::{lsn_in, sum_in};
use cluster_tree::OutOfMemory;
use mark_lines::{bytes_in, words_of};
use rewind_survey::{Divergence, Told};
use std::alloc::Global;
use wal_base::decimal_u32;

/// The CRC in the first line.
pub(crate) fn source_of(alloc: Global, line: &[u8]) -> Result<Option<u32>, OutOfMemory>
    ensures { IfOk result (λ sum. sum ≡ source_of (words_of line.now)) }
{
    match words_of(alloc, line)?.as_slice() {
        [verb, sum] if *verb == b"source".as_slice() => Ok(sum_in(sum)),
        _ => Ok(None),
    }
}

/// From where is rewound, by the words behind the first of the second line.
fn told_by(alloc: Global, words: (&[u8], &[u8], &[u8], &[u8])) -> Result<Option<Told>, OutOfMemory>
    ensures { IfOk result (λ told. told
        ≡ told_by words.entry.0.now words.entry.1.now words.entry.2.now words.entry.3.now) }
{
    let (tli, at, checkpoint, theirs) = words;
    let Some(tli) = decimal_u32(tli) else {
        return Ok(None);
    };
    let Some(at) = lsn_in(alloc, at)? else {
        return Ok(None);
    };
    let Some(checkpoint) = lsn_in(alloc, checkpoint)? else {
        return Ok(None);
    };
    let Some(theirs) = decimal_u32(theirs) else {
        return Ok(None);
    };
    Ok(Some(Told {
        fork: Divergence { tli, at },
        checkpoint,
        tli: theirs,
    }))
}

/// From where is rewound, as the second line says.
pub(crate) fn told_of(alloc: Global, line: &[u8]) -> Result<Option<Told>, OutOfMemory>
    ensures { IfOk result (λ told. told ≡ told_of (words_of line.now)) }
{
    match words_of(alloc, line)?.as_slice() {
        [verb, tli, at, checkpoint, theirs] if *verb == b"told".as_slice() => {
            told_by(alloc, (tli, at, checkpoint, theirs))
        }
        _ => Ok(None),
    }
}

/// The bytes behind a word.
pub(crate) fn bytes_of(
    alloc: Global,
    name: &[u8],
    line: &[u8],
) -> Result<Option<Vec<u8>>, OutOfMemory>
    ensures { IfOk result (λ bytes. option_map (λ vec. vec.items) bytes
        ≡ bytes_of name.now (words_of line.now)) }
{
    match words_of(alloc, line)?.as_slice() {
        [verb, digits] if *verb == name => bytes_in(alloc, digits),
        _ => Ok(None),
    }
}

/// The bytes of a control file.
pub(crate) fn control_of(alloc: Global, line: &[u8]) -> Result<Option<Vec<u8>>, OutOfMemory>
    ensures { IfOk result (λ bytes. option_map (λ vec. vec.items) bytes
        ≡ control_of (words_of line.now)) }
{
    match bytes_of(alloc, b"control", line)? {
        Some(bytes) if bytes.len() == 8192 => Ok(Some(bytes)),
        _ => Ok(None),
    }
}
