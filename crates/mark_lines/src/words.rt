// The words of a mark's lines.
ghost use Rattle.std.specs.Prelude.{◌≡◌, IfOk};
ghost use Rattle.std.specs.List.{list_all};
ghost use Rattle.std.specs.Option.{option_map};
ghost use Rattle.mark_lines.specs.Words.{bytes_in, is_lower};

use cluster_tree::OutOfMemory;
use hex::FromHexError;
use std::alloc::Global;

fn all_lower(word: &[u8]) -> bool
    ensures { result ≡ list_all is_lower word.now }
{
    word.iter()
        .all(|byte| matches!(byte, b'0'..=b'9' | b'a'..=b'f'))
}

/// The bytes that digits 0 to 9 and a to f write, two digits each, or `None` where a word isn't of such.
/// Answers `OutOfMemory` only for want of memory.
pub fn bytes_in(alloc: Global, word: &[u8]) -> Result<Option<Vec<u8>>, OutOfMemory>
    ensures value { IfOk result (λ bytes. option_map (λ vec. vec.items) bytes ≡ bytes_in word.now) }
{
    if !all_lower(word) {
        return Ok(None);
    }
    match hex::decode(alloc, word) {
        Ok(bytes) => Ok(Some(bytes)),
        Err(FromHexError::OutOfMemory) => Err(OutOfMemory),
        Err(_) => Ok(None),
    }
}
