// The words of a plan's lines: positions and sums.
ghost use Rattle.std.specs.Prelude.{◌≡◌, IfOk};
ghost use Rattle.std.specs.List.{list_all};
ghost use Rattle.wal_base.specs.Hex.{is_upper_hex};
ghost use Rattle.wal_base.specs.Lsn.{lsn_of};
ghost use Rattle.plan_text.specs.Words.{is_sum, lsn_in, sum_in};

use cluster_tree::OutOfMemory;
use std::alloc::Global;
use std::str;
use wal_base::Lsn;

fn position(word: &[u8]) -> Option<Lsn>
    ensures { result ≡ lsn_of word.now }
{
    match str::from_utf8(word) {
        Ok(text) => Lsn::parse(text),
        Err(_) => None,
    }
}

/// The position that a word writes as `%X/%X`.
pub(crate) fn lsn_in(alloc: Global, word: &[u8]) -> Result<Option<Lsn>, OutOfMemory>
    ensures { IfOk result (λ at. at ≡ lsn_in word.now) }
{
    let Some(at) = position(word) else {
        return Ok(None);
    };
    let shown = format!(in alloc; "{at}")?;
    if shown.as_bytes() == word {
        Ok(Some(at))
    } else {
        Ok(None)
    }
}

fn all_upper(word: &[u8]) -> bool
    ensures { result ≡ list_all is_upper_hex word.now }
{
    word.iter()
        .all(|byte| matches!(byte, b'0'..=b'9' | b'A'..=b'F'))
}

/// Whether these are eight digits 0 to 9 and A to F.
fn is_sum(word: &[u8]) -> bool
    ensures { result ≡ is_sum word.now }
{
    word.len() == 8 && all_upper(word)
}

/// The sum of 32 bits that a word writes as `%08X`.
pub(crate) fn sum_in(word: &[u8]) -> Option<u32>
    ensures { result ≡ sum_in word.now }
{
    if !is_sum(word) {
        return None;
    }
    match str::from_utf8(word) {
        Ok(text) => u32::from_str_radix(text, 16).ok(),
        Err(_) => None,
    }
}
