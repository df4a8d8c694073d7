//! The words of rows.
use crate::fault::RowFault;
use std::alloc::Global;
use wal_base::decimal_u32;

/// What stands before a mark, and what behind it.
pub(crate) fn cut_at<'a>(text: &'a str, mark: &str) -> (&'a str, &'a str) {
    text.split_once(mark).unwrap_or((text, ""))
}

/// Three words of a text, and what stands behind them.
pub(crate) fn words_of<'a>(text: &'a str) -> (&'a str, &'a str, &'a str, &'a str) {
    let (first, behind) = cut_at(text, " ");
    let (second, behind) = cut_at(behind, " ");
    let (third, rest) = cut_at(behind, " ");
    (first, second, third, rest)
}

/// A text, which is empty for a dash.
pub(crate) fn undashed(text: &str) -> &str {
    if text == "-" { "" } else { text }
}

/// A text of one's own.
pub(crate) fn owned(alloc: Global, text: &str) -> Result<String, RowFault> {
    Ok(String::from_str(alloc, text)?)
}

/// A number below 2^32.
pub(crate) fn number(text: &str) -> Result<u32, RowFault> {
    decimal_u32(text.as_bytes()).ok_or(RowFault::NotANumber)
}

/// A size or an offset below 2^32.
pub(crate) fn long(text: &str) -> Result<u64, RowFault> {
    Ok(u64::from(number(text)?))
}

/// A number of a narrower type.
pub(crate) fn narrow<N: TryFrom<u32>>(text: &str) -> Result<N, RowFault>
where
    <N as TryFrom<u32>>::Error: Drop,
{
    match N::try_from(number(text)?) {
        Ok(number) => Ok(number),
        Err(_) => Err(RowFault::NotANumber),
    }
}

/// A number below 256.
pub(crate) fn byte(text: &str) -> Result<u8, RowFault> {
    narrow(text)
}

/// The bytes of digits so many times.
fn repeated(alloc: Global, digits: &str, times: u32) -> Result<Vec<u8>, RowFault> {
    let bytes = hex::decode(alloc, digits)?;
    let mut all = Vec::new(alloc);
    for _ in 0..times {
        all.extend_from_slice(&bytes)?;
    }
    Ok(all)
}

/// Bytes by their digits, none for a dash; behind a plus so many zeros, behind a star how often.
pub(crate) fn bytes_of(alloc: Global, text: &str) -> Result<Vec<u8>, RowFault> {
    let (text, zeros) = text.split_once("+").unwrap_or((text, "0"));
    let (digits, times) = text.split_once("*").unwrap_or((text, "1"));
    let mut bytes = repeated(alloc, undashed(digits), number(times)?)?;
    let size = bytes.len() + number(zeros)? as usize;
    bytes.resize(size, 0)?;
    Ok(bytes)
}

/// A count, and one byte so many times.
pub(crate) fn filled(alloc: Global, words: &str) -> Result<Vec<u8>, RowFault> {
    let (count, filling) = cut_at(words, " ");
    Ok(vec![in alloc; byte(filling)?; number(count)? as usize]?)
}
