// The words of a line.
use crate::fault::LineFault;
use cluster_tree::Path;
use memory_tree::FailPlan;
use std::alloc::Global;
use wal_base::decimal_u64;

/// A line's first word, and what stands behind the blank after it.
pub fn first_word(line: &str) -> (&str, &str) {
    line.split_once(' ').unwrap_or((line, ""))
}

/// A decimal number.
pub(crate) fn number(text: &str) -> Result<u64, LineFault> {
    decimal_u64(text.as_bytes()).ok_or(LineFault::NotANumber)
}

/// A decimal number of a narrower type.
pub fn narrow<N: TryFrom<u64>>(text: &str) -> Result<N, LineFault>
where
    <N as TryFrom<u64>>::Error: Drop,
{
    match N::try_from(number(text)?) {
        Ok(number) => Ok(number),
        Err(_) => Err(LineFault::NotANumber),
    }
}

/// A path.
pub fn path(alloc: Global, text: &str) -> Result<Path, LineFault> {
    Ok(Path::parse(alloc, text)?)
}

/// A path below another.
pub(crate) fn below(alloc: Global, folder: &Path, name: &str) -> Result<Path, LineFault> {
    Ok(folder.join(alloc, name)?)
}

/// Bytes, each as two hexadecimal digits.
pub(crate) fn bytes(alloc: Global, text: &str) -> Result<Vec<u8>, LineFault> {
    Ok(hex::decode(alloc, text)?)
}

/// So many zeros.
pub fn zeros(alloc: Global, size: usize) -> Result<Vec<u8>, LineFault> {
    Ok(vec![in alloc; 0; size]?)
}

/// Which calls fail: `at N` or `from N`.
pub(crate) fn plan(text: &str) -> Result<FailPlan, LineFault> {
    let (word, behind) = first_word(text);
    let n = number(behind)?;
    match word {
        "at" => Ok(FailPlan::At(n)),
        "from" => Ok(FailPlan::From(n)),
        _ => Err(LineFault::NotCalls),
    }
}
