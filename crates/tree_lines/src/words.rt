// The words of lines.
ghost use Rattle.std.specs.Prelude.{◌≤◌, IfOk, length};

use crate::fault::LineFault;
use cluster_tree::Path;
use memory_tree::FailPlan;
use std::alloc::Global;
use wal_base::{decimal_u32, decimal_u64};

/// What stands before a mark, and what behind it.
pub fn cut_at<'a>(text: &'a str, mark: &str) -> (&'a str, &'a str) {
    text.split_once(mark).unwrap_or((text, ""))
}

/// A number below 2^32.
pub(crate) fn number(text: &str) -> Result<u32, LineFault> {
    decimal_u32(text.as_bytes()).ok_or(LineFault::NotANumber)
}

/// A number below 2^64.
pub(crate) fn long(text: &str) -> Result<u64, LineFault> {
    decimal_u64(text.as_bytes()).ok_or(LineFault::NotANumber)
}

/// The path of a cluster's root, or of the folder of a log: at most 61 parts, else `NotAPath`.
pub fn root_of(alloc: Global, text: &str) -> Result<Path, LineFault>
    ensures room { IfOk result (λ root. length root.parts ≤ 61) }
{
    let root = Path::parse(alloc, text)?;
    if root.len() > 61 {
        return Err(LineFault::NotAPath);
    }
    Ok(root)
}

/// The plan where the call of a number fails, none for 0.
pub fn plan_of(text: &str) -> Result<FailPlan, LineFault> {
    match long(text)? {
        0 => Ok(FailPlan::Never),
        call => Ok(FailPlan::At(call)),
    }
}
