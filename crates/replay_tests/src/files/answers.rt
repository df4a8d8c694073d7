// Answers as texts.
use crate::fault::RowFault;
use crate::texts::owned;
use cluster_tree::FileFault;
use std::alloc::Global;

/// A word, or the text of a fault.
pub(crate) fn word(alloc: Global, found: Result<&str, FileFault>) -> Result<String, RowFault> {
    match found {
        Ok(word) => owned(alloc, word),
        Err(fault) => Ok(format!(in alloc; "{fault}")?),
    }
}

/// `done`, or the text of a fault.
pub(crate) fn ended(alloc: Global, done: Result<(), FileFault>) -> Result<String, RowFault> {
    match done {
        Ok(()) => owned(alloc, "done"),
        Err(fault) => word(alloc, Err(fault)),
    }
}

/// `done` of a whole layout, `short` of another, or the text of a fault.
pub(crate) fn whole(alloc: Global, done: Result<bool, FileFault>) -> Result<String, RowFault> {
    match done {
        Ok(false) => owned(alloc, "short"),
        Ok(true) => owned(alloc, "done"),
        Err(fault) => word(alloc, Err(fault)),
    }
}

/// A number, or the text of a fault.
pub(crate) fn count(alloc: Global, found: Result<u64, FileFault>) -> Result<String, RowFault> {
    match found {
        Ok(count) => Ok(format!(in alloc; "{count}")?),
        Err(fault) => word(alloc, Err(fault)),
    }
}
