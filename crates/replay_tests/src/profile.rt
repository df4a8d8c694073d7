//! Which records replay takes, and which of their layouts are short.
use crate::fault::RowFault;
use crate::logs::START;
use crate::texts::owned;
use block_refs::{Parts, split_record};
use replay_profile::{ProfileFault, is_short, judge};
use rmgr_hooks::NoManager;
use std::alloc::Global;
use wal_records::Record;

/// What `judge` says of a record.
pub(crate) fn judged(alloc: Global, rec: &Record) -> Result<String, RowFault> {
    let mut parts = Parts::new();
    match judge(rec, &mut parts, None::<&NoManager>) {
        Ok(()) => owned(alloc, "in"),
        Err(fault) => {
            let header = rec.header();
            if fault == ProfileFault::NotInProfile(START, header.manager, header.info) {
                owned(alloc, "outside")
            } else {
                Ok(format!(in alloc; "{fault:?}")?)
            }
        }
    }
}

/// Whether a record is short.
pub(crate) fn measured(rec: &Record) -> Result<&'static str, RowFault> {
    let parts = split_record(rec)?;
    if is_short(rec, &parts) {
        Ok("short")
    } else {
        Ok("whole")
    }
}
