//! Which block a log changes first.
use crate::fault::RowFault;
use crate::logs::cursor_by;
use crate::texts::{owned, words_of};
use block_refs::split_record;
use first_effects::FirstEffects;
use replay_profile::is_in_profile;
use rmgr_hooks::NoManager;
use std::alloc::Global;
use wal_records::Record;

/// Adds a record.
fn add(firsts: &mut FirstEffects, rec: &Record) -> Result<(), RowFault> {
    let parts = split_record(rec)?;
    if !is_in_profile(rec, &parts, None::<&NoManager>) {
        return Err(RowFault::NotInProfile);
    }
    firsts.add_record(rec, &parts, None::<&NoManager>)?;
    Ok(())
}

/// Adds the record of a manager, an info and a body.
fn add_words(alloc: Global, firsts: &mut FirstEffects, words: &str) -> Result<(), RowFault> {
    let (manager, info, body, _) = words_of(words);
    let cursor = cursor_by(alloc, 700, manager, info, body)?;
    let rec = cursor.current().ok_or(RowFault::NotARecord)?;
    add(firsts, rec)
}

/// The least block of a main fork that records change first, of those given by their managers, infos and bodies.
pub(crate) fn changed_first(alloc: Global, records: &str) -> Result<String, RowFault> {
    let mut firsts = FirstEffects::new(alloc);
    for words in records.split(", ") {
        add_words(alloc, &mut firsts, words)?;
    }
    match firsts.least_changed() {
        Some(name) => Ok(format!(in alloc; "{name}")?),
        None => owned(alloc, "none"),
    }
}
