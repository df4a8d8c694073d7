//! Commits and aborts.
use crate::layouts::lists::items;
use crate::told::Told;
use record_layouts::{Outcome, Prepared, TransactionEnd};

/// Tells a prepared transaction, and its name where it has one.
fn prepared(told: &mut Told<'_>, prepared: &Prepared<'_>) {
    told.shows(" prepared ", &prepared.xid);
    if let Some(gid) = &prepared.gid {
        told.shows(" ", &gid.slice());
    }
}

/// Tells what a commit or an abort says.
fn parts(told: &mut Told<'_>, end: &TransactionEnd<'_>) {
    told.shows("time ", &end.time);
    told.shows(" xinfo ", &end.xinfo);
    items(told, " subxacts", &end.subxacts);
    items(told, " dropped", &end.dropped);
    items(told, " stats", &end.stats);
    items(told, " messages", &end.messages);
    told.shows(" in ", &end.database);
    told.shows(" from ", &end.origin);
    if let Some(found) = &end.prepared {
        prepared(told, found);
    }
}

fn ended(told: &mut Told<'_>, outcome: Outcome, has_xinfo: bool, bytes: &[u8]) {
    match TransactionEnd::read(outcome, has_xinfo, bytes) {
        Some(end) => parts(told, &end),
        None => told.text("none"),
    }
}

/// Tells what an end says, by its name, or the relations that are there of those that it drops.
pub fn end(told: &mut Told<'_>, name: &str, bytes: &[u8]) -> bool {
    match name {
        "Commit" => ended(told, Outcome::Commit, true, bytes),
        "Abort" => ended(told, Outcome::Abort, true, bytes),
        "AbortWithoutFlags" => ended(told, Outcome::Abort, false, bytes),
        "Dropped" => items(
            told,
            "there dropped",
            &TransactionEnd::dropped_prefix(true, bytes),
        ),
        _ => return false,
    }
    true
}
