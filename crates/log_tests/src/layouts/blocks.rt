//! Layouts of the bytes of blocks, by their kinds.
use crate::texts::{cut_at, decoded, half};
use crate::told::Told;
use block_layouts::*;
use std::process::Abort;

fn insert(told: &mut Told<'_>, bytes: &[u8]) {
    let Some(tuple) = insert_tuple(bytes) else {
        return told.text("none");
    };
    told.shows("", &tuple.header);
    told.shows(" ", &tuple.bytes);
}

fn update(told: &mut Told<'_>, parts: OldParts, bytes: &[u8]) {
    let Some(tuple) = update_tuple(bytes, parts) else {
        return told.text("none");
    };
    told.shows("", &tuple.prefix);
    told.shows(" ", &tuple.suffix);
    told.shows(" ", &tuple.header);
    told.shows(" ", &tuple.bitmap);
    told.shows(" ", &tuple.bytes);
}

/// Tells places in turn, and then the last one and that past it by their indices.
fn places(told: &mut Told<'_>, before: &str, places: Places<'_>) {
    told.text(before);
    let last = places.get(places.len().saturating_sub(1));
    let past = places.get(places.len());
    for place in places {
        told.shows(" ", &place);
    }
    told.shows(" ", &(last, past));
}

fn redirects(told: &mut Told<'_>, pairs: Redirects<'_>) {
    let last = pairs.get(pairs.len().saturating_sub(1));
    let past = pairs.get(pairs.len());
    for pair in pairs {
        told.shows(" ", &pair.from);
        told.shows(" to ", &pair.to);
    }
    told.shows(" ", &(last, past));
}

fn prune(told: &mut Told<'_>, redirected: u16, dead: u16, bytes: &[u8]) {
    let Some(lists) = prune_places(bytes, redirected, dead) else {
        return told.text("none");
    };
    told.text("redirected");
    redirects(told, lists.redirected);
    places(told, " dead", lists.dead);
    places(told, " unused", lists.unused);
}

fn first(told: &mut Told<'_>, count: u16, bytes: &[u8]) {
    match first_places(bytes, count) {
        Some(list) => places(told, "places", list),
        None => told.text("none"),
    }
}

fn plan(told: &mut Told<'_>, plan: FreezePlan<'_>) {
    told.shows(", ", &plan.xmax);
    told.shows(" ", &plan.infomask2);
    told.shows(" ", &plan.infomask);
    told.shows(" ", &plan.flags);
    places(told, " at", plan.places);
}

fn freeze(told: &mut Told<'_>, count: u16, bytes: &[u8]) {
    let Some(plans) = freeze_plans(bytes, count) else {
        return told.text("none");
    };
    told.text("plans");
    for each in plans {
        plan(told, each);
    }
}

fn multi_insert(told: &mut Told<'_>, count: u16, bytes: &[u8]) {
    let Some(tuples) = multi_insert_tuples(bytes, count) else {
        return told.text("none");
    };
    told.text("tuples");
    for tuple in tuples {
        told.shows(" ", &tuple.header);
        told.shows(" ", &tuple.bytes);
    }
}

fn restored(told: &mut Told<'_>, bytes: &[u8]) {
    let Some(tuples) = restored_tuples(bytes) else {
        return told.text("none");
    };
    told.text("tuples");
    let last = tuples.get(tuples.len().saturating_sub(1)).is_some();
    for tuple in tuples {
        told.shows(" ", &tuple);
    }
    told.shows(" ", &last);
}

fn split(told: &mut Told<'_>, with_new: bool, bytes: &[u8]) {
    let Some(tuples) = split_tuples(bytes, with_new) else {
        return told.text("none");
    };
    told.shows("new ", &tuples.new_tuple);
    told.shows(" key ", &tuples.high_key);
}

fn dedup(told: &mut Told<'_>, count: u16, bytes: &[u8]) {
    let Some(intervals) = dedup_intervals(bytes, count) else {
        return told.text("none");
    };
    told.text("intervals");
    let last = intervals.get(intervals.len().saturating_sub(1));
    let past = intervals.get(intervals.len());
    for interval in intervals {
        told.shows(" ", &interval);
    }
    told.shows(" ", &(last, past));
}

fn posting(told: &mut Told<'_>, bytes: &[u8]) {
    let Some(insert) = posting_insert(bytes) else {
        return told.text("none");
    };
    told.shows("at ", &insert.index);
    told.shows(" ", &insert.tuple);
}

fn shortened(told: &mut Told<'_>, deleted: u16, updated: u16, bytes: &[u8]) {
    let Some(lists) = posting_updates(bytes, deleted, updated) else {
        return told.text("none");
    };
    places(told, "deleted", lists.deleted);
    told.shows(" updates ", &lists.updates.len());
    for update in lists.updates {
        told.shows(", ", &update.place);
        places(told, " loses", update.gone);
    }
}

/// Tells what the bytes of a block of a kind are read as, by the numbers that the main bytes tell.
fn layout(told: &mut Told<'_>, kind: &str, one: u16, other: u16, bytes: &[u8]) {
    let parts = OldParts {
        prefix: one == 1,
        suffix: other == 1,
    };
    match kind {
        "insert" => insert(told, bytes),
        "update" => update(told, parts, bytes),
        "prune" => prune(told, one, other, bytes),
        "places" => first(told, one, bytes),
        "freeze" => freeze(told, one, bytes),
        "multi" => multi_insert(told, one, bytes),
        "restored" => restored(told, bytes),
        "split" => split(told, one == 1, bytes),
        "dedup" => dedup(told, one, bytes),
        "posting" => posting(told, bytes),
        "shortened" => shortened(told, one, other, bytes),
        "meta" => told.shows("", &metapage(bytes)),
        _ => told.text("no such kind"),
    }
}

/// `block KIND A B HEX`: whether the bytes of a block are read as a row says; A and B are the numbers that the main
/// bytes tell, or 1 for a part that is there.
pub fn block<R: AllocGlobal + Abort>(rt: &R, behind: &str, meant: &str) -> bool {
    let (kind, behind) = cut_at(behind, " ");
    let (one, behind) = cut_at(behind, " ");
    let (other, digits) = cut_at(behind, " ");
    let (one, other) = (half(rt, one), half(rt, other));
    let mut told = Told::new(meant);
    layout(&mut told, kind, one, other, &decoded(rt, digits));
    told.is_all()
}
