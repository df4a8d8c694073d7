//! Layouts with lists, by their names.
use crate::told::Told;
use record_layouts::*;
use std::fmt::Debug;

/// Tells a list, by index, and that there is no item past its end.
pub fn items<T: Item + Debug>(told: &mut Told<'_>, before: &str, list: &Items<'_, T>) {
    told.text(before);
    for at in 0..list.len() {
        if let Some(item) = list.get(at) {
            told.shows(" ", &item);
        }
    }
    if list.get(list.len()).is_some() {
        told.text(" and more");
    }
}

fn database_drop(told: &mut Told<'_>, bytes: &[u8]) {
    let Some(drop) = DatabaseDrop::read(bytes) else {
        return told.text("none");
    };
    told.shows("database ", &drop.database);
    items(told, " spaces", &drop.spaces);
}

fn database_drop_prefix(told: &mut Told<'_>, bytes: &[u8]) {
    let prefix = DatabaseDropPrefix::read(bytes);
    told.shows("database ", &prefix.database);
    items(told, " spaces", &prefix.spaces);
}

fn multixact(told: &mut Told<'_>, bytes: &[u8]) {
    let Some(create) = MultiXactCreate::read(bytes) else {
        return told.text("none");
    };
    told.shows("multi ", &create.multi);
    told.shows(" offset ", &create.offset);
    items(told, " members", &create.members);
}

fn map(told: &mut Told<'_>, bytes: &[u8]) {
    match RelMapUpdate::read(bytes) {
        Some(update) => told.shows("map ", &update.map.slice()),
        None => told.text("none"),
    }
}

fn multi_insert(told: &mut Told<'_>, init: bool, bytes: &[u8]) {
    let Some(insert) = HeapMultiInsert::read(init, bytes) else {
        return told.text("none");
    };
    told.shows("flags ", &insert.flags);
    told.shows(" ntuples ", &insert.ntuples);
    told.text(" places");
    for at in 0..=insert.places.len() {
        if let Some(place) = insert.places.get(at) {
            told.shows(" ", &place);
        }
    }
}

fn restore_point(told: &mut Told<'_>, bytes: &[u8]) {
    let Some(point) = RestorePoint::read(bytes) else {
        return told.text("none");
    };
    told.shows("time ", &point.time);
    told.shows(" name ", &point.name.slice());
}

fn sequence(told: &mut Told<'_>, bytes: &[u8]) {
    let Some(log) = SequenceLog::read(bytes) else {
        return told.text("none");
    };
    told.says("rel ", &log.rel);
    told.shows(" tuple ", &log.tuple.slice());
}

/// Tells what a layout with a list says, or what is there of one.
pub fn list(told: &mut Told<'_>, name: &str, bytes: &[u8]) -> bool {
    match name {
        "DatabaseDrop" => database_drop(told, bytes),
        "DropPrefix" => database_drop_prefix(told, bytes),
        "MultiXactCreate" => multixact(told, bytes),
        "RelMapUpdate" => map(told, bytes),
        "MultiInsert" => multi_insert(told, false, bytes),
        "MultiInsertInit" => multi_insert(told, true, bytes),
        "RestorePoint" => restore_point(told, bytes),
        "SequenceLog" => sequence(told, bytes),
        _ => return false,
    }
    true
}
