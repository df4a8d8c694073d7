//! Redo of heap and B-tree records.
ghost use Rattle.block_refs.specs.Parts.{ArePartsOf};

use crate::fault::RowFault;
use crate::logs::{OneRecord, cursor_over};
use crate::pages::{left, made};
use crate::texts::{byte, bytes_of, cut_at, number, words_of};
use block_refs::{Parts, split_record};
use btree_replay::redo_btree;
use heap_replay::redo_heap;
use record_effects::redo;
use rmgr_hooks::NoManager;
use std::alloc::Global;
use storage_pages::redo_map;
use wal_records::Record;

/// The relation of every block: 1663/5/16384.
const RELATION: [u8; 12] = [127, 6, 0, 0, 5, 0, 0, 0, 0, 64, 0, 0];

/// What redoes a record: on the page of a reference what its manager or either of two names, or what the map's page needs.
#[derive(Clone, Copy)]
pub(crate) enum Redo {
    Any(u8),
    Heap(u8),
    Btree(u8),
    Map,
}

/// What redo says of the page that commands make, and what it leaves of it.
pub(crate) fn redone(
    alloc: Global,
    rec: &Record,
    parts: &Parts,
    by: Redo,
    commands: &str,
) -> Result<String, RowFault>
    requires parts { ArePartsOf rec.now parts.now }
{
    let before = made(alloc, commands)?;
    let mut page = made(alloc, commands)?;
    let answer = match by {
        Redo::Any(id) => redo(rec, parts, id, &mut page, None::<&NoManager>),
        Redo::Heap(id) => redo_heap(rec, parts, id, &mut page),
        Redo::Btree(id) => redo_btree(rec, parts, id, &mut page),
        Redo::Map => redo_map(rec, parts, &mut page),
    };
    left(alloc, answer, &before, &page)
}

/// A block's reference, by its id, its number and its bytes.
fn add_reference(alloc: Global, body: &mut Vec<u8>, text: &str) -> Result<(), RowFault> {
    let (id, block, digits, _) = words_of(text);
    let data = bytes_of(alloc, digits)?;
    let size = u16::try_from(data.len()).map_err(|_| RowFault::TooLong)?;
    let has_data = if size == 0 { 0 } else { 0x20 };
    let same = if body.is_empty() { 0 } else { 0x80 };
    body.extend_from_slice(&[byte(id)?, has_data + same])?;
    body.extend_from_slice(&size.to_le_bytes())?;
    if same == 0 {
        body.extend_from_slice(&RELATION)?;
    }
    body.extend_from_slice(&number(block)?.to_le_bytes())?;
    Ok(())
}

/// The references of blocks.
fn add_references(alloc: Global, body: &mut Vec<u8>, blocks: &str) -> Result<(), RowFault> {
    for block in blocks.split(", ") {
        add_reference(alloc, body, block)?;
    }
    Ok(())
}

/// The bytes of blocks.
fn add_bytes(alloc: Global, body: &mut Vec<u8>, blocks: &str) -> Result<(), RowFault> {
    for block in blocks.split(", ") {
        let (_, _, digits, _) = words_of(block);
        body.extend_from_slice(&bytes_of(alloc, digits)?)?;
    }
    Ok(())
}

/// The body of a record, by its blocks as ids, numbers and bytes, and its main bytes.
fn body_of(alloc: Global, blocks: &str, main: &str) -> Result<Vec<u8>, RowFault> {
    let main = bytes_of(alloc, main)?;
    let mut body = Vec::new(alloc);
    add_references(alloc, &mut body, blocks)?;
    if !main.is_empty() {
        let size = u8::try_from(main.len()).map_err(|_| RowFault::TooLong)?;
        body.extend_from_slice(&[255, size])?;
    }
    add_bytes(alloc, &mut body, blocks)?;
    body.extend_from_slice(&main)?;
    Ok(body)
}

/// What a record of heap or B-tree does on the page of a reference.
fn redone_one(
    alloc: Global,
    one: OneRecord<'_>,
    id: u8,
    commands: &str,
) -> Result<String, RowFault> {
    let cursor = cursor_over(alloc, one)?;
    let rec = cursor.current().ok_or(RowFault::NotARecord)?;
    let parts = split_record(rec)?;
    let by = match one.manager {
        11 => Redo::Btree(id),
        _ => Redo::Heap(id),
    };
    redone(alloc, rec, &parts, by, commands)
}

/// What a row says before its sign of equality is redone.
pub(crate) fn redone_row(alloc: Global, row: &str) -> Result<String, RowFault> {
    let (commands, behind) = cut_at(row, " | ");
    let (names, behind) = cut_at(behind, " | ");
    let (blocks, main) = cut_at(behind, " | ");
    let (manager, info, xid, id) = words_of(names);
    let body = body_of(alloc, blocks, main)?;
    let one = OneRecord {
        xid: number(xid)?,
        manager: byte(manager)?,
        info: byte(info)?,
        body: &body,
    };
    redone_one(alloc, one, byte(id)?, commands)
}
