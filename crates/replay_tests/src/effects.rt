//! What records do to blocks.
ghost use Rattle.block_refs.specs.Parts.{ArePartsOf};

use crate::fault::RowFault;
use crate::redo::{Redo, redone};
use crate::texts::{byte, cut_at, number, owned, words_of};
use block_effects::is_gone;
use block_refs::{BlockName, Fork, Parts, RelName, split_record};
use record_effects::act_on;
use rmgr_hooks::NoManager;
use std::alloc::Global;
use wal_records::Record;

/// A block of the default tablespace by its numbers.
fn block_of(text: &str) -> Result<BlockName, RowFault> {
    let (database, relation, fork, block) = words_of(text);
    let rel = RelName {
        space: 1663,
        database: number(database)?,
        relation: number(relation)?,
    };
    Ok(BlockName {
        rel,
        fork: Fork::from_number(byte(fork)?).ok_or(RowFault::NotAFork)?,
        block: number(block)?,
    })
}

/// Whether a record takes a block away.
fn gone(rec: &Record, parts: &Parts, words: &str) -> Result<&'static str, RowFault>
    requires parts { ArePartsOf rec.now parts.now }
{
    if is_gone(rec, parts, block_of(words)?) {
        Ok("gone")
    } else {
        Ok("stays")
    }
}

/// What is done at each reference, in their order.
fn acts(alloc: Global, rec: &Record, parts: &Parts) -> Result<String, RowFault>
    requires parts { ArePartsOf rec.now parts.now }
{
    let mut told = String::new(alloc);
    for at in 0..parts.count() {
        if let Some(block) = parts.get(at) {
            let act = act_on(rec, parts, &block, None::<&NoManager>);
            let gap = if told.is_empty() { "" } else { " " };
            write!(told, "{gap}{act:?}")?;
        }
    }
    Ok(told)
}

/// What a call says of a record by its parts.
fn effect_by(
    alloc: Global,
    rec: &Record,
    parts: &Parts,
    call: &str,
    words: &str,
) -> Result<String, RowFault>
    requires parts { ArePartsOf rec.now parts.now }
{
    let (id, commands) = cut_at(words, " ");
    match call {
        "gone" => owned(alloc, gone(rec, parts, words)?),
        "acts" => acts(alloc, rec, parts),
        "redo" => redone(alloc, rec, parts, Redo::Any(byte(id)?), commands),
        "map" => redone(alloc, rec, parts, Redo::Map, words),
        _ => Err(RowFault::NotACall),
    }
}

/// What a call says of a record and the words behind it.
pub(crate) fn effect(
    alloc: Global,
    rec: &Record,
    call: &str,
    words: &str,
) -> Result<String, RowFault> {
    let parts = split_record(rec)?;
    effect_by(alloc, rec, &parts, call, words)
}
