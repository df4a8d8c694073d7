//! What records do to the blocks that they reference, and to other files.
ghost use Rattle.std.specs.Prelude.{◌≤◌, length};
ghost use Rattle.block_refs.specs.Parts.{ArePartsOf};
ghost use Rattle.storage_replay.specs.Files.{AreFit};

use crate::fault::RowFault;
use crate::files::answers::ended;
use crate::files::forks::files;
use crate::logs::cursor_by;
use crate::texts::{number, owned, words_of};
use crate::trees::zero_page;
use block_refs::{Parts, split_record};
use block_replay::{RecordFault, Skipped, replay_blocks};
use cluster_tree::{Path, Tree};
use file_effects::act_on_files;
use replay_profile::is_in_profile;
use rmgr_hooks::NoManager;
use std::alloc::Global;
use storage_replay::Files;
use wal_records::Record;

/// The words of an answer, and of the least name that was skipped.
fn told(
    alloc: Global,
    answer: Result<(), RecordFault>,
    skipped: &Skipped,
) -> Result<String, RowFault> {
    match answer {
        Ok(()) => match skipped.least() {
            None => owned(alloc, "done"),
            Some(name) => Ok(format!(in alloc; "skipped {name}")?),
        },
        Err(RecordFault::RedoFailed(start, name, why)) => {
            Ok(format!(in alloc; "{why:?} {} {name}", start.0)?)
        }
        Err(RecordFault::File(fault)) => ended(alloc, Err(fault)),
    }
}

/// What a record answers by what it does to its blocks.
fn on_blocks<F: Tree>(
    alloc: Global,
    tree: &mut F,
    at: &Files,
    rec: &Record,
    parts: &Parts,
) -> Result<String, RowFault>
    requires fit { AreFit at.now }
    requires parts { ArePartsOf rec.now parts.now }
{
    if !is_in_profile(rec, parts, None::<&NoManager>) {
        return Err(RowFault::NotInProfile);
    }
    let mut skipped = Skipped::new(alloc);
    let mut page = zero_page(alloc)?;
    let answer = replay_blocks(
        alloc,
        tree,
        at,
        &mut skipped,
        rec,
        parts,
        &mut page,
        None::<&NoManager>,
    );
    told(alloc, answer, &skipped)
}

/// What a record answers by its `blocks` or by other `files`.
fn on_record<F: Tree>(
    alloc: Global,
    tree: &mut F,
    at: &Files,
    rec: &Record,
    kind: &str,
) -> Result<String, RowFault>
    requires fit { AreFit at.now }
{
    let parts = split_record(rec)?;
    match kind {
        "blocks" => on_blocks(alloc, tree, at, rec, &parts),
        _ => ended(alloc, act_on_files(alloc, tree, at, rec, &parts)),
    }
}

/// What a record answers on the cluster at a root. A file has two blocks where blocks are asked, or as many as a server
/// gives it.
pub(crate) fn answer_record<F: Tree>(
    alloc: Global,
    tree: &mut F,
    root: &Path,
    kind: &str,
    words: &str,
) -> Result<String, RowFault>
    requires room { length root.now.parts ≤ 61 }
{
    let at = files(alloc, root, if kind == "blocks" { 2 } else { 131_072 })?;
    let (xid, manager, info, body) = words_of(words);
    let cursor = cursor_by(alloc, number(xid)?, manager, info, body)?;
    let rec = cursor.current().ok_or(RowFault::NotARecord)?;
    on_record(alloc, tree, &at, rec, kind)
}
