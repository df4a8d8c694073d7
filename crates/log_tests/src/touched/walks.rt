//! Walks over logs: what each call answers.
ghost use Rattle.std.specs.Prelude.{◌≡◌, IsTrue};
ghost use Rattle.wal_records.specs.Cursor.{Knows};

use crate::logs::size;
use crate::records::cursor_at;
use crate::texts::{cut_at, plan_of, position};
use crate::told::Told;
use crate::touched::counted;
use crate::touched::walk_control::control;
use crate::touched::walk_logs::tree_of;
use crate::touched::walk_rows::HINTED;
use cluster_tree::Tree;
use log_walk::{CommonCheckpoint, LogWalkFault, common_checkpoint, end_of_target, touch_log};
use memory_tree::FailingTree;
use std::alloc::Global;
use std::process::Abort;
use touched_blocks::Touched;
use wal_base::{Lsn, SegSize};
use wal_records::RecordCursor;

/// Where the target's log ends, by the position of the checkpoint's record and `minRecoveryPoint`.
fn end_of<R: AllocGlobal + Abort>(
    rt: &R,
    checkpoint: u64,
    least: u64,
    cells: &str,
) -> Result<Lsn, LogWalkFault> {
    let mut cursor = cursor_at(rt, size(rt), 0);
    let mut tree = tree_of(rt, cells);
    end_of_target(&mut cursor, &mut tree, &control(checkpoint, least))
}

/// Tells where the target's log ends.
fn end<R: AllocGlobal + Abort>(rt: &R, told: &mut Told<'_>, words: &str, cells: &str) {
    let (checkpoint, least) = cut_at(words, " ");
    match end_of(rt, position(rt, checkpoint), position(rt, least), cells) {
        Ok(end) => told.says("", &end),
        Err(fault) => told.shows("", &fault),
    }
}

/// The last common checkpoint below a fork.
fn common_of<R: AllocGlobal + Abort>(
    rt: &R,
    fork: u64,
    cells: &str,
) -> Result<CommonCheckpoint, LogWalkFault> {
    let size = size(rt);
    let mut cursor = cursor_at(rt, size, 0);
    common_checkpoint(&mut cursor, &mut tree_of(rt, cells), size, Lsn(fork))
}

/// Tells where the last common checkpoint starts, and its redo.
fn common<R: AllocGlobal + Abort>(rt: &R, told: &mut Told<'_>, fork: &str, cells: &str) {
    match common_of(rt, position(rt, fork), cells) {
        Ok(found) => {
            told.says("", &found.start);
            told.says(" ", &Lsn(found.checkpoint.redo));
        }
        Err(fault) => told.shows("", &fault),
    }
}

/// What a log touches up to an end from a redo on, or what refuses it.
fn read<R: AllocGlobal + Abort>(
    rt: &R,
    redo: Lsn,
    end: Lsn,
    cells: &str,
) -> Result<Touched, LogWalkFault> {
    let mut cursor = cursor_at(rt, size(rt), 0);
    touch_log(rt.alloc(), &mut cursor, &mut tree_of(rt, cells), redo, end)
}

/// How many chunks, cuts and databases a log touches, with their set, or what refuses it.
fn touched<R: AllocGlobal + Abort>(
    rt: &R,
    told: &mut Told<'_>,
    set: &mut Touched,
    words: &str,
    cells: &str,
) {
    let (redo, end) = cut_at(words, " ");
    let (redo, end) = (Lsn(position(rt, redo)), Lsn(position(rt, end)));
    match read(rt, redo, end, cells) {
        Ok(found) => {
            counted(told, &found);
            *set = found;
        }
        Err(fault) => told.shows("", &fault),
    }
}

/// How many chunks the log with the hint touches, by the three walks on one cursor.
fn three_walks<F: Tree>(
    alloc: Global,
    cursor: &mut RecordCursor,
    tree: &mut F,
    size: SegSize,
) -> Result<usize, LogWalkFault>
    requires knows { IsTrue F.tells → Knows cursor.old (F.contents tree.old) }
    requires size { size ≡ cursor.old.log.size }
{
    let end = end_of_target(cursor, tree, &control(0x10_0168, 0))?;
    let found = common_checkpoint(cursor, tree, size, Lsn(0x10_0168))?;
    let set = touch_log(alloc, cursor, tree, Lsn(found.checkpoint.redo), end)?;
    Ok(set.chunk_count())
}

/// What the three walks answer where these reads fail.
fn failing<R: AllocGlobal + Abort>(rt: &R, told: &mut Told<'_>, plan: &str) {
    let size = size(rt);
    let mut tree = FailingTree::new(tree_of(rt, HINTED), plan_of(rt, plan));
    let mut cursor = cursor_at(rt, size, 0);
    told.shows("", &three_walks(rt.alloc(), &mut cursor, &mut tree, size));
}

/// Tells what a walk answers, and puts what it touches into a set.
pub(crate) fn walked<R: AllocGlobal + Abort>(
    rt: &R,
    told: &mut Told<'_>,
    set: &mut Touched,
    verb: &str,
    words: &str,
) {
    let (words, cells) = cut_at(words, ": ");
    match verb {
        "end" => end(rt, told, words, cells),
        "common" => common(rt, told, words, cells),
        "touch" => touched(rt, told, set, words, cells),
        "walk" => failing(rt, told, words),
        _ => panic!(rt; "no such call"),
    }
}
