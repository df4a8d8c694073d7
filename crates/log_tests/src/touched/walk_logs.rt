//! Logs of one segment from 0/100000 on, put together record by record.
use crate::logs;
use crate::logs::{header, write};
use crate::texts::{byte, cut_at, position};
use crate::touched::bodies::body_of;
use crate::touched::walk_rows::HINTED;
use memory_tree::MemoryTree;
use std::process::Abort;

/// The body of a checkpoint record of timeline 1: the header of the main bytes, and these.
fn checkpoint(redo: u64) -> [u8; 90] {
    let mut body = [0; 90];
    body[0] = 255;
    body[1] = 88;
    body[2..10].copy_from_slice(&redo.to_le_bytes());
    body[10] = 1;
    body[14] = 1;
    body
}

/// Writes a record: where it starts, and its header and its body.
fn write_record<R: AllocGlobal + Abort>(
    rt: &R,
    tree: &mut MemoryTree,
    at: u64,
    header: [u8; 24],
    body: &[u8],
) {
    write(rt, tree, at, &header);
    write(rt, tree, at.saturating_add(24), body);
}

/// Puts a checkpoint into the log: its link, its `info` and its redo.
fn put_checkpoint<R: AllocGlobal + Abort>(rt: &R, tree: &mut MemoryTree, at: u64, words: &str) {
    let (link, behind) = cut_at(words, " ");
    let (info, redo) = cut_at(behind, " ");
    let body = checkpoint(position(rt, redo));
    let header = header(position(rt, link), 0, byte(rt, info), &body);
    write_record(rt, tree, at, header, &body);
}

/// Puts a record into the log: its link, its manager, its `info` and its body.
fn put_record<R: AllocGlobal + Abort>(rt: &R, tree: &mut MemoryTree, at: u64, words: &str) {
    let (link, behind) = cut_at(words, " ");
    let (manager, behind) = cut_at(behind, " ");
    let (info, body) = cut_at(behind, " ");
    let body = body_of(rt, body);
    let header = header(position(rt, link), byte(rt, manager), byte(rt, info), &body);
    write_record(rt, tree, at, header, &body);
}

/// Puts something into the log. A record has to fit on its page.
fn put<R: AllocGlobal + Abort>(rt: &R, tree: &mut MemoryTree, cell: &str) {
    let (verb, behind) = cut_at(cell, " ");
    let (at, words) = cut_at(behind, " ");
    let at = position(rt, at);
    match verb {
        "checkpoint" => put_checkpoint(rt, tree, at, words),
        "record" => put_record(rt, tree, at, words),
        "bytes" => write(rt, tree, at, &body_of(rt, words)),
        _ => panic!(rt; "no such cell"),
    }
}

/// A tree with a log of two pages in the folder `log`, in which this stands, and zeros.
pub(crate) fn tree_of<R: AllocGlobal + Abort>(rt: &R, cells: &str) -> MemoryTree {
    let mut tree = logs::tree_of(rt, "file 0/100000 16384, page 0/100000 2 0");
    let cells = if cells == "HINTED" { HINTED } else { cells };
    for cell in cells.split(", ") {
        put(rt, &mut tree, cell);
    }
    tree
}
