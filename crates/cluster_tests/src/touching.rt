//! Sets of blocks that records touch.
ghost use Rattle.std.specs.Prelude.{◌≤◌, length};

use crate::texts::number;
use crate::trees::{put_file, root_of, tree_of};
use block_refs::split_record;
use memory_tree::MemoryTree;
use std::process::Abort;
use touched_blocks::Touched;
use wal_base::{Lsn, SegSize, Spans};
use wal_pages::LogPath;
use wal_records::{LogWriter, RecordCursor};

/// Where the log begins, and where its record starts.
const SEGMENT: Lsn = Lsn(0x10_0000);

const START: Lsn = Lsn(0x10_0028);

/// The manager of heaps.
const HEAP: u8 = 10;

/// What a record's body says of a block of the main fork of relation 16385 of database 5, but for the
/// block's number: its id, no flags, no data, and the relation's three numbers.
const REFERENCE: [u8; 16] = [0, 0, 0, 0, 0x7F, 6, 0, 0, 5, 0, 0, 0, 1, 0x40, 0, 0];

/// The body of a record that references a block.
fn body_of(block: u32) -> [u8; 20] {
    let mut body = [0; 20];
    body[..16].copy_from_slice(&REFERENCE);
    body[16..].copy_from_slice(&block.to_le_bytes());
    body
}

// A log of one record that references a block.
#[tactic(auto, using(wal_records::proofs::NearLemmas::ends_near))]
fn writer_of<R: AllocGlobal + Abort>(rt: &R, block: u32) -> LogWriter {
    let size = SegSize::new(0x10_0000).expect(rt, "no size");
    let mut writer = LogWriter::new(rt.alloc(), SEGMENT, 1, 7, size).expect(rt, "no memory");
    assert!(rt; writer.position().0 <= 1 << 62, "no such record");
    writer
        .append(0, 0, HEAP, &body_of(block))
        .expect(rt, "no record");
    writer
}

// A tree with that log.
fn tree_with<R: AllocGlobal + Abort>(rt: &R, block: u32) -> MemoryTree {
    let writer = writer_of(rt, block);
    let mut tree = tree_of(rt, "d log");
    let file = "log/000000010000000000000001";
    put_file(rt, &mut tree, file, writer.bytes());
    tree
}

/// Where the log lies.
fn log_path<R: AllocGlobal + Abort>(rt: &R) -> LogPath
    ensures { length result.folder.parts ≤ 63 }
{
    LogPath {
        folder: root_of(rt, "log"),
        spans: Spans::one(rt.alloc(), 1).expect(rt, "no memory"),
        size: SegSize::new(0x10_0000).expect(rt, "no size"),
        system: Some(7),
    }
}

// A cursor that has read that record.
fn cursor_with<R: AllocGlobal + Abort>(rt: &R, block: u32) -> RecordCursor {
    let mut tree = tree_with(rt, block);
    let mut cursor = RecordCursor::at(rt.alloc(), log_path(rt), START).expect(rt, "no log");
    let _step = cursor.next(&mut tree).expect(rt, "no record");
    cursor
}

fn add<R: AllocGlobal + Abort>(rt: &R, set: &mut Touched, block: u32) {
    let cursor = cursor_with(rt, block);
    let rec = cursor.current().expect(rt, "no record");
    let parts = split_record(rec).expect(rt, "no parts");
    set.add_record(rec, &parts).expect(rt, "no such record");
}

/// The set of these blocks of relation 16385 of database 5, none for a dash.
pub(crate) fn touched<R: AllocGlobal + Abort>(rt: &R, blocks: &str) -> Touched {
    let mut set = Touched::new(rt.alloc());
    if blocks == "-" {
        return set;
    }
    for block in blocks.split(' ') {
        add(rt, &mut set, number(rt, block));
    }
    set
}
