// Logs that are written, and read again. The expected positions are worked out by hand from the
// format: 40 bytes of header on a segment's first page and 24 on each other page.
use crate::logs::{FIRST, FIRST_NAME, SECOND, SYSTEM, size, tree_of, write};
use crate::record_rows::CHECKPOINT;
use crate::records::is_read;
use crate::rows::{Rows, check};
use crate::texts::{byte, cut_at, filled, number, path_of};
use crate::told::Told;
use cluster_tree::Tree;
use memory_tree::MemoryTree;
use std::process::Abort;
use wal_base::Lsn;
use wal_records::LogWriter;

/// Appends a record of a transaction: the operation and its manager, and the bytes of its body. Answers where it starts.
pub fn append<R: Abort>(
    rt: &R,
    writer: &mut LogWriter,
    xid: u32,
    kind: (u8, u8),
    body: &[u8],
) -> u64 {
    let (info, manager) = kind;
    let end = writer.position();
    assert!(rt; manager <= 21 && end.0 <= 1 << 62, "no such record");
    writer
        .append(xid, info, manager, body)
        .expect(rt, "no record")
        .0
}

/// A log of timeline 1 in segments of 1 MiB from 0/100000 on.
fn new_writer<R: AllocGlobal + Abort>(rt: &R) -> LogWriter {
    LogWriter::new(rt.alloc(), Lsn(FIRST), 1, SYSTEM, size(rt)).expect(rt, "no memory")
}

/// Such a log of one record: the operation and its manager, and the bytes of its body.
pub fn writer_of<R: AllocGlobal + Abort>(rt: &R, kind: (u8, u8), body: &[u8]) -> LogWriter {
    let mut writer = new_writer(rt);
    append(rt, &mut writer, 0, kind, body);
    writer
}

/// Appends a record of a transaction, whose body is of bytes 5A: its operation, its manager and its length.
fn append_new<R: AllocGlobal + Abort>(rt: &R, writer: &mut LogWriter, xid: u32, new: &str) -> u64 {
    let (info, behind) = cut_at(new, " ");
    let (manager, total) = cut_at(behind, " ");
    let body = filled(rt, 0x5A, number(rt, total).saturating_sub(24));
    append(rt, writer, xid, (byte(rt, info), byte(rt, manager)), &body)
}

/// Such a log with these records, of the transactions from 700 on, and where the last one starts.
pub fn log_of<R: AllocGlobal + Abort>(rt: &R, records: &str) -> (LogWriter, u64) {
    let mut writer = new_writer(rt);
    let mut last = 0;
    let mut xid = 700;
    for new in records.split(", ") {
        if new != "-" {
            last = append_new(rt, &mut writer, xid, new);
        }
        xid = u32::saturating_add(xid, 1);
    }
    (writer, last)
}

/// A tree with that log in its segment files, which go on in zeros.
pub fn tree_with<R: AllocGlobal + Abort>(rt: &R, writer: &LogWriter) -> MemoryTree {
    let mut tree = tree_of(rt, "file 0/100000 1048576, file 0/200000 1048576");
    let bytes = writer.bytes();
    let first = bytes.len().min(0x10_0000);
    write(rt, &mut tree, FIRST, &bytes[..first]);
    write(rt, &mut tree, SECOND, &bytes[first..]);
    tree
}

/// A tree with that log in a file that ends where its last page does.
pub fn short_tree<R: AllocGlobal + Abort>(rt: &R, writer: &LogWriter) -> MemoryTree {
    let mut tree = tree_of(rt, "file 0/100000 0");
    write(rt, &mut tree, FIRST, writer.bytes());
    tree
}

/// A tree with a log of such records.
pub fn log_tree<R: AllocGlobal + Abort>(rt: &R, records: &str) -> MemoryTree {
    let (writer, _) = log_of(rt, records);
    tree_with(rt, &writer)
}

/// A log of such records; where the last one starts and ends, the place where the log ends, and why.
const ROWS: &str = "\
- = 0/0 0/100000, 0/100028 ZeroLength
# 8 bytes stand on the first page, 106 on the second
0 10 8144, 0 10 114 = 0/101FF8 0/102088, 0/102088 ZeroLength
# the rest stands behind the long header of the next segment
0 10 1045480, 0 10 114 = 0/1FFFF8 0/200098, 0/200098 ZeroLength
# 256 bytes stand on the first page, 8168 on the second and 7976 on the third
0 10 16064, 0 10 16400 = 0/103F00 0/107F40, 0/107F40 ZeroLength
# the second record begins behind the header of a page
0 10 8152, 0 10 25 = 0/102018 0/102038, 0/102038 ZeroLength
# the next page has not begun
0 10 8128, 0 10 24 = 0/101FE8 0/102000, 0/102018 Page
# a switch ends its segment
0 10 1240, 64 0 24 = 0/100500 0/200000, 0/200028 Page
64 0 24, 0 10 26 = 0/200028 0/200048, 0/200048 ZeroLength";

/// Whether the last of a log's records starts where it has to, and ends where the log does.
fn is_written(writer: &LogWriter, start: u64, wanted: &str) -> bool {
    let mut told = Told::new(wanted);
    told.says("", &Lsn(start));
    told.says(" ", &writer.position());
    told.is_all()
}

/// Whether a log is written, and read again, as its row says.
pub fn is_row<R: AllocGlobal + Abort>(rt: &R, records: &str, meant: &str) -> bool {
    let (last, end) = cut_at(meant, ", ");
    let (writer, start) = log_of(rt, records);
    let read = if records == "-" { "none" } else { last };
    let mut tree = tree_with(rt, &writer);
    is_written(&writer, start, last) && is_read(rt, &mut tree, FIRST, (read, end))
}

#[test]
fn what_was_written_is_read_again(rt: HostRuntime) {
    check(&rt, Rows::Written, &[ROWS]);
}

/// All bytes of the first segment's file.
fn segment_of<R: AllocGlobal + Abort>(rt: &R, tree: &mut MemoryTree) -> Vec<u8> {
    let mut bytes = filled(rt, 0, 0x10_0000);
    tree.read_at(&path_of(rt, FIRST_NAME), 0, &mut bytes)
        .expect(rt, "no bytes");
    bytes
}

/// The first segment as it was stored.
fn stored_segment<R: AllocGlobal + Abort>(rt: &R) -> Vec<u8> {
    let mut stored = tree_of(rt, "file 0/100000 1048576, page 0/100000 2 0");
    write(rt, &mut stored, 0x10_0028, &CHECKPOINT);
    segment_of(rt, &mut stored)
}

/// The first segment as a writer's bytes are in it.
fn written_segment<R: AllocGlobal + Abort>(rt: &R, writer: &LogWriter) -> Vec<u8> {
    segment_of(rt, &mut tree_with(rt, writer))
}

/// A segment with one shutdown checkpoint, whose bytes and sum come from an independent script: all
/// of it, of which the writer gives the first page.
#[test]
fn a_segment_is_written_as_it_was_stored(rt: HostRuntime) {
    let mut writer = new_writer(&rt);
    let start = append(&rt, &mut writer, 0, (0, 0), &CHECKPOINT[24..]);
    assert!(rt; start == 0x10_0028 && writer.position() == Lsn(0x10_00A0));
    assert!(rt; writer.bytes().len() == 8192);
    let written = written_segment(&rt, &writer);
    assert!(rt; written.as_slice() == stored_segment(&rt).as_slice());
}
