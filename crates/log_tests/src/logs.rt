// The logs that are read, put together field by field.
ghost use Rattle.std.specs.Prelude.{◌≡◌, ◌≤◌, length};
ghost use Rattle.wal_base.specs.Segment.{bytes_of};

use crate::texts::{bytes_of, cut_at, filled, half, number, path_of, position};
use cluster_tree::Tree;
use memory_tree::MemoryTree;
use std::process::Abort;
use wal_base::{Crc32c, SegSize, Spans};
use wal_pages::LogPath;

/// The system that wrote the pages.
pub const SYSTEM: u64 = 7_300_000_000_000_000_001;

/// Where the segments with the numbers 1 and 2 of 1 MiB begin.
pub const FIRST: u64 = 0x10_0000;

pub const SECOND: u64 = 0x20_0000;

pub const FIRST_NAME: &str = "log/000000010000000000000001";

const SECOND_NAME: &str = "log/000000010000000000000002";

/// The last segment of all positions, and where its last page begins.
const LAST_NAME: &str = "log/00000001FFFFFFFF00000FFF";

pub const LAST_PAGE: u64 = u64::MAX - 8191;

/// The name of the file of the segment at a position.
fn name_at(at: u64) -> &'static str {
    if at < SECOND {
        FIRST_NAME
    } else if at < LAST_PAGE - 0xF_E000 {
        SECOND_NAME
    } else {
        LAST_NAME
    }
}

/// The long header of a page: where it begins, its flags, and how many bytes are to come.
pub fn page(at: u64, info: u16, remaining: u32) -> [u8; 40] {
    let mut header = [0; 40];
    header[..2].copy_from_slice(&0xD113u16.to_le_bytes());
    header[2..4].copy_from_slice(&info.to_le_bytes());
    header[4..8].copy_from_slice(&1u32.to_le_bytes());
    header[8..16].copy_from_slice(&at.to_le_bytes());
    header[16..20].copy_from_slice(&remaining.to_le_bytes());
    header[24..32].copy_from_slice(&SYSTEM.to_le_bytes());
    header[32..36].copy_from_slice(&0x10_0000u32.to_le_bytes());
    header[36..].copy_from_slice(&8192u32.to_le_bytes());
    header
}

/// A tree with the folder `log`, and in it what stands there, or nothing.
pub fn tree_of<R: AllocGlobal + Abort>(rt: &R, cells: &str) -> MemoryTree {
    let mut tree = MemoryTree::new(rt.alloc());
    tree.make_folder(&path_of(rt, "log"))
        .expect(rt, "no folder");
    for cell in cells.split(", ") {
        if !cell.is_empty() {
            put(rt, &mut tree, cell);
        }
    }
    tree
}

/// Puts something into a tree: `folder PATH`, `link PATH`, or what lies at a position of the log.
fn put<R: AllocGlobal + Abort>(rt: &R, tree: &mut MemoryTree, cell: &str) {
    let (kind, behind) = cut_at(cell, " ");
    let (at, words) = cut_at(behind, " ");
    match kind {
        "folder" => tree
            .make_folder(&path_of(rt, behind))
            .expect(rt, "no folder"),
        "link" => tree.add_link(&path_of(rt, behind)).expect(rt, "no link"),
        _ => put_at(rt, tree, kind, position(rt, at), words),
    }
}

/// Puts at a position: `file SIZE`, the segment's file of so many zeros; `page FLAGS REMAINING`, the header of a
/// page with how many bytes are to come; `record TOTAL LINK`, of a length, with a link back, whose body is of
/// bytes 5A, and of which what doesn't fit on its page stands behind the short header of the next one; or `bytes BYTES`.
fn put_at<R: AllocGlobal + Abort>(rt: &R, tree: &mut MemoryTree, kind: &str, at: u64, words: &str) {
    let (first, second) = cut_at(words, " ");
    match kind {
        "file" => add_file(rt, tree, name_at(at), number(rt, words)),
        "page" => put_page(rt, tree, at, half(rt, first), number(rt, second)),
        "record" => {
            let record = record_of(rt, number(rt, first), position(rt, second));
            put_record(rt, tree, at, &record);
        }
        "bytes" => write(rt, tree, at, &bytes_of(rt, words)),
        _ => panic!(rt; "no such cell"),
    }
}

/// Writes the header of a page, which is long at a segment's start.
fn put_page<R: AllocGlobal + Abort>(
    rt: &R,
    tree: &mut MemoryTree,
    at: u64,
    info: u16,
    remaining: u32,
) {
    let header = page(at, info, remaining);
    let size = if at % FIRST == 0 { 40 } else { 24 };
    write(rt, tree, at, &header[..size]);
}

/// Adds a file of so many bytes of zeros.
pub fn add_file<R: AllocGlobal + Abort>(rt: &R, tree: &mut MemoryTree, name: &str, size: u32) {
    let path = path_of(rt, name);
    tree.make_file(&path).expect(rt, "no file");
    tree.write_at(&path, 0, &filled(rt, 0, size))
        .expect(rt, "no bytes");
}

/// Writes the bytes of a record, those that don't fit on its page behind the header of the next.
fn put_record<R: AllocGlobal + Abort>(rt: &R, tree: &mut MemoryTree, at: u64, bytes: &[u8]) {
    let room = 8192 - at % 8192;
    let first = bytes.len().min(room as usize);
    write(rt, tree, at, &bytes[..first]);
    if first < bytes.len() {
        write(rt, tree, at.saturating_add(room + 24), &bytes[first..]);
    }
}

/// Writes bytes at a position of the log.
pub fn write<F: Tree, R: AllocGlobal + Abort>(rt: &R, tree: &mut F, at: u64, bytes: &[u8]) {
    tree.write_at(&path_of(rt, name_at(at)), at % FIRST, bytes)
        .expect(rt, "no bytes");
}

/// The header of a record with this body.
pub fn header(link: u64, manager: u8, info: u8, body: &[u8]) -> [u8; 24] {
    let mut header = [0; 24];
    let total = (body.len().min(8000) + 24) as u32;
    header[..4].copy_from_slice(&total.to_le_bytes());
    header[8..16].copy_from_slice(&link.to_le_bytes());
    header[16] = info;
    header[17] = manager;
    let mut crc = Crc32c::new();
    crc.add(body);
    crc.add(&header[..20]);
    header[20..].copy_from_slice(&crc.value().to_le_bytes());
    header
}

/// The bytes of a record of a length, with a link back, whose body is of bytes 5A.
fn record_of<R: AllocGlobal + Abort>(rt: &R, total: u32, link: u64) -> Vec<u8> {
    let size = total.max(24) as usize;
    let mut bytes = vec![in rt.alloc(); 0x5A; size].expect(rt, "no memory");
    let header = header(link, 10, 0, &bytes[24..]);
    bytes.as_mut_slice()[..24].copy_from_slice(&header);
    bytes
}

/// How long its segments are: 1 MiB.
pub fn size<R: Abort>(rt: &R) -> SegSize
    ensures { bytes_of result ≡ 0x10_0000 }
{
    SegSize::new(0x10_0000).expect(rt, "no size")
}

/// Timeline 1 alone.
pub fn one_timeline<R: AllocGlobal + Abort>(rt: &R) -> Spans {
    Spans::one(rt.alloc(), 1).expect(rt, "no memory")
}

/// The log in the folder `log`, in segments of a size of these timelines.
pub fn log_path<R: AllocGlobal + Abort>(
    rt: &R,
    size: SegSize,
    spans: Spans,
    system: Option<u64>,
) -> LogPath
    ensures shallow { length result.folder.parts ≤ 63 }
    ensures size { result.size ≡ size }
{
    let log = LogPath {
        folder: path_of(rt, "log"),
        spans,
        size,
        system,
    };
    assert!(rt; log.folder.len() <= 63, "too deep");
    log
}
