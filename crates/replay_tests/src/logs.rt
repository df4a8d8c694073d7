//! Logs of one record.
use crate::fault::RowFault;
use crate::texts::{byte, bytes_of};
use crate::trees::{path_of, put_file, tree_of};
use memory_tree::MemoryTree;
use std::alloc::Global;
use wal_base::{Lsn, SegSize, Spans};
use wal_pages::LogPath;
use wal_records::{LogWriter, RecordCursor};

/// The system that wrote the log.
const SYSTEM: u64 = 7_300_000_000_000_000_001;

/// Where the segment begins.
const SEGMENT: Lsn = Lsn(0x10_0000);

/// How many bytes it has.
const SIZE: u32 = 0x10_0000;

/// Where its first record starts.
pub(crate) const START: Lsn = Lsn(0x10_0028);

/// A record, of one of PostgreSQL's own managers.
#[derive(Clone, Copy)]
pub(crate) struct OneRecord<'a> {
    pub(crate) xid: u32,
    pub(crate) manager: u8,
    pub(crate) info: u8,
    pub(crate) body: &'a [u8],
}

/// A log of one record.
#[tactic(auto, using(wal_records::proofs::NearLemmas::ends_near))]
fn writer_of(alloc: Global, rec: OneRecord<'_>) -> Result<LogWriter, RowFault> {
    let size = SegSize::new(SIZE).ok_or(RowFault::NotARecord)?;
    let mut writer = LogWriter::new(alloc, SEGMENT, 1, SYSTEM, size)?;
    if writer.position().0 > 1 << 62 || rec.manager >= 22 {
        return Err(RowFault::NotARecord);
    }
    writer.append(rec.xid, rec.info, rec.manager, rec.body)?;
    Ok(writer)
}

/// A tree with that log.
fn tree_with(alloc: Global, rec: OneRecord<'_>) -> Result<MemoryTree, RowFault> {
    let writer = writer_of(alloc, rec)?;
    let mut tree = tree_of(alloc, "folder log", "")?;
    let file = path_of(alloc, "log/000000010000000000000001")?;
    put_file(&mut tree, &file, writer.bytes())?;
    Ok(tree)
}

/// Where the log lies.
fn log_path(alloc: Global) -> Result<LogPath, RowFault> {
    Ok(LogPath {
        folder: path_of(alloc, "log")?,
        spans: Spans::one(alloc, 1)?,
        size: SegSize::new(SIZE).ok_or(RowFault::NotARecord)?,
        system: Some(SYSTEM),
    })
}

/// A cursor that has read the record.
pub(crate) fn cursor_over(alloc: Global, rec: OneRecord<'_>) -> Result<RecordCursor, RowFault> {
    let mut tree = tree_with(alloc, rec)?;
    let path = log_path(alloc)?;
    if path.folder.len() > 63 {
        return Err(RowFault::TooDeep);
    }
    let mut cursor = RecordCursor::at(alloc, path, START)?;
    let _step = cursor.next(&mut tree)?;
    Ok(cursor)
}

/// A cursor that has read a record of a transaction, by its manager, its info and its body.
pub(crate) fn cursor_by(
    alloc: Global,
    xid: u32,
    manager: &str,
    info: &str,
    body: &str,
) -> Result<RecordCursor, RowFault> {
    let body = bytes_of(alloc, body)?;
    let rec = OneRecord {
        xid,
        manager: byte(manager)?,
        info: byte(info)?,
        body: &body,
    };
    cursor_over(alloc, rec)
}

/// A cursor that has read a record of main bytes alone, at most 255.
pub(crate) fn main_cursor(
    alloc: Global,
    manager: u8,
    info: u8,
    digits: &str,
) -> Result<RecordCursor, RowFault> {
    let main = bytes_of(alloc, digits)?;
    let size = u8::try_from(main.len()).map_err(|_| RowFault::TooLong)?;
    let mut body = vec![in alloc; 255, size]?;
    body.extend_from_slice(&main)?;
    let rec = OneRecord {
        xid: 0,
        manager,
        info,
        body: &body,
    };
    cursor_over(alloc, rec)
}
