//! The segment files of the log, and the cursor that reads them.

use crate::writing::{SEGMENT, START, SYSTEM};
use anyhow::{Context, Result};
use cluster_tree::{Path, Tree};
use memory_tree::MemoryTree;
use std::alloc::Global;
use wal_base::{Lsn, SegSize, Segment, Spans};
use wal_pages::LogPath;
use wal_records::RecordCursor;

/// The folder of the log.
fn folder(alloc: Global) -> Result<Path> {
    Ok(Path::parse(alloc, "pg_wal")?)
}

/// Adds the file of the segment at a position: these bytes, and then zeros.
fn add_segment(alloc: Global, tree: &mut MemoryTree, at: Lsn, bytes: &[u8]) -> Result<()> {
    let size = SegSize::new(SEGMENT).context("the segment size")?;
    let name = Segment::of(1, at, size).name(alloc)?;
    let file = folder(alloc)?.join(alloc, name.as_str())?;
    let zeros = vec![in alloc; 0; (SEGMENT as usize).saturating_sub(bytes.len())]?;
    tree.make_file(&file)?;
    tree.write_at(&file, 0, bytes)?;
    tree.write_at(&file, bytes.len() as u64, &zeros)?;
    Ok(())
}

/// A tree with the segment files of a log.
pub fn tree_of(alloc: Global, log: &[u8]) -> Result<MemoryTree> {
    let mut tree = MemoryTree::new(alloc);
    tree.make_folder(&folder(alloc)?)?;
    let mut at = START;
    for bytes in log.chunks(SEGMENT as usize) {
        add_segment(alloc, &mut tree, Lsn(at), bytes)?;
        at = at.saturating_add(u64::from(SEGMENT));
    }
    Ok(tree)
}

/// A cursor over that log.
pub fn cursor_of(alloc: Global) -> Result<RecordCursor> {
    let log = LogPath {
        folder: folder(alloc)?,
        spans: Spans::one(alloc, 1)?,
        size: SegSize::new(SEGMENT).context("the segment size")?,
        system: Some(SYSTEM),
    };
    if log.folder.len() > 63 {
        anyhow::bail!("the folder is too deep");
    }
    Ok(RecordCursor::at(alloc, log, Lsn(START))?)
}
