//! A segment of valid pages, and the tree and the cursor that it is read by.

use anyhow::{Context, Result};
use cluster_tree::{Path, Tree};
use memory_tree::MemoryTree;
use std::alloc::{AllocError, Global};
use wal_base::{SegSize, Spans};
use wal_pages::{LogPath, PageCursor};

/// How many pages the segment has.
pub const PAGES: u64 = 128;

/// The position of its first byte: it is segment 1 of 1 MiB.
pub const START: u64 = 0x10_0000;

/// How many bytes a page has.
const PAGE: usize = 8192;

/// A log of one segment: its bytes, the tree that holds them as a file, and a cursor over it.
#[derive(Drop)]
pub struct SegmentLog {
    pub bytes: Vec<u8>,
    pub tree: MemoryTree,
    pub cursor: PageCursor,
}

impl SegmentLog {
    /// The log of which nothing has been read.
    pub fn new(alloc: Global) -> Result<SegmentLog> {
        let bytes = segment_bytes(alloc)?;
        let tree = tree_of(alloc, &bytes)?;
        let cursor = cursor_of(alloc)?;
        Ok(SegmentLog {
            bytes,
            tree,
            cursor,
        })
    }
}

/// The header of the page at a position, the 16 bytes behind it on a segment's first page too.
fn header(at: u64) -> [u8; 40] {
    let mut header = [0; 40];
    let is_first = at == START;
    header[..2].copy_from_slice(&0xD113u16.to_le_bytes());
    header[2] = if is_first { 2 } else { 0 };
    header[4] = 1;
    header[8..16].copy_from_slice(&at.to_le_bytes());
    if is_first {
        header[24..32].copy_from_slice(&7u64.to_le_bytes());
        header[32..36].copy_from_slice(&0x10_0000u32.to_le_bytes());
        header[36..].copy_from_slice(&8192u32.to_le_bytes());
    }
    header
}

/// Adds the page at a position: its header, and bytes of a linear congruential generator.
fn add_page(bytes: &mut Vec<u8>, at: u64) -> Result<(), AllocError> {
    bytes.extend_from_slice(&header(at))?;
    let mut state = at;
    for _ in 40..PAGE {
        state = state
            .wrapping_mul(6_364_136_223_846_793_005)
            .wrapping_add(1_442_695_040_888_963_407);
        bytes.push((state >> 56) as u8)?;
    }
    Ok(())
}

/// The bytes of the segment, always the same.
fn segment_bytes(alloc: Global) -> Result<Vec<u8>, AllocError> {
    let mut bytes = Vec::new(alloc);
    for number in 0..PAGES {
        add_page(&mut bytes, START + number * 8192)?;
    }
    Ok(bytes)
}

/// A tree in which the segment's file, of timeline 1, lies in the folder `log`.
fn tree_of(alloc: Global, bytes: &[u8]) -> Result<MemoryTree> {
    let mut tree = MemoryTree::new(alloc);
    tree.make_folder(&Path::parse(alloc, "log")?)?;
    let file = Path::parse(alloc, "log/000000010000000000000001")?;
    tree.make_file(&file)?;
    tree.write_at(&file, 0, bytes)?;
    Ok(tree)
}

/// A cursor over that log.
fn cursor_of(alloc: Global) -> Result<PageCursor> {
    let folder = Path::parse(alloc, "log")?;
    let size = SegSize::new(0x10_0000).context("the segment size")?;
    if folder.len() > 63 {
        anyhow::bail!("the folder is too deep");
    }
    let log = LogPath {
        folder,
        spans: Spans::one(alloc, 1)?,
        size,
        system: Some(7),
    };
    Ok(PageCursor::new(alloc, log)?)
}
