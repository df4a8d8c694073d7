//! The ways to go through the segment.

ghost use Rattle.std.specs.Prelude.{◌≡◌, length};
ghost use Rattle.wal_base.specs.Crc.{crc32c};

use crate::segment::{PAGES, START};
use cluster_tree::Tree;
use wal_base::{Crc32c, Lsn};
use wal_pages::{PageCursor, PageFault};

/// Reads each page and sums it: the CRC-32C of the pages one after another.
pub fn page_pass<F: Tree>(cursor: &mut PageCursor, tree: &mut F) -> Result<u32, PageFault> {
    let mut crc = Crc32c::new();
    for number in 0..PAGES {
        cursor.read_page(tree, Lsn(START + number * 8192))?;
        crc.add(cursor.page());
    }
    Ok(crc.value())
}

/// Reads each page, and counts the bytes.
pub fn read_pass<F: Tree>(cursor: &mut PageCursor, tree: &mut F) -> Result<usize, PageFault> {
    let mut count = 0usize;
    for number in 0..PAGES {
        cursor.read_page(tree, Lsn(START + number * 8192))?;
        count = count.wrapping_add(cursor.page().len());
    }
    Ok(count)
}

/// The CRC-32C of bytes.
pub fn crc_pass(bytes: &[u8]) -> u32
    ensures { result ≡ crc32c bytes.now }
{
    let mut crc = Crc32c::new();
    crc.add(bytes);
    crc.value()
}

/// Copies bytes page by page into one page, and counts them and some of their values, so that no copy is left out.
pub fn copy_pass(bytes: &[u8], page: &mut [u8]) -> usize
    requires { length page.old ≡ 8192 }
    ensures { length page.new ≡ 8192 }
{
    let mut count = 0usize;
    for piece in bytes.chunks_exact(8192) {
        page.copy_from_slice(piece);
        count = count
            .wrapping_add(usize::from(page[count % 8192]))
            .wrapping_add(piece.len());
    }
    count
}
