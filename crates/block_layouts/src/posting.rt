//! Posting lists of B-trees: what is inserted into one, and those that become shorter.

ghost use Rattle.std.specs.Prelude.{◌≡◌, option_map};
ghost use Rattle.block_layouts.specs.Posting.{posting_insert_of, posting_insert_seen, posting_updates_of};

use crate::index_tuples::HEADER_SIZE;
use crate::places::Places;
use crate::shortened::Updates;
use layout::u16_at;

/// The bytes of an index in a posting list.
const INDEX_SIZE: usize = 2;

/// What the record of an insert into a posting list holds.
#[derive(Clone, Copy, Debug)]
pub struct PostingInsert<'a> {
    /// Where the new tuple's tid goes in the posting list, counted from 0 (`postingoff`).
    pub index: u16,
    /// The new tuple: all bytes behind the index.
    pub tuple: &'a [u8],
}

/// What a DELETE or a VACUUM of a B-tree page with updates does to its tuples.
#[derive(Debug, Drop)]
pub struct PostingUpdates<'a> {
    /// Places of tuples that go.
    pub deleted: Places<'a>,
    /// Posting lists that become shorter.
    pub updates: Updates<'a>,
}

/// What an INSERT_POST has for its leaf page, of the bytes of its block 0, or `None` where they are
/// fewer than the two of the index and the eight of an index tuple's header.
pub fn posting_insert(bytes: &[u8]) -> Option<PostingInsert<'_>>
    ensures value { option_map posting_insert_seen result ≡ posting_insert_of bytes.now }
{
    if bytes.len() < INDEX_SIZE + HEADER_SIZE {
        return None;
    }
    Some(PostingInsert {
        index: u16_at(bytes, 0),
        tuple: &bytes[INDEX_SIZE..],
    })
}

/// What a DELETE or a VACUUM with updates does to the tuples of its page, of the bytes of its block
/// 0, with the numbers of deleted and of updated places that its main bytes tell, or `None` where
/// the bytes end before the last list. What stands behind it is ignored.
pub fn posting_updates(bytes: &[u8], deleted: u16, updated: u16) -> Option<PostingUpdates<'_>>
    ensures value { result ≡ posting_updates_of deleted updated bytes.now }
{
    let deleted = usize::from(deleted);
    let updates = Updates::behind(bytes, deleted, usize::from(updated))?;
    Some(PostingUpdates {
        deleted: Places::new(bytes, 0, deleted),
        updates,
    })
}
