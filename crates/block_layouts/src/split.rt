//! The index tuples of a split.

ghost use Rattle.std.specs.Prelude.{◌≡◌, ◌≤◌, ◌+◌, length, option_map};
ghost use Rattle.block_layouts.specs.Split.{split_seen, split_tuples_of};

use crate::index_tuples::item_end;

/// What the record of a B-tree split holds for the left page.
#[derive(Clone, Copy, Debug)]
pub struct SplitTuples<'a> {
    /// The new tuple, where the bytes begin with it.
    pub new_tuple: Option<&'a [u8]>,
    /// The left page's high key.
    pub high_key: &'a [u8],
}

/// The index tuples that a B-tree split has for its left page, of the bytes of its block 0, or
/// `None` where they aren't there: the new tuple, where the bytes begin with it (`SPLIT_L`, and either
/// split where its tid goes into a posting list), and the high key, each of its size rounded up to 8 bytes. What stands behind them is ignored.
#[tactic(auto, unfolding(crate::specs::Split::split_tuples_of))]
pub fn split_tuples(bytes: &[u8], with_new: bool) -> Option<SplitTuples<'_>>
    ensures value { option_map split_seen result ≡ split_tuples_of with_new bytes.now }
{
    let first = item_end(bytes, 0)?;
    if !with_new {
        return Some(SplitTuples {
            new_tuple: None,
            high_key: &bytes[..first],
        });
    }
    let second = item_end(bytes, first)?;
    Some(SplitTuples {
        new_tuple: Some(&bytes[..first]),
        high_key: &bytes[first..second],
    })
}
