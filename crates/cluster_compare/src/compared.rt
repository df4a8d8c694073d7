// What a comparison answers.
use cluster_tree::Path;

/// Whether two clusters are the same.
#[derive(Debug, Drop)]
pub enum Compared {
    /// They are: equal paths, kinds and bytes, and equal blocks of main forks under the mask.
    Same,
    /// They differ at this path, the least from the roots on in the order of texts; and where a
    /// main fork's file has one size in both, first in the block of this number of the fork.
    Differs(Path, Option<u32>),
}
