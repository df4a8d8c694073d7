// What the words of pair ask for.
use cluster_tree::Path;

/// What `pair` is asked to do.
#[derive(Drop)]
pub struct PairWords {
    /// The number that the pair is made from (SEED).
    pub seed: u64,
    /// How many blocks its relation has, from 1 to 4096 where `read_command` of tool_words made it
    /// (BLOCKS).
    pub blocks: u32,
    /// The folder in which the pair is made, of at most 60 parts (DIR).
    pub root: Path,
}
