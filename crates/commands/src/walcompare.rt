// What the words of pg_walcompare ask for.
use cluster_tree::Path;

/// What `pg_walcompare` is asked to do. Where `read_command` of tool_words made it, neither root holds
/// the other.
#[derive(Drop)]
pub struct WalcompareWords {
    /// The root of the first cluster, of at most 61 parts (A).
    pub first: Path,
    /// The root of the cluster that it is compared with, of at most 61 parts (B).
    pub second: Path,
}
