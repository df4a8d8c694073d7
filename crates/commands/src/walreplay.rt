// What the words of pg_walreplay ask for.
use cluster_tree::Path;

/// What `pg_walreplay` is asked to do.
#[derive(Drop)]
pub struct WalreplayWords {
    /// The root of the cluster whose log is replayed into its files, of at most 61 parts where
    /// `read_command` of tool_words made it (DIR).
    pub root: Path,
}
