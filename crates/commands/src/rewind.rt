// What the words of pg_rewind ask for.
use cluster_tree::Path;

/// What `pg_rewind` is asked to do. Where `read_command` of tool_words made it, neither root holds the
/// other.
#[derive(Drop)]
pub struct RewindWords {
    /// The root of the cluster that is to be rewound, of at most 61 parts (`-D`).
    pub target: Path,
    /// The root of the cluster whose log it is to follow, of at most 61 parts (`--source-pgdata`).
    pub source: Path,
    /// Whether nothing is to be written (`-n`).
    pub dry_run: bool,
}
