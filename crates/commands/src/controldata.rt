// What the words of pg_controldata ask for.
use cluster_tree::Path;

/// What `pg_controldata` is asked to do.
#[derive(Drop)]
pub struct ControldataWords {
    /// The root of the cluster whose control file is shown, of at most 61 parts (`-D`, or the word).
    pub root: Path,
}
