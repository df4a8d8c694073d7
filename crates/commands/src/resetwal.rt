// What the words of pg_resetwal ask for.
use cluster_tree::Path;
use reset_numbers::ResetOptions;

/// What `pg_resetwal` is asked to do.
#[derive(Drop)]
pub struct ResetwalWords {
    /// The root of the cluster whose log is reset, of at most 61 parts where `read_command` of
    /// tool_words made it (`-D`, or the word).
    pub root: Path,
    /// The options, which are fit (`is_fit` of reset_numbers) where `read_command` made them.
    pub options: ResetOptions,
}
