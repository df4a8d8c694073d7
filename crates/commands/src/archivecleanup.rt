// What the words of pg_archivecleanup ask for.
use cluster_tree::Path;
use wal_base::Text;

/// What `pg_archivecleanup` is asked to do.
#[derive(Drop)]
pub struct ArchivecleanupWords {
    /// The folder of the archive (LOCATION), of at most 62 parts where `read_command` of tool_words
    /// made it.
    pub folder: Path,
    /// The name of the first file that is kept (KEPT): less the extension at its end, that of a
    /// segment's file, finished or not, or of a backup's history.
    pub kept: Text,
    /// The extension that names may have at their end (`-x`).
    pub extension: Option<Text>,
    /// Whether each removal is told on standard error before it (`-d`).
    pub debug: bool,
    /// Whether the files are only named, on standard output (`-n`).
    pub dry_run: bool,
}
