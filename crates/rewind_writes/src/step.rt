// The steps of a rewind.
use cluster_tree::Path;

/// One step of what a rewind changes. Sizes and offsets are in bytes.
#[derive(Debug, Drop)]
pub enum Step {
    /// A folder is made.
    Folder(Path),
    /// A file is copied whole, so many bytes; one that is there is emptied first.
    Whole {
        /// The file that is read.
        from: Path,
        /// The file that is written.
        to: Path,
        /// The size of the file that is read.
        size: u64,
    },
    /// A file is cut to so many bytes.
    Cut(Path, u64),
    /// So many bytes from an offset on are copied to the same place of another file.
    Range {
        /// The file that is read.
        from: Path,
        /// The file that is written.
        to: Path,
        /// Where the bytes begin in both.
        at: u64,
        /// How many they are.
        size: u64,
    },
    /// A file or an empty folder is removed.
    Remove(Path),
}
