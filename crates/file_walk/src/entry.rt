// What a walk finds.
use cluster_tree::Path;

/// What stands at a path.
#[derive(Clone, Copy, Debug, PartialEq, Eq)]
pub enum EntryKind {
    /// A file of so many bytes.
    File(u64),
    /// A folder.
    Folder,
}

/// A path below a root, from the root on, and what stands there.
#[derive(Debug, Drop)]
pub struct Entry {
    /// From the root on: `base/5` whatever the root is.
    pub path: Path,
    /// What stands there.
    pub kind: EntryKind,
}
