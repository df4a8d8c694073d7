// Where the files of relations lie.
use cluster_tree::Path;

/// The files of a cluster's relations: those of a fork hold its blocks one after another.
#[derive(Drop)]
pub struct Files {
    /// The cluster's root, of at most 61 parts.
    pub root: Path,
    /// How many blocks a file holds (`relseg`), from 1 to 131072.
    pub per_file: u32,
}
