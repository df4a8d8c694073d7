// Two clusters, for a plan.
use cluster_tree::Path;
use touched_blocks::Touched;

/// The roots of two clusters, and which blocks of the target's are copied.
#[derive(Clone, Copy)]
pub struct Clusters<'a> {
    /// The root of the target.
    pub target: &'a Path,
    /// The root of the source.
    pub source: &'a Path,
    /// How many blocks a file of a relation has at most.
    pub per_file: u32,
    /// The blocks that are copied of a file that both have.
    pub touched: &'a Touched,
}
