// Alike clusters that are the same.
ghost use Rattle.cluster_laws.specs.Same.{AlikeAreSame};

/// Alike clusters are the same, as a comparison of clusters takes it, where the pages of each block
/// match, but for relations with an init fork, and no file of a main fork has more blocks than it may.
pub fn alike_are_same()
    ensures { AlikeAreSame }
{}
