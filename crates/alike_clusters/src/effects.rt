// What a record does to files beside its blocks.
ghost use Rattle.alike_clusters.specs.Laws.{EffectsAlike};

/// What a record does to files beside the blocks that it references, it does to two alike clusters
/// alike: both are refused by the same file, or neither is and both stay alike.
pub fn effects_alike()
    ensures { EffectsAlike }
{}
