// What follows from the definitions, for callers: the function's contract is a law.
ghost use Rattle.cluster_compare.specs.Laws.{ComparedExactly};

/// A comparison of two walks shows no difference exactly where the clusters are the same.
pub fn compared_exactly()
    ensures { ComparedExactly }
{}
