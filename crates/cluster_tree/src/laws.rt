// What follows from the definitions, for callers: each function's contract is a law.
ghost use Rattle.cluster_tree.specs.Laws.{PutStands, PutElsewhere, RemovedIsGone, RemovedElsewhere, StepElsewhere, HoldsBelow, HeldIsBelow, RootsApart, StepOutside, ChildHasName, ListingIsOne, NamesAreListing, CutWritesAreOne};
ghost use Rattle.cluster_tree.specs.ChangeLaws.{Pointwise, Elsewhere, ChangedInTurn, JoinedByParts, FirstArePart};

/// What stands at a path, and at every other, after an entry was put or removed there.
pub fn entry_laws()
    ensures put { PutStands }
    ensures put_elsewhere { PutElsewhere }
    ensures removed { RemovedIsGone }
    ensures removed_elsewhere { RemovedElsewhere }
{}

/// Whatever a changing call answered, all but its path is as it was.
pub fn step_law()
    ensures { StepElsewhere }
{}

/// What a root holds is what lies below it, and changing calls elsewhere leave that.
pub fn root_laws()
    ensures below { HoldsBelow }
    ensures held { HeldIsBelow }
    ensures apart { RootsApart }
    ensures outside { StepOutside }
{}

/// What lies in a folder is what its one listing names.
pub fn folder_laws()
    ensures child { ChildHasName }
    ensures listing { ListingIsOne }
    ensures names { NamesAreListing }
{}

/// What changes leave, path by path.
pub fn change_laws()
    ensures pointwise { Pointwise }
    ensures elsewhere { Elsewhere }
    ensures in_turn { ChangedInTurn }
{}

/// How a range is cut into writes makes no difference, once adjacent writes are joined; calls are
/// joined part by part, and the first of them are a part.
pub fn joined_writes_law()
    ensures one { CutWritesAreOne }
    ensures by_parts { JoinedByParts }
    ensures part { FirstArePart }
{}
