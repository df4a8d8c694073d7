// What follows from the definitions, for callers: each function's contract is a law.
ghost use Rattle.file_walk.specs.Laws.{BelowIsExcluded, PathsAreOfEither, RelationsAreFiles, WalksAreInOrder, WalksTellAll};

/// A path is that of a main fork's file exactly where that file lies.
pub fn relation_files_lie_there()
    ensures { RelationsAreFiles }
{}

/// What lies below an excluded path is excluded too.
pub fn excluded_below()
    ensures { BelowIsExcluded }
{}

/// A walk tells each path once, in ascending order of the texts.
pub fn walks_are_in_order()
    ensures { WalksAreInOrder }
{}

/// What a walk tells below a root is what stands there.
pub fn walks_tell_all()
    ensures { WalksTellAll }
{}

/// The paths of two walks are those that either tells.
pub fn paths_are_of_either()
    ensures { PathsAreOfEither }
{}
