// What follows from the definitions, for callers: each function's contract is a law.
ghost use Rattle.rewound_tree.specs.Laws.{BlocksAreOfOneSide, MixedIsAsLong};

/// Each whole block of a file that both clusters have is the source's where it is wanted or lies past
/// the target's file, and else the target's.
pub fn blocks_are_of_one_side()
    ensures { BlocksAreOfOneSide }
{}

/// Such a file is as long as the source's.
pub fn mixed_files_are_as_long()
    ensures { MixedIsAsLong }
{}
