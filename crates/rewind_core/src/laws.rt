// What follows of the marks of unfinished runs: the functions' contracts are laws.
ghost use Rattle.rewind_core.specs.Laws.{EachStopIsTold, MarkIsUnfinished, MarkedSourceIsRefused, MarkedTargetIsRefused, UnfinishedRewindIsRefused};

/// Where a mark stands at a cluster's root, no rewind is made: its target is refused before all else,
/// and its source before all but a target's mark.
pub fn marks_are_refused()
    ensures unfinished { MarkIsUnfinished }
    ensures target { MarkedTargetIsRefused }
    ensures rewind { UnfinishedRewindIsRefused }
    ensures source { MarkedSourceIsRefused }
{}

/// What a stop leaves of a rewind that began on synced contents is one of three: seen without its own mark
/// what stood before, so that a resume begins it anew; a mark that reads as complete, by whose plan a
/// resume completes it; or the rewound tree.
pub fn stops_are_told()
    ensures { EachStopIsTold }
{}
