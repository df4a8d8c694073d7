// What the definitions come to, in plain cases: each function's contract is a law.
ghost use Rattle.log_folder.specs.Laws.{LeastIsLeast, NoneIsNone, SegmentIsFound, WalIsTaken};

/// The segment that tells the size is the least one in the folder, and there is none only where no
/// file has the name of a segment.
pub fn the_least_segment_is_told()
    ensures some { LeastIsLeast }
    ensures none { NoneIsNone }
{}

/// STARTSEG alone has its own bytes dumped, on its own timeline.
pub fn a_segment_is_found()
    ensures { SegmentIsFound }
{}

/// The log of a cluster is taken from its pg_wal, and dumped from the start that is given on.
pub fn pg_wal_is_taken()
    ensures { WalIsTaken }
{}
