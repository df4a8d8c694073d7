// What a run answers that finds a mark: the function's contract is the law.
ghost use Rattle.cmd_rewind.specs.Laws.{MarkedIsRefused, UnfinishedIsRefused};

/// Where a mark stands in the target, a rewind is refused for it, and nothing is done.
pub fn marks_are_refused()
    ensures any { MarkedIsRefused }
    ensures rewind { UnfinishedIsRefused }
{}
