// What follows of the definitions, for callers: each function's contract is a law.
ghost use Rattle.reset_cleanup.specs.Stopping.{MarkedIsRefused};

/// What a stop amid a reset leaves is refused: a run that finds its mark changes nothing.
pub fn reset_laws()
    ensures { MarkedIsRefused }
{}
