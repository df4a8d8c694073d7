// What a clean-up puts, over every tree: the function's contract is a law over `carries`.
ghost use Rattle.cmd_archivecleanup.specs.Laws.{LinesInOrder, NothingElse};

/// What stands on the sinks after a clean-up, whatever tree it is.
pub fn cleanup_laws()
    ensures lines_in_order { LinesInOrder }
    ensures nothing_else { NothingElse }
{}
