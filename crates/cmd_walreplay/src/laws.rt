// What follows of the mark: each function's contract is a law.
ghost use Rattle.cmd_walreplay.specs.Walreplay.{MarkIsRefused};

/// A cluster that a stop left marked is refused.
pub fn mark_laws()
    ensures refused { MarkIsRefused }
{}
