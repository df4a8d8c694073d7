// What follows of the mark: each function's contract is a law.
ghost use Rattle.replay_core.specs.Stops.{MarkIsRefused};

/// A cluster that a stop left marked is refused.
pub fn mark_laws()
    ensures refused { MarkIsRefused }
{}
