// The records of a log.
ghost use Rattle.replay_laws.specs.Laws.{Runs, RunsWhole};

/// What the records of a log that replay takes leave of a cluster: of each block of a main fork what
/// the run of their effects on the block makes of it, and files that are whole as before.
pub fn log_laws()
    ensures runs { Runs }
    ensures whole { RunsWhole }
{}
