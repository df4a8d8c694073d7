// Blocks that no record has an effect on.
ghost use Rattle.replay_laws.specs.Touched.{LogTouchesByEffect, StartTouchesByEffect, TouchesByEffect};

/// A record that replay takes touches a block of a main fork only where it has an effect on it, and so
/// do a log of such records, and the log of a cluster that passes every check.
pub fn touched_laws()
    ensures by_record { TouchesByEffect }
    ensures by_log { LogTouchesByEffect }
    ensures by_start { StartTouchesByEffect }
{}
