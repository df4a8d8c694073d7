// Blocks that a stopped replay leaves as they were.
ghost use Rattle.restarted_laws.specs.Standing.{NoEffectStands};

/// A block of a main fork on which no record of the log has an effect keeps its page, and a stop at any
/// moment of the replay leaves that page there.
pub fn unchanged_blocks_stand()
    ensures { NoEffectStands }
{}
