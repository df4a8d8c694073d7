// Two clusters that replay one log.
ghost use Rattle.replay_laws.specs.Converging.{BlocksConverge, UnchangedEnds};

/// Two clusters whose states of a block fit one base end alike on the block, where neither replay of
/// the log is refused: no change of it is skipped, and its pages match.
pub fn blocks_converge()
    ensures { BlocksConverge }
{}

/// A replay that isn't refused leaves of a block that no record changes what its images and new pages
/// make of the block's own state, and no skipped change.
pub fn unchanged_blocks_end()
    ensures { UnchangedEnds }
{}
