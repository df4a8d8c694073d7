// Why a replay is refused but for its files.
ghost use Rattle.replay_laws.specs.Refusals.{LogRefusedAtItsBlock, NotRefused, RefusedAtItsBlock};

/// A replay is refused at a block only where the step, or the run, of the effects on that block is, or
/// where a record says too little: so it isn't where each block fits a base or is changed by no record.
pub fn refusal_laws()
    ensures step { RefusedAtItsBlock }
    ensures run { LogRefusedAtItsBlock }
    ensures fits { NotRefused }
{}
