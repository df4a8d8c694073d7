// One record.
ghost use Rattle.replay_laws.specs.Laws.{Projects, StaysWhole};

/// What a record that replay takes leaves of a cluster: of each block of a main fork what its effect
/// on the block makes of it, and files that are whole as before.
pub fn record_laws()
    ensures projects { Projects }
    ensures whole { StaysWhole }
{}
