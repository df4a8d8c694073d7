// Replays of two clusters whose blocks are the same, or made anew.
ghost use Rattle.restarted_laws.specs.Laws.{ReplaysEndTheSame};

/// So where the replay of the one cluster ends, that of the other ends too, tells the same, and leaves
/// alike files with the same page of each block.
pub fn replays_end_the_same()
    ensures { ReplaysEndTheSame }
{}
