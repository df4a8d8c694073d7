// Two clusters that are replayed.
ghost use Rattle.cluster_laws.specs.Replays.{BothReplay, Convergence};

/// Of two alike clusters whose blocks fit one base under the log, but for relations that aren't logged,
/// where the replay of the one ends, so does that of the other, and they leave the same cluster.
pub fn convergence()
    ensures { Convergence }
{}

/// And where each entry of the one is of the kind that servers leave at its place, the replays of both
/// end so.
pub fn both_replay()
    ensures { BothReplay }
{}
