// Alike clusters that begin a replay.
ghost use Rattle.cluster_laws.specs.Starts.{StartAlike};

/// Where one of two alike clusters passes every check before a replay, so does the other, and its
/// control file, its label and its log say the same.
pub fn start_alike()
    ensures { StartAlike }
{}
