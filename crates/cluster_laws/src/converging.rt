// Two clusters that replay one log.
ghost use Rattle.cluster_laws.specs.Converging.{RecordsConverge};

/// Two alike clusters whose blocks fit one base, but for those of relations with an init fork, which
/// no record changes, converge under a log whose records say enough: both replays end, and leave alike
/// clusters whose blocks match but where an init fork is, or both are refused by the same file.
pub fn records_converge()
    ensures { RecordsConverge }
{}
