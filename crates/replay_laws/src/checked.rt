// The log of a cluster that was checked.
ghost use Rattle.replay_laws.specs.Laws.{StartIsTaken};

/// The log of a cluster that passes every check before a replay is one of records that replay takes,
/// as `log_laws` asks it.
pub fn checked_laws()
    ensures { StartIsTaken }
{}
