// The logs of a pair.
ghost use Rattle.pair_laws.specs.Read.{PairLogsAreRead};

/// Where the one segment of a cluster's log stands, its records are read as they were written.
pub fn pair_logs_are_read()
    ensures { PairLogsAreRead }
{}
