// Records over two clusters whose blocks are the same, or made anew.
ghost use Rattle.restarted_laws.specs.Laws.{RecordsEndTheSame};

/// Over alike clusters whose blocks have the same pages, but for those that the log makes anew, the
/// records of a log end with the same pages, or end in neither.
pub fn records_end_the_same()
    ensures { RecordsEndTheSame }
{}
