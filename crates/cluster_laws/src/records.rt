// Records over two alike clusters.
ghost use Rattle.cluster_laws.specs.Alike.{LogAlike, RecordAlike};

/// A record, and so a log, leaves two alike clusters alike, or both are refused by the same file:
/// unless one of them is refused at a block.
pub fn records_alike()
    ensures record { RecordAlike }
    ensures log { LogAlike }
{}
