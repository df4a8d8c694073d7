// Records over a cluster of the kinds that servers leave.
ghost use Rattle.cluster_laws.specs.KindLaws.{LogFindsKinds, RecordFindsKinds};

/// Where each entry of a cluster is of the kind that servers leave there, no record is refused by a
/// file, and each leaves such a cluster; so do the records of a log.
pub fn records_find_kinds()
    ensures record { RecordFindsKinds }
    ensures log { LogFindsKinds }
{}
