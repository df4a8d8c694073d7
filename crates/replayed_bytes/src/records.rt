// What records do to the ends of files of main forks, and to files that tell a version.
ghost use Rattle.replayed_bytes.specs.Laws.{LogKeepsBlocks, RecordKeepsBlocks, RecordKeepsVersions};

/// Where each file of a main fork has whole blocks alone, a record that isn't refused leaves it so, and
/// so do the records of a log.
pub fn records_keep_blocks()
    ensures record { RecordKeepsBlocks }
    ensures log { LogKeepsBlocks }
{}

/// A record that leaves two alike clusters alike leaves files that tell a version the same in both,
/// where they were the same before.
pub fn records_keep_versions()
    ensures { RecordKeepsVersions }
{}
