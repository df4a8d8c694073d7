// Files that are left, byte for byte, by records and by replays.
ghost use Rattle.restarted_laws.specs.FileLaws.{RecordsEndWithSameFiles, ReplaysEndWithSameFiles};

/// Over alike clusters whose blocks have the same pages, but for those that the log makes anew, whose
/// files of main forks have whole blocks alone, and whose files that tell a version are the same, the
/// records of a log leave the same files, byte for byte, or end in neither.
pub fn records_end_with_same_files()
    ensures { RecordsEndWithSameFiles }
{}

/// So where the replay of the one cluster ends, that of the other ends too, tells the same, and leaves
/// the same files, byte for byte.
pub fn replays_end_with_same_files()
    ensures { ReplaysEndWithSameFiles }
{}
