//! What keeps a log from being reset, with nothing changed then; and what doesn't. Each row has the options, the control
//! file's fields that differ, what stands beside it, and the answer.

pub(crate) const REFUSED: &str = "\
# the marks, a folder or a link too
keep - | none | h t/pg_rewind.unfinished 78, d t/pg_wal = an unfinished run left \
    t/pg_rewind.unfinished
keep f | plain | d t/pg_resetwal.unfinished, d t/pg_wal = an unfinished run left \
    t/pg_resetwal.unfinished
keep n | plain | l t/pg_walreplay.unfinished, d t/pg_wal = an unfinished run left \
    t/pg_walreplay.unfinished
# the control file
keep - | none | h t/pg_wal 78 = t has no control file
keep f | 8 4 1500 | h t/pg_wal 78 = the control file of t has version 1500
keep - | 228 4 3 | h t/pg_wal 78 = the control file of t has 3 as WalSegSize
# the folder of the log
keep n | plain | - = t/pg_wal is not a folder
keep l 2 0 4096 | 16 4 6 | h t/pg_wal 78 = t/pg_wal is not a folder
keep - | 16 4 6 | l t/pg_wal = t/pg_wal is a link or a special file
keep l 2 0 4096 | plain | d t/pg_wal, b t/pg_wal = t/pg_wal holds a name that is not UTF-8
# the new segment
keep l 2 0 4096 | 16 4 6 | d t/pg_wal = no new segment can be in t/pg_wal
keep l 2 2147483648 0 | 16 4 6 | d t/pg_wal = no new segment can be in t/pg_wal
# the cluster's state
keep - | 16 4 6 | d t/pg_wal, h t/pg_wal/archive_status 78 = t was not shut down cleanly: its \
    state is 6
keep - | 16 4 2 | d t/pg_wal, d t/pg_wal/000000010000000000000002 = t was not shut down cleanly: \
    its state is 2
# what is to be removed
keep - | plain | d t/pg_wal, h t/pg_wal/archive_status 78, d t/pg_wal/000000010000000000000002 = \
    t/pg_wal/archive_status is not a folder
keep f | plain | d t/pg_wal, l t/pg_wal/archive_status = t/pg_wal/archive_status is a link or a \
    special file
keep - | plain | d t/pg_wal, d t/pg_wal/archive_status, b t/pg_wal/archive_status = \
    t/pg_wal/archive_status holds a name that is not UTF-8
keep - | plain | d t/pg_wal, d t/pg_wal/archive_status, h t/pg_wal/000000010000000000000002 78, d \
    t/pg_wal/000000010000000000000003.partial, l t/pg_wal/000000010000000000000004 = \
    t/pg_wal/000000010000000000000003.partial is a folder
keep - | plain | d t/pg_wal, d t/pg_wal/archive_status, h t/pg_wal/000000010000000000000002 78, l \
    t/pg_wal/000000010000000000000001 = t/pg_wal/000000010000000000000001 is a link or a special \
    file
keep - | plain | d t/pg_wal, d t/pg_wal/archive_status, h t/pg_wal/000000010000000000000002 78, d \
    t/pg_wal/archive_status/000000010000000000000001.partial.ready = \
    t/pg_wal/archive_status/000000010000000000000001.partial.ready is a folder";

/// What is no hindrance.
pub(crate) const DONE: &str = "\
change f | 16 4 6 | d t/pg_wal, d t/pg_wal/archive_status, h t/pg_wal/000000010000000000000002 78 \
    = 0/300028
change - | plain | d t/pg_wal, h t/pg_wal/000000010000000000000002 78 = 0/300028
# the redo of the checkpoint counts beside the names
change - | 40 8 9437224 | d t/pg_wal, h t/pg_wal/000000010000000000000002 78 = 0/A00028
# other names are neither counted nor looked at
change - | plain | d t/pg_wal, h t/pg_wal/000000010000000000000002 78, d \
    t/pg_wal/00000001000000000000000f, l t/pg_wal/000000010000000000000009.gz, d \
    t/pg_wal/00000001.history = 0/300028
# the old size numbers the names, and the new one the new segment
change s 1 | 228 4 67108864, 40 8 67108904 | d t/pg_wal, h t/pg_wal/000000010000000000000002 78, h \
    t/pg_wal/x 78 = 0/C000028";

/// A dry run asks neither for the state nor for what is to be removed, and changes nothing.
pub(crate) const DRY_RUNS: &str = "\
keep n | 16 4 6 | d t/pg_wal, h t/pg_wal/archive_status 78 = 0/200028
keep n | plain | d t/pg_wal, d t/pg_wal/archive_status, h t/pg_wal/000000010000000000000002 78, d \
    t/pg_wal/000000010000000000000003 = 0/400028";
