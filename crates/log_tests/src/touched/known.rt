//! What records name, worked out from the layouts, and records that aren't known, of which nothing is added.

/// Records, each its manager, its `info` and its body; how many chunks, cuts and databases the set has
/// after them; blocks that it has and some that it lacks.
pub(crate) const KNOWN: &str = "\
add 10 0 FOUR_BLOCKS = 3 0 0: has 5 16384 0, has 5 16384 65535, has 5 16384 65536, has 5 16385 7, \
    lacks 5 16384 1, lacks 5 16384 65534, lacks 5 16384 131072, lacks 5 16385 0, lacks 6 16384 0
# A truncation adds no chunk.
add 10 0 FOUR_BLOCKS, 2 33 CUT_TO_10 = 3 1 0: has 5 16384 0, has 5 16384 10, has 5 16384 70000, \
    has 5 16384 4294967295, lacks 5 16384 9, lacks 5 16385 10
# The lower cut stays, whichever comes first. That of the map alone names nothing.
add 2 33 CUT_TO_12, 2 33 CUT_TO_10, 2 33 CUT_TO_12 = 0 1 0: has 5 16384 10, has 5 16384 11, lacks \
    5 16384 9
add 2 33 CUT_OF_MAP, 10 0 OTHER_FORKS, 1 0 PLAIN_COMMIT = 0 0 0: lacks 5 16384 10, lacks 5 16384 3
add 0 160 HINT = 1 0 0: has 5 16384 2, lacks 5 16384 1, lacks 5 16384 3
# A relation that is made is named whole, by whichever fork.
add 2 17 CREATE = 0 1 0: has 5 16390 0, has 5 16390 5, lacks 5 16384 0
add 1 129 COMMIT = 0 2 0: has 5 16384 0, has 5 16385 3, lacks 5 16386 0, lacks 6 16384 0
add 1 193 ABORT_PREPARED = 0 1 0: has 5 16386 0, lacks 5 16384 0
add 4 1 FILE_COPY, 4 17 WAL_LOG, 4 33 DROP, 4 33 DROP = 0 0 3: has 7 16384 0, has 8 16385 3, has 9 \
    1 70000, lacks 1 16384 0, lacks 5 16384 0";

/// Block 1 of 1663/5/16384 alone; with a TRUNCATE that ends early, with a CREATE of fork 4, with a
/// commit that lacks its second relation, and with a DROP of a database that ends early.
pub(crate) const UNKNOWN: &str = "\
add 10 1 000000007f060000050000000040000001000000 = UnknownSpecial(Lsn(1048616), 10, 1): lacks 5 \
    16384 1
add 2 32 000000007f060000050000000040000001000000ff130a0000007f0600000500000000400000070000 = \
    UnknownSpecial(Lsn(1048616), 2, 32): lacks 5 16384 1
add 2 17 000000007f060000050000000040000001000000ff107f060000050000000640000004000000 = \
    UnknownSpecial(Lsn(1048616), 2, 17): lacks 5 16384 1
add 1 129 000000007f060000050000000040000001000000ff1c000000000000000004000000020000007f06000005000\
    00000400000 = UnknownSpecial(Lsn(1048616), 1, 129): lacks 5 16384 1
add 4 33 ff080500000001000000 = UnknownSpecial(Lsn(1048616), 4, 33): lacks 5 16384 1";
