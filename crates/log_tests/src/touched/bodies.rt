//! The bodies of records, by their names.
use crate::texts::{cut_at, decoded};
use std::process::Abort;

const BODIES: &str = "\
# Blocks 0, 65535 and 65536 of 1663/5/16384, and block 7 of 1663/5/16385.
FOUR_BLOCKS \
    000000007f06000005000000004000000000000001800000ffff00000280000000000100030000007f060000050000\
    000140000007000000
# Block 2 of 1663/5/16384, an empty heap page with a hole of 8168 bytes at 24, as FPI_FOR_HINT \
    has it.
HINT \
    0010000018001800037f06000005000000004000000200000000000000000000000000000018000020002004200000\
    0000
# Block 3 of the free space map, of the visibility map and of the init fork.
OTHER_FORKS 000100007f06000005000000004000000300000001820000030000000283000003000000
# TRUNCATE of 1663/5/16384 to 10 blocks, of all its forks, and of its visibility map alone.
CUT_TO_10 ff140a0000007f060000050000000040000007000000
CUT_TO_12 ff140c0000007f060000050000000040000001000000
CUT_OF_MAP ff140a0000007f060000050000000040000002000000
# CREATE of the init fork of 1663/5/16390.
CREATE ff107f060000050000000640000003000000
# A commit that drops 1663/5/16384 and 1663/5/16385, one of nothing, and the abort of a prepared \
    transaction 700 that drops 1663/5/16386.
COMMIT ff28000000000000000004000000020000007f06000005000000004000007f0600000500000001400000
PLAIN_COMMIT ff080000000000000000
ABORT_PREPARED ff20000000000000000014000000010000007f0600000500000002400000bc020000
# CREATE_FILE_COPY of database 7 from database 1, CREATE_WAL_LOG of 8, and DROP of 9 in one \
    tablespace.
FILE_COPY ff10070000007f060000010000007f060000
WAL_LOG ff08080000007f060000
DROP ff0c09000000010000007f060000
# Block 1 of 1663/5/16384: a body of 20 bytes.
ONE 000000007f060000050000000040000001000000
# The id 33, which no rule fits.
BAD 21000000
# An image of block 2 that is compressed.
COMPRESSED 00100000180018000700007f060000050000000040000002000000
# The main bytes of a checkpoint but for the last of 88.
SHORT \
    ff57000000000000000000000000000000000000000000000000000000000000000000000000000000000000000000\
    000000000000000000000000000000000000000000000000000000000000000000000000000000000000
# The header of a record of 9000 bytes that links to the first one, and that of the next page, \
    which says that it was dropped.
DROPPED 28230000000000002800100000000000000a000000000000
NEXT_PAGE 13d108000100000000201000000000000000000000000000";

/// The digits behind a name, or the word itself where no line has that name.
fn digits_of<'a>(lines: &'a str, word: &'a str) -> &'a str {
    for line in lines.split('\n') {
        let (name, digits) = cut_at(line, " ");
        if name == word {
            return digits;
        }
    }
    word
}

/// The bytes of a body, by its name or its digits.
pub(crate) fn body_of<R: AllocGlobal + Abort>(rt: &R, word: &str) -> Vec<u8> {
    decoded(rt, digits_of(BODIES, word))
}
