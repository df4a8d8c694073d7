// Pages of a log, and what is wrong with them. The expected values are those of the headers, worked
// by hand from the format.

/// Segment 1 has the page of its long header, and a page that goes on with a record, of which 256
/// bytes are to come.
pub const TWO_PAGES: &str = "\
file 0/100000 16384, page 0/100000 2 0, page 0/102000 1 256";

/// What a tree has, which system is wanted, which reads fail, and what is done. Two segments begin alike; or
/// segment 1 ends inside its second page, segment 2 is a folder, segment 3 a link, and segment 4 isn't there.
pub const CASES: &str = "\
# a page is read from any position on it
file 0/100000 16384, page 0/100000 2 0, page 0/102000 1 256 | own | never | read 0/100000: page 2 \
    1 0/100000 0; read 0/101FFF: page 2 1 0/100000 0; read 0/102000: page 1 1 0/102000 256; read \
    0/103FFF: page 1 1 0/102000 256
# a page that is held isn't read again: the second read fails, and after it no page is held
file 0/100000 16384, page 0/100000 2 0, page 0/102000 1 256 | own | at 2 | turn 0/102000: page 1 \
    1 0/102000 256; turn 0/103FFF: page 1 1 0/102000 256; turn 0/101FFF: failed; turn 0/102000: \
    page 1 1 0/102000 256
# a page that was forgotten is read again: it changes after it was read
file 0/100000 16384, page 0/100000 2 0, page 0/102000 1 256 | own | never | turn 0/102000: page 1 \
    1 0/102000 256; put 0/102010 07; turn 0/102000: page 1 1 0/102000 256; forget; turn 0/102000: \
    page 1 1 0/102000 263
# pages of two segments in turn
file 0/100000 16384, page 0/100000 2 0, page 0/102000 1 256, file 0/200000 16384, page 0/200000 2 \
    0 | own | never | turn 0/100000: page 2 1 0/100000 0; turn 0/200000: page 2 1 0/200000 0; \
    turn 0/100000: page 2 1 0/100000 0; turn 0/102000: page 1 1 0/102000 256
# any system serves where none is given
file 0/100000 16384, page 0/100000 2 0, page 0/102000 1 256 | any | never | put 0/100018 00*8; \
    read 0/100000: page 2 1 0/100000 0
# no file holds the page
file 0/100000 16383, page 0/100000 2 0, folder log/000000010000000000000002, link \
    log/000000010000000000000003 | own | never | read 0/102000: short 1 1; read 0/1FFFFF: short 1 \
    1; read 0/200000: missing 1 2; read 0/3FFFFF: missing 1 3; read 0/400000: missing 1 4; read \
    FFFFFFFF/FFFFFFFF: missing 1 17592186044415
# a read that fails is told, and may be tried again
file 0/100000 16384, page 0/100000 2 0, page 0/102000 1 256 | own | at 1 | read 0/102000: failed; \
    read 0/102000: page 1 1 0/102000 256
file 0/100000 16384, page 0/100000 2 0, page 0/102000 1 256 | own | at 2 | read 0/102000: page 1 \
    1 0/102000 256; read 0/102000: failed
file 0/100000 16384, page 0/100000 2 0, page 0/102000 1 256 | own | from 1 | read 0/102000: \
    failed; read 0/102000: failed";

/// Bytes put over those of segment 1 from a position on, and the page and the field that are then bad.
/// Where more than one rule is broken the first one is told. The first has the magic number of version 15.
pub const BAD: &str = "\
0/100000 10 = 0/100000 Magic
0/100000 00*40 = 0/100000 Magic
0/102000 00*24 = 0/102000 Magic
0/100002 12 = 0/100000 Info
0/100003 01 = 0/100000 Info
0/100002 01 = 0/100000 Info
0/102002 02 = 0/102000 Info
0/100002 00*38 = 0/100000 Info
0/100004 00 = 0/100000 Timeline
0/100004 02 = 0/100000 Timeline
0/100004 00*36 = 0/100000 Timeline
0/100008 01 = 0/100000 Address
0/102009 40 = 0/102000 Address
0/100008 00*32 = 0/100000 Address
0/100018 00 = 0/100000 System
0/100018 00*16 = 0/100000 System
0/100022 20 = 0/100000 SegmentSize
0/100022 00*6 = 0/100000 SegmentSize
0/100025 40 = 0/100000 BlockSize";
