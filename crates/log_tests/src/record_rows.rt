// Logs of records, and what is read of them. The expected positions are worked by hand from the
// format: 40 bytes of header on a segment's first page and 24 on each other page.

/// A shutdown checkpoint as PostgreSQL 16 writes it, of redo 0/100028, timeline 1, next transaction
/// 700 and time 1700000000; its sum comes from an independent script.
pub const CHECKPOINT: [u8; 114] = [
    114, 0, 0, 0, 0, 0, 0, 0, 0, 0, 0, 0, 0, 0, 0, 0, 0, 0, 0, 0, 113, 188, 102, 174, 255, 88, 40,
    0, 16, 0, 0, 0, 0, 0, 1, 0, 0, 0, 1, 0, 0, 0, 1, 0, 0, 0, 0, 0, 0, 0, 188, 2, 0, 0, 0, 0, 0, 0,
    1, 64, 0, 0, 1, 0, 0, 0, 0, 0, 0, 0, 188, 2, 0, 0, 1, 0, 0, 0, 1, 0, 0, 0, 1, 0, 0, 0, 0, 0, 0,
    0, 0, 241, 83, 101, 0, 0, 0, 0, 0, 0, 0, 0, 0, 0, 0, 0, 0, 0, 0, 0, 0, 0, 0, 0,
];

/// Records at 0/100028 and at 0/100060, and a page whose first bytes go on with a record.
pub const TWO: &str = "\
file 0/100000 16384, page 0/100000 2 0, record 0/100028 50 0/0, record 0/100060 40 0/100028, page \
    0/102000 1 106";

/// A record at 0/101FF8 of which 106 bytes are to come on the next page.
pub const OVER: &str = "\
file 0/100000 16384, page 0/100000 2 0, page 0/102000 1 106, record 0/101FF8 114 0/100028";

/// A record at 0/101F00 of which 44 bytes are to come on the next page.
pub const BODY_OVER: &str = "\
file 0/100000 16384, page 0/100000 2 0, page 0/102000 1 44, record 0/101F00 300 0/100028";

/// The record at 0/101FF8 was dropped, and the one on the next page links to that before it.
pub const DROPPED: &str = "\
file 0/100000 16384, page 0/100000 2 0, record 0/101F00 248 0/100028, record 0/101FF8 40 \
    0/101F00, page 0/102000 8 0, record 0/102018 42 0/101F00";

/// Records at 0/101F00, at 0/101F40, which ends where its page does, and behind the next page's
/// header.
pub const TO_THE_END: &str = "\
file 0/100000 16384, page 0/100000 2 0, page 0/102000 0 0, record 0/101F00 64 0/100028, record \
    0/101F40 192 0/101F00, record 0/102018 24 0/101F40";

// Rows: bytes put into a log at a position, and where reading starts; where the last record begins and
// ends, if there is one, the place at which the log ends, and why.

/// What is wrong with a start, with its page, and with a first record.
pub const OF_FIRST: &str = "\
0/100000 - 0/10002C = none, 0/10002C Place
0/100000 - 0/100020 = none, 0/100020 Place
0/100000 - 0/102008 = none, 0/102008 Place
0/100000 - 0/102000 = none, 0/102018 Continuation
0/100000 - 0/104000 = none, 0/104018 ShortSegment
0/100000 - 0/200000 = none, 0/200028 NoSegment
0/100000 - FFFFFFFF/FFFFFFF8 = none, FFFFFFFF/FFFFFFF8 NoSegment
0/100000 12 0/100000 = none, 0/100028 Page
0/100030 280010 0/100000 = none, 0/100028 Prev
0/100030 300010 0/100000 = none, 0/100028 Prev
0/100000 - 0/100060 = 0/100060 0/100088, 0/100088 ZeroLength";

/// What is wrong with a second record; last, two things: its manager and its link, its manager and
/// its sum.
pub const OF_SECOND: &str = "\
0/100060 00000000 0/100000 = 0/100028 0/100060, 0/100060 ZeroLength
0/100060 17000000 0/100000 = 0/100028 0/100060, 0/100060 ShortLength
0/100060 0100C03F 0/100000 = 0/100028 0/100060, 0/100060 TooLong
0/100071 16 0/100000 = 0/100028 0/100060, 0/100060 Manager
0/100071 7F 0/100000 = 0/100028 0/100060, 0/100060 Manager
0/100068 600010 0/100000 = 0/100028 0/100060, 0/100060 Prev
0/100087 5B 0/100000 = 0/100028 0/100060, 0/100060 Crc
0/100064 01 0/100000 = 0/100028 0/100060, 0/100060 Crc
0/100068 16*10 0/100000 = 0/100028 0/100060, 0/100060 Manager
0/100071 16*7 0/100000 = 0/100028 0/100060, 0/100060 Manager";

/// What a page says of the record that goes on there. Where both bits stand, that of a dropped record
/// counts; then the page's first bytes still go on with one, so that none starts there. Last, the
/// manager, which stands on that page, and both at once.
pub const OF_PAGE: &str = "\
0/102002 01 0/101FF8 = 0/101FF8 0/102088, 0/102088 ZeroLength
0/102002 05 0/101FF8 = 0/101FF8 0/102088, 0/102088 ZeroLength
0/102002 00 0/101FF8 = none, 0/101FF8 Continuation
0/102002 03 0/101FF8 = none, 0/101FF8 Page
0/102002 09 0/101FF8 = none, 0/102018 Continuation
0/102010 69 0/101FF8 = none, 0/101FF8 Continuation
0/102010 6B 0/101FF8 = none, 0/101FF8 Continuation
0/102021 16 0/101FF8 = none, 0/101FF8 Manager
0/102002 16*32 0/101FF8 = none, 0/101FF8 Page";

/// A record that would end at 2^64, and its sum, which is wrong too.
pub const TO_2_64: &str = "\
file FFFFFFFF/FFFFE000 1048576, page FFFFFFFF/FFFFE000 0 0, record FFFFFFFF/FFFFFFE0 32 0/100028";

pub const OF_2_64: &str = "\
FFFFFFFF/FFFFFFF8 01 FFFFFFFF/FFFFFFE0 = none, FFFFFFFF/FFFFFFE0 NoSegment";

/// The link and the page that the body goes on at are wrong.
pub const OF_BODY: &str = "\
0/101F08 10*264 0/101F00 = none, 0/101F00 Prev";

/// A record that was dropped is passed over.
pub const OF_DROPPED: &str = "\
0/100000 - 0/101F00 = 0/102018 0/102048, 0/102048 ZeroLength";

/// What lies on one page up to its end. The second record as it is, one byte longer than the page,
/// with another link, another manager and another sum.
pub const OF_PAGE_END: &str = "\
0/100000 - 0/101F00 = 0/102018 0/102030, 0/102030 ZeroLength
0/101F40 C1 0/101F00 = 0/101F00 0/101F40, 0/101F40 Continuation
0/101F48 28 0/101F00 = 0/101F00 0/101F40, 0/101F40 Prev
0/101F51 16 0/101F00 = 0/101F00 0/101F40, 0/101F40 Manager
0/101FFF 5B 0/101F00 = 0/101F00 0/101F40, 0/101F40 Crc";
