//! Logs with the answers that are worked out by hand from the layouts and from where their records
//! stand. A record of n bytes of body takes n + 24 bytes, up to the next multiple of 8.

/// A page logged for a hint between the redo of an online checkpoint and its record, and then a
/// shutdown checkpoint, which ends at 0/1001E0.
pub(crate) const HINTED: &str = "\
checkpoint 0/100028 0/0 0 0/100028, record 0/1000A0 0/100028 0 160 HINT, checkpoint 0/1000F0 \
    0/1000A0 16 0/1000A0, checkpoint 0/100168 0/1000F0 0 0/100168";

/// The position of the checkpoint's record and `minRecoveryPoint`, a log, and the end.
pub(crate) const ENDS: &str = "\
end 0/100168 0/0: HINTED = 0/1001E0
end 0/100168 0/100200: HINTED = 0/100200
end 0/1000F0 0/100100: HINTED = 0/100168
end 0/1001E0 0/0: HINTED = LogEnds(Lsn(1049056), ZeroLength)";

/// The fork, a log, and where the last common checkpoint starts and its redo.
pub(crate) const COMMON: &str = "\
# A checkpoint at the fork isn't below it.
common 0/100168: HINTED = 0/1000F0 0/1000A0
common 0/1000F0: HINTED = 0/100028 0/100028
# The record at the fork was dropped: the one behind it links to the first.
common 0/1000A0: checkpoint 0/100028 0/0 0 0/100028, bytes 0/1000A0 DROPPED, bytes 0/102000 \
    NEXT_PAGE, record 0/102018 0/100028 10 0 ONE = 0/100028 0/100028
# A link to a record that was dropped.
common 0/102018: checkpoint 0/100028 0/0 0 0/100028, bytes 0/1000A0 DROPPED, bytes 0/102000 \
    NEXT_PAGE, record 0/102018 0/1000A0 10 0 ONE = LogEnds(Lsn(1048736), Continuation)
common 0/1001E0: HINTED = LogEnds(Lsn(1049056), ZeroLength)
# A link into the page's header, and one to where no record is.
common 0/1000A0: record 0/1000A0 0/100010 10 0 ONE = LogEnds(Lsn(1048592), Place)
common 0/1000A0: record 0/1000A0 0/100028 10 0 ONE = LogEnds(Lsn(1048616), ZeroLength)
# Two records that link to each other.
common 0/1000D0: checkpoint 0/100028 0/0 0 0/100028, record 0/1000A0 0/1000D0 10 0 ONE, record \
    0/1000D0 0/1000A0 10 0 ONE = LogEnds(Lsn(1048736), Prev)
common 0/1000A0: checkpoint 0/100028 0/0 0 0/100028, record 0/1000A0 0/0 10 0 ONE = \
    NoCommonCheckpoint(Lsn(1048736))
common 0/1000A0: record 0/100028 0/0 0 0 SHORT, record 0/1000A0 0/100028 10 0 ONE = \
    BadParts(Lsn(1048616), 89)
common 0/100048: record 0/100028 0/0 0 16 BAD, record 0/100048 0/100028 10 0 ONE = \
    BadParts(Lsn(1048616), 0)
common 0/100060: record 0/100028 0/0 0 16 COMPRESSED, record 0/100060 0/100028 10 0 ONE = \
    Compressed(Lsn(1048616), 0)";

/// From where and up to where a log is read, the log, and what refuses it. Of two faults of one record
/// that of its parts comes first, and then that it isn't known.
pub(crate) const REFUSED: &str = "\
touch 0/100028 0/1000A8: checkpoint 0/100028 0/0 0 0/100028 = LogEnds(Lsn(1048736), ZeroLength)
touch 0/100028 0/1000C8: checkpoint 0/100028 0/0 0 0/100028, record 0/1000A0 0/100028 10 0 ONE = \
    EndNotRecord(Lsn(1048776), Lsn(1048784))
touch 0/100028 0/100100: checkpoint 0/100028 0/0 0 0/100028, record 0/1000A0 0/100028 10 0 BAD = \
    BadParts(Lsn(1048736), 0)
touch 0/100028 0/1000A8: checkpoint 0/100028 0/0 0 0/100028, record 0/1000A0 0/100028 12 1 BAD = \
    BadParts(Lsn(1048736), 0)
touch 0/100028 0/100100: checkpoint 0/100028 0/0 0 0/100028, record 0/1000A0 0/100028 0 160 \
    COMPRESSED = Compressed(Lsn(1048736), 0)
touch 0/100028 0/100100: checkpoint 0/100028 0/0 0 0/100028, record 0/1000A0 0/100028 12 1 ONE = \
    UnknownSpecial(Lsn(1048736), 12, 1)
touch 0/100028 0/1000C8: checkpoint 0/100028 0/0 0 0/100028, record 0/1000A0 0/100028 12 1 ONE = \
    UnknownSpecial(Lsn(1048736), 12, 1)
# The first record that is refused decides.
touch 0/100028 0/100100: checkpoint 0/100028 0/0 0 0/100028, record 0/1000A0 0/100028 12 1 ONE, \
    record 0/1000D0 0/1000A0 10 0 BAD = UnknownSpecial(Lsn(1048736), 12, 1)
touch 0/100028 0/100200: HINTED = LogEnds(Lsn(1049056), ZeroLength)";

/// From where and up to where a log is read, the log, how many chunks, cuts and databases the set has
/// then, blocks that it has and some that it lacks.
pub(crate) const TOUCHED: &str = "\
touch 0/1000A0 0/1001E0: HINTED = 1 0 0: has 5 16384 2, lacks 5 16384 1, lacks 5 16384 3
# Behind the hint nothing is touched, and what stands at the end or past it isn't read.
touch 0/100028 0/1000A0: checkpoint 0/100028 0/0 0 0/100028, record 0/1000A0 0/100028 12 1 BAD = 0 \
    0 0: lacks 5 16384 1
# The record behind one that was dropped starts past the end.
touch 0/100028 0/1000A8: checkpoint 0/100028 0/0 0 0/100028, bytes 0/1000A0 DROPPED, bytes \
    0/102000 NEXT_PAGE, record 0/102018 0/100028 10 0 ONE = 0 0 0: lacks 5 16384 1
# Three chunks, and a cut at 10 of the relation that has two of them.
touch 0/100028 0/100120: checkpoint 0/100028 0/0 0 0/100028, record 0/1000A0 0/100028 10 0 \
    FOUR_BLOCKS, record 0/1000F0 0/1000A0 2 33 CUT_TO_10 = 3 1 0: has 5 16384 0, has 5 16384 10, \
    has 5 16384 65536, has 5 16385 7, lacks 5 16384 9, lacks 5 16385 10";

/// How many chunks the log with the hint touches, by the three walks on one cursor, where these reads fail: they read one
/// page once.
pub(crate) const FAILING: &str = "\
walk from 2 = Ok(1)
walk at 1 = Err(ReadFault)";
