//! Control files from the fields that differ: each its offset, its width, its value, and maybe its name.
use crate::texts::long;
use std::process::Abort;
use tree_lines::{put_fields, put_number, sum_of};

/// The fields of a cluster that was shut down on timeline 1.
const RESET: &str = "\
0 8 7300000000000000001 sysid, 8 4 1300 version, 12 4 202307071 catalog, 16 4 1 state, 24 8 \
    1600000000 time, 32 8 1048800 checkPoint, 40 8 1048800 cp.redo, 48 4 1 cp.tli, 52 4 1 \
    cp.prevTli, 56 1 1 cp.fpw, 64 8 21474837181 cp.nextXid, 72 4 16385 cp.nextOid, 76 4 1 \
    cp.nextMulti, 84 4 700 cp.oldestXid, 88 4 1 cp.oldestXidDb, 92 4 1 cp.oldestMulti, 96 4 1 \
    cp.oldestMultiDb, 104 8 1600000000 cp.time, 112 4 11 cp.oldestCommitTs, 116 4 12 \
    cp.newestCommitTs, 120 4 9 cp.oldestActiveXid, 128 8 77 unloggedLsn, 136 8 8738 \
    minRecoveryPoint, 144 4 1 minRecoveryPointTli, 152 8 5 backupStart, 160 8 6 backupEnd, 168 1 1 \
    endRequired, 172 4 2 walLevel, 176 1 1 walLogHints, 180 4 200 maxConnections, 184 4 9 \
    maxWorkers, 188 4 11 maxSenders, 192 4 3 maxPrepared, 196 4 65 maxLocks, 200 1 1 \
    trackCommitTs, 204 4 8 maxAlign, 208 8 4698053236609777664 floatFormat, 216 4 8192 blcksz, 220 \
    4 131072 relseg, 224 4 8192 walBlcksz, 228 4 1048576 walSegSize, 232 4 64 nameLen, 236 4 32 \
    indexKeys, 240 4 1996 toastChunk, 244 4 2048 loBlock, 248 1 1 float8ByVal, 252 4 0 \
    checksumVersion, 256 8 506097522914230528 nonce, 264 8 1084818905618843912 nonce, 272 8 \
    1663540288323457296 nonce, 280 8 2242261671028070680 nonce";

/// The control file of a reset, with its sum: `plain`, or the fields that differ.
pub(crate) fn reset<R: Abort>(rt: &R, edits: &str) -> [u8; 8192] {
    let mut file = [0; 8192];
    put_fields(&mut file, RESET).expect(rt, "no fields");
    if edits != "plain" {
        put_fields(&mut file, edits).expect(rt, "no fields");
    }
    let sum = sum_of(&file, 288);
    put_number(&mut file, 288, 4, u64::from(sum)).expect(rt, "no sum");
    file
}

/// The fields of a cluster that was shut down on timeline 1, and the sum of that file. That of another one
/// stands in its row; they come from a script of its own (tests/pg_control.py).
const SURVEYED: &str = "\
0 8 7300000000000000001 sysid, 8 4 1300 version, 12 4 202307071 catalog, 16 4 1 state, 48 4 1 \
    cp.tli, 52 4 1 cp.prevTli, 176 1 1 walLogHints, 204 4 8 maxAlign, 208 8 4698053236609777664 \
    floatFormat, 216 4 8192 blcksz, 220 4 131072 relseg, 224 4 8192 walBlcksz, 228 4 1048576 \
    walSegSize, 288 4 2501938330 crc";

/// The control file of a survey: `plain`, or `FIELD, ..: SUM`.
pub(crate) fn surveyed<R: Abort>(rt: &R, text: &str) -> [u8; 8192] {
    let mut file = [0; 8192];
    put_fields(&mut file, SURVEYED).expect(rt, "no fields");
    if let Some((fields, sum)) = text.split_once(": ") {
        put_fields(&mut file, fields).expect(rt, "no fields");
        put_number(&mut file, 288, 4, long(rt, sum)).expect(rt, "no sum");
    }
    file
}
