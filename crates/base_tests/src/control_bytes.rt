// The control files that the tests read. Their bytes, their CRCs and what they say come from a script
// of its own that lays the fields out with Python's struct and computes CRC-32C bit by bit
// (tests/pg_control.py).
use crate::texts::{first_word, number};
use control_file::{Checkpoint, Control};
use std::process::Abort;
use wal_base::Crc32c;

// A cluster that was shut down on timeline 1: each field's offset, width, value and name; zeros elsewhere but for
// the nonce.
const EXAMPLE: &str = "\
0 8 7300000000000000001 sysid, 8 4 1300 version, 12 4 202307071 catalog, 16 4 1 state, 24 8 \
    1700000000 time, 32 8 1048800 checkPoint, 40 8 1048800 cp.redo, 48 4 1 cp.tli, 52 4 1 \
    cp.prevTli, 56 1 1 cp.fpw, 64 8 701 cp.nextXid, 72 4 16385 cp.nextOid, 76 4 1 cp.nextMulti, 84 \
    4 700 cp.oldestXid, 88 4 1 cp.oldestXidDb, 92 4 1 cp.oldestMulti, 96 4 1 cp.oldestMultiDb, 104 \
    8 1700000000 cp.time, 128 8 1000 unloggedLsn, 172 4 1 walLevel, 176 1 1 walLogHints, 180 4 100 \
    maxConnections, 184 4 8 maxWorkers, 188 4 10 maxSenders, 196 4 64 maxLocks, 204 4 8 maxAlign, \
    208 8 4698053236609777664 floatFormat, 216 4 8192 blcksz, 220 4 131072 relseg, 224 4 8192 \
    walBlcksz, 228 4 1048576 walSegSize, 232 4 64 nameLen, 236 4 32 indexKeys, 240 4 1996 \
    toastChunk, 244 4 2048 loBlock, 248 1 1 float8ByVal";

// The example's nonce, and the CRC of its first 288 bytes.
const EXAMPLE_NONCE: [u8; 32] = [
    0, 1, 2, 3, 4, 5, 6, 7, 8, 9, 10, 11, 12, 13, 14, 15, 16, 17, 18, 19, 20, 21, 22, 23, 24, 25,
    26, 27, 28, 29, 30, 31,
];

const EXAMPLE_CRC: u32 = 0xFC30_B61D;

// A control file in which each field has a number of its own, as far as its rule lets it.
const DISTINCT: &str = "\
0 8 17366446428893087496 sysid, 8 4 1300 version, 12 4 202307071 catalog, 16 4 6 state, 24 8 \
    18446744073709551615 time, 32 8 1234605616436508552 checkPoint, 40 8 2392048381845735320 \
    cp.redo, 48 4 2147483650 cp.tli, 52 4 270544960 cp.prevTli, 56 1 1 cp.fpw, 64 8 16926167232 \
    cp.nextXid, 72 4 4294967295 cp.nextOid, 76 4 16909060 cp.nextMulti, 80 4 84281096 \
    cp.nextMultiOffset, 84 4 151653132 cp.oldestXid, 88 4 219025168 cp.oldestXidDb, 92 4 286397204 \
    cp.oldestMulti, 96 4 353769240 cp.oldestMultiDb, 104 8 9223372036854775808 cp.time, 112 4 \
    421141276 cp.oldestCommitTs, 116 4 488513312 cp.newestCommitTs, 120 4 555885348 \
    cp.oldestActiveXid, 128 8 3544952156018063160 unloggedLsn, 136 8 4702394921427289928 \
    minRecoveryPoint, 144 4 2147483651 minRecoveryPointTli, 152 8 5859837686836516696 backupStart, \
    160 8 7017280452245743464 backupEnd, 168 1 1 endRequired, 172 4 2 walLevel, 176 1 1 \
    walLogHints, 180 4 2147483647 maxConnections, 184 4 1903326068 maxWorkers, 188 4 1633837924 \
    maxSenders, 192 4 1364349780 maxPrepared, 196 4 1094861636 maxLocks, 204 4 8 maxAlign, 208 8 \
    4698053236609777664 floatFormat, 216 4 8192 blcksz, 220 4 1 relseg, 224 4 8192 walBlcksz, 228 \
    4 1073741824 walSegSize, 232 4 2172814212 nameLen, 236 4 2240186248 indexKeys, 240 4 \
    2307558284 toastChunk, 244 4 2374930320 loBlock, 252 4 1 checksumVersion";

// That file's nonce, and the CRC of its first 288 bytes.
const DISTINCT_NONCE: [u8; 32] = [
    224, 225, 226, 227, 228, 229, 230, 231, 232, 233, 234, 235, 236, 237, 238, 239, 240, 241, 242,
    243, 244, 245, 246, 247, 248, 249, 250, 251, 252, 253, 254, 255,
];

const DISTINCT_CRC: u32 = 0x5720_A62E;

// Writes a number at an offset, the lowest byte first.
fn put(file: &mut [u8; 8192], at: usize, width: usize, value: u64) {
    let places = file.iter_mut().skip(at).take(width);
    for (place, byte) in places.zip(value.to_le_bytes()) {
        *place = byte;
    }
}

// Writes a field: its offset, its width and its value, and maybe its name.
fn put_field<R: Abort>(rt: &R, file: &mut [u8; 8192], field: &str) {
    let (at, behind) = first_word(field);
    let (width, behind) = first_word(behind);
    let (value, _name) = first_word(behind);
    put(file, number(rt, at), number(rt, width), number(rt, value));
}

fn put_fields<R: Abort>(rt: &R, file: &mut [u8; 8192], fields: &str) {
    for field in fields.split(", ") {
        put_field(rt, file, field);
    }
}

// The bytes with these fields, this nonce and this CRC.
fn spelled<R: Abort>(rt: &R, fields: &str, nonce: [u8; 32], crc: u32) -> [u8; 8192] {
    let mut file = [0; 8192];
    put_fields(rt, &mut file, fields);
    file[256..288].copy_from_slice(&nonce);
    put(&mut file, 288, 4, u64::from(crc));
    file
}

// The example.
pub(crate) fn example<R: Abort>(rt: &R) -> [u8; 8192] {
    spelled(rt, EXAMPLE, EXAMPLE_NONCE, EXAMPLE_CRC)
}

// The file in which each field has a number of its own.
pub(crate) fn distinct<R: Abort>(rt: &R) -> [u8; 8192] {
    spelled(rt, DISTINCT, DISTINCT_NONCE, DISTINCT_CRC)
}

// The example with fields, and a CRC in place of its own: `FIELD, ..: CRC`.
pub(crate) fn file_of<R: Abort>(rt: &R, text: &str) -> [u8; 8192] {
    let (fields, crc) = text.split_once(": ").expect(rt, "no CRC");
    let mut file = spelled(rt, EXAMPLE, EXAMPLE_NONCE, number(rt, crc));
    put_fields(rt, &mut file, fields);
    file
}

// The example that was modified at this time, with the CRC that its bytes have then.
pub(crate) fn modified<R: Abort>(rt: &R, seconds: i64) -> [u8; 8192] {
    let mut file = example(rt);
    put(&mut file, 24, 8, seconds.cast_unsigned());
    let mut crc = Crc32c::new();
    crc.add(file.get(..288).unwrap_or(&[]));
    put(&mut file, 288, 4, u64::from(crc.value()));
    file
}

pub(crate) fn distinct_checkpoint() -> Checkpoint {
    Checkpoint {
        redo: 0x2132_4354_6576_8798,
        tli: 0x8000_0002,
        prevTli: 0x1020_3040,
        fpw: 1,
        nextXid: 0x0003_F0E0_D0C0,
        nextOid: 0xFFFF_FFFF,
        nextMulti: 0x0102_0304,
        nextMultiOffset: 0x0506_0708,
        oldestXid: 0x090A_0B0C,
        oldestXidDb: 0x0D0E_0F10,
        oldestMulti: 0x1112_1314,
        oldestMultiDb: 0x1516_1718,
        time: i64::MIN,
        oldestCommitTs: 0x191A_1B1C,
        newestCommitTs: 0x1D1E_1F20,
        oldestActiveXid: 0x2122_2324,
    }
}

pub(crate) fn distinct_control() -> Control {
    Control {
        sysid: 0xF102_0304_0506_0708,
        version: 1300,
        catalog: 202307071,
        state: 6,
        time: -1,
        checkPoint: 0x1122_3344_5566_7788,
        cp: distinct_checkpoint(),
        unloggedLsn: 0x3132_3334_3536_3738,
        minRecoveryPoint: 0x4142_4344_4546_4748,
        minRecoveryPointTli: 0x8000_0003,
        backupStart: 0x5152_5354_5556_5758,
        backupEnd: 0x6162_6364_6566_6768,
        endRequired: 1,
        walLevel: 2,
        walLogHints: 1,
        maxConnections: 0x7FFF_FFFF,
        maxWorkers: 0x7172_7374,
        maxSenders: 0x6162_6364,
        maxPrepared: 0x5152_5354,
        maxLocks: 0x4142_4344,
        trackCommitTs: 0,
        maxAlign: 8,
        floatFormat: 0x4132_D687_0000_0000,
        blcksz: 8192,
        relseg: 1,
        walBlcksz: 8192,
        walSegSize: 0x4000_0000,
        nameLen: 0x8182_8384,
        indexKeys: 0x8586_8788,
        toastChunk: 0x898A_8B8C,
        loBlock: 0x8D8E_8F90,
        float8ByVal: 0,
        checksumVersion: 1,
        nonce: DISTINCT_NONCE,
    }
}
