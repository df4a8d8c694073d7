// Control files: each field, each refusal, the very bytes that are written, and the text.
use crate::control_bytes::{
    distinct, distinct_checkpoint, distinct_control, example, file_of, modified,
};
use crate::texts::{first_word, number, owned, said, shown};
use control_file::{
    ControlFault, Field, control_text, read_checkpoint, read_control, write_checkpoint,
    write_control,
};
use std::process::Abort;
use wal_base::Text;

// The timeline is the greater one of minRecoveryPoint's and the checkpoint's.
pub(crate) const TIMELINES: &str = "\
control timeline 2147483651 2147483650 = 2147483651
control timeline 2147483651 2147483652 = 2147483652
control timeline 0 2147483652 = 2147483652";

fn timeline<R: AllocGlobal + Abort>(rt: &R, words: &str) -> String {
    let (least, checkpoint) = first_word(words);
    let mut control = distinct_control();
    control.minRecoveryPointTli = number(rt, least);
    control.cp.tli = number(rt, checkpoint);
    said(rt, &control.timeline())
}

// Files of another length.
pub(crate) const SIZES: &str = "\
control size 0 = Size(0)
control size 8191 = Size(8191)
control size 8193 = Size(8193)";

fn size<R: AllocGlobal + Abort>(rt: &R, words: &str) -> String {
    let zeros = [0; 8193];
    let bytes = zeros.get(..number::<usize, R>(rt, words));
    fault(rt, bytes.expect(rt, "too long"))
}

// The fault of these bytes.
fn fault<R: AllocGlobal + Abort>(rt: &R, bytes: &[u8]) -> String {
    match read_control(bytes) {
        Ok(_) => owned(rt, "read"),
        Err(fault) => shown(rt, &fault),
    }
}

// What stands in place of the example's fields (its offset, its width and its value), the CRC, and the
// first rule that is broken then, in the order of the faults. The CRC is mended where it isn't the one: in
// the first row a bit of byte 100 is turned.
pub(crate) const REFUSED: &str = "\
control fault 100 1 1: 4231050781 = Crc(4231050781, 3455709205)
control fault 8 4 1500: 16750871 = Version(1500)
control fault 12 4 202307072: 920438308 = Catalog(202307072)
control fault 8 4 1500, 12 4 202307072: 3390302510 = Version(1500)
control fault 12 4 202307072, 16 4 7: 370013602 = Catalog(202307072)
control fault 252 4 2, 16 4 7: 3145265891 = Shape(State, 7)
control fault 228 4 0, 172 4 3: 2803011754 = Shape(WalLevel, 3)
control fault 16 4 7: 3705767323 = Shape(State, 7)
control fault 56 1 2: 2258140770 = Shape(CpFpw, 2)
control fault 168 1 255: 105397335 = Shape(EndRequired, 255)
control fault 172 4 3: 3508032369 = Shape(WalLevel, 3)
control fault 176 1 2: 2203816525 = Shape(WalLogHints, 2)
control fault 180 4 2147483648: 3163725119 = Shape(MaxConnections, 2147483648)
control fault 184 4 2147483648: 794146041 = Shape(MaxWorkers, 2147483648)
control fault 188 4 2147483648: 3727660403 = Shape(MaxSenders, 2147483648)
control fault 192 4 4294967295: 1379749193 = Shape(MaxPrepared, 4294967295)
control fault 196 4 2147483648: 2631081088 = Shape(MaxLocks, 2147483648)
control fault 200 1 2: 4061866683 = Shape(TrackCommitTs, 2)
control fault 204 4 4: 1865223433 = Shape(MaxAlign, 4)
control fault 208 8 4698053236609777665: 4094351601 = Shape(FloatFormat, 4698053236609777665)
control fault 216 4 4096: 507180623 = Shape(Blcksz, 4096)
control fault 220 4 0: 3440468304 = Shape(Relseg, 0)
control fault 220 4 131073: 3760820774 = Shape(Relseg, 131073)
control fault 224 4 16384: 3219761212 = Shape(WalBlcksz, 16384)
control fault 228 4 524288: 868822867 = Shape(WalSegSize, 524288)
control fault 228 4 1048577: 2307592774 = Shape(WalSegSize, 1048577)
control fault 228 4 2147483648: 3307150138 = Shape(WalSegSize, 2147483648)
control fault 248 1 2: 2677866385 = Shape(Float8ByVal, 2)
control fault 252 4 2: 2611593573 = Shape(ChecksumVersion, 2)";

// The years 1 to 9999 have their dates, with a space before a day of one digit. Each row has the
// seconds and their text.
pub(crate) const TIMES: &str = "\
control time -9223372036854775808 = -9223372036854775808
control time -62135596801 = -62135596801
control time -62135596800 = Mon Jan  1 00:00:00 1
control time -1 = Wed Dec 31 23:59:59 1969
control time 0 = Thu Jan  1 00:00:00 1970
control time 86399 = Thu Jan  1 23:59:59 1970
control time 951782400 = Tue Feb 29 00:00:00 2000
control time 1700000000 = Tue Nov 14 22:13:20 2023
control time 1709164799 = Wed Feb 28 23:59:59 2024
control time 4102444800 = Fri Jan  1 00:00:00 2100
control time 253402300799 = Fri Dec 31 23:59:59 9999
control time 253402300800 = 253402300800
control time 9223372036854775807 = 9223372036854775807";

// How a control file shows when it was modified.
fn time<R: AllocGlobal + Abort>(rt: &R, seconds: &str) -> String {
    let text = file_text(rt, &modified(rt, number(rt, seconds)));
    let line = text.as_str().lines().nth(4).unwrap_or("");
    let time = line.strip_prefix("pg_control last modified:             ");
    owned(rt, time.unwrap_or("another line"))
}

// Whether what is read of these bytes is written so over others, which stay past the file.
fn is_written_again<R: Abort>(rt: &R, file: &[u8; 8192]) -> bool {
    let control = read_control(file).expect(rt, "no control file");
    let mut into = [0xAA; 8200];
    write_control(&control, &mut into);
    let mut meant = [0xAA; 8200];
    meant[..8192].copy_from_slice(file);
    into == meant
}

// The names of fields are those of the format with a capital letter first and no point.
pub(crate) const SHOWN: &str = "\
control names  = State CheckPoint CpRedo CpNextMultiOffset MinRecoveryPointTli Float8ByVal Crc ;
control message  = CRC 00000ABC where the bytes have FFFFFFFF";

fn names<R: AllocGlobal + Abort>(rt: &R) -> String {
    format!(in rt.alloc();
        "{} {} {} {} {} {} {} ;",
        Field::State,
        Field::CheckPoint,
        Field::CpRedo,
        Field::CpNextMultiOffset,
        Field::MinRecoveryPointTli,
        Field::Float8ByVal,
        Field::Crc
    )
    .expect(rt, "no memory")
}

// The text of the control file of these bytes.
fn file_text<R: AllocGlobal + Abort>(rt: &R, file: &[u8; 8192]) -> Text {
    let control = read_control(file).expect(rt, "no control file");
    control_text(rt.alloc(), &control).expect(rt, "no memory")
}

/// `timeline LEAST CHECKPOINT`, `size BYTES`, `fault FIELD, ..: CRC`, `time SECONDS`, `names` or `message`.
pub(crate) fn of_control<R: AllocGlobal + Abort>(rt: &R, words: &str) -> String {
    let (call, given) = first_word(words);
    match call {
        "timeline" => timeline(rt, given),
        "size" => size(rt, given),
        "fault" => fault(rt, &file_of(rt, given)),
        "time" => time(rt, given),
        "names" => names(rt),
        "message" => said(rt, &ControlFault::Crc(0xABC, 0xFFFF_FFFF)),
        _ => panic!(rt; "no such call"),
    }
}

#[test]
fn reads_writes_and_shows_every_field(rt: HostRuntime) {
    let file = distinct(&rt);
    assert!(rt; read_control(&file) == Ok(distinct_control()));
    assert!(rt; is_written_again(&rt, &file) && is_written_again(&rt, &example(&rt)));
    assert!(rt; file_text(&rt, &file).as_str() == TEXT);
}

// Whether these bytes are read as the checkpoint.
fn is_checkpoint(bytes: &[u8]) -> bool {
    read_checkpoint(bytes) == Some(distinct_checkpoint())
}

// Whether the checkpoint is written as bytes 40 to 127, over others, which stay past it.
fn is_checkpoint_written(file: &[u8; 8192]) -> bool {
    let mut into = [0xAA; 90];
    write_checkpoint(&distinct_checkpoint(), &mut into);
    let mut meant = [0xAA; 90];
    meant[..88].copy_from_slice(&file[40..128]);
    into == meant
}

// The main bytes of a checkpoint record are bytes 40 to 127 of a control file.
#[test]
fn reads_and_writes_a_checkpoint_of_88_bytes(rt: HostRuntime) {
    let file = distinct(&rt);
    assert!(rt; read_checkpoint(&file[40..127]) == None);
    assert!(rt; is_checkpoint(&file[40..128]) && is_checkpoint(&file[40..]));
    assert!(rt; is_checkpoint_written(&file));
}

// The text of a control file in which each field has a number of its own.
const TEXT: &str = "\
pg_control version number:            1300
Catalog version number:               202307071
Database system identifier:           17366446428893087496
Database cluster state:               in production
pg_control last modified:             Wed Dec 31 23:59:59 1969
Latest checkpoint location:           11223344/55667788
Latest checkpoint's REDO location:    21324354/65768798
Latest checkpoint's REDO WAL file:    800000022132435400000001
Latest checkpoint's TimeLineID:       2147483650
Latest checkpoint's PrevTimeLineID:   270544960
Latest checkpoint's full_page_writes: on
Latest checkpoint's NextXID:          3:4041265344
Latest checkpoint's NextOID:          4294967295
Latest checkpoint's NextMultiXactId:  16909060
Latest checkpoint's NextMultiOffset:  84281096
Latest checkpoint's oldestXID:        151653132
Latest checkpoint's oldestXID's DB:   219025168
Latest checkpoint's oldestActiveXID:  555885348
Latest checkpoint's oldestMultiXid:   286397204
Latest checkpoint's oldestMulti's DB: 353769240
Latest checkpoint's oldestCommitTsXid:421141276
Latest checkpoint's newestCommitTsXid:488513312
Time of latest checkpoint:            -9223372036854775808
Fake LSN counter for unlogged rels:   31323334/35363738
Minimum recovery ending location:     41424344/45464748
Min recovery ending loc's timeline:   2147483651
Backup start location:                51525354/55565758
Backup end location:                  61626364/65666768
End-of-backup record required:        yes
wal_level setting:                    logical
wal_log_hints setting:                on
max_connections setting:              2147483647
max_worker_processes setting:         1903326068
max_wal_senders setting:              1633837924
max_prepared_xacts setting:           1364349780
max_locks_per_xact setting:           1094861636
track_commit_timestamp setting:       off
Maximum data alignment:               8
Database block size:                  8192
Blocks per segment of large relation: 1
WAL block size:                       8192
Bytes per WAL segment:                1073741824
Maximum length of identifiers:        2172814212
Maximum columns in an index:          2240186248
Maximum size of a TOAST chunk:        2307558284
Size of a large-object chunk:         2374930320
Date/time type storage:               64-bit integers
Float8 argument passing:              by reference
Data page checksum version:           1
Mock authentication nonce:            e0e1e2e3e4e5e6e7e8e9eaebecedeeeff0f1f2f3f4f5f6f7f8f9fafbfcfdfeff
";
