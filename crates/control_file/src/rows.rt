//! The layout of a control file as a table.

ghost use Rattle.std.specs.Prelude.{◌≡◌, ◌+◌, ◌<◌, ◌^◌};
ghost use Rattle.std.specs.List.{AllByRecursion};
ghost use Rattle.control_file.specs.Rows.{head_rows, checkpoint_rows, recovery_rows, setting_rows, build_rows, rows_of};
ghost use Rattle.layout.specs.Rows.{RowFits, first_broken};

use crate::checkpoint::Checkpoint;
use crate::control::Control;
use crate::field::Field;
use crate::format::CHECKPOINT_AT;
use layout::Rule::{Any, AtMost, Between, Only, PowerOfTwo};
use layout::{Row, first_broken};

/// The largest number that an integer setting of the server may be.
const INT_MAX: u64 = 0x7FFF_FFFF;

/// The least size of a segment of the log, in bytes (`WalSegMinSize`).
const SEGMENT_MIN: u64 = 0x10_0000;

/// The greatest size of a segment of the log, in bytes (`WalSegMaxSize`).
const SEGMENT_MAX: u64 = 0x4000_0000;

/// The bytes of the float 1234567.0.
const FLOAT_FORMAT: u64 = 0x4132_D687_0000_0000;

/// What the cluster is, and where its last checkpoint stands.
#[tactic(auto, unfolding(crate::specs::Rows::head_rows))]
pub fn head_rows(c: &Control) -> [Row<Field>; 6]
    ensures value { result ≡ head_rows c.now }
    ensures fits { AllByRecursion RowFits result }
{
    [
        Row::long(Field::Sysid, 0, c.sysid, Any),
        Row::word(Field::Version, 8, c.version, Any),
        Row::word(Field::Catalog, 12, c.catalog, Any),
        Row::word(Field::State, 16, c.state, AtMost(6)),
        Row::signed(Field::Time, 24, c.time, Any),
        Row::long(Field::CheckPoint, 32, c.checkPoint, Any),
    ]
}

/// The checkpoint copy that begins at this offset.
#[tactic(auto, unfolding(crate::specs::Rows::checkpoint_rows))]
pub fn checkpoint_rows(at: usize, cp: &Checkpoint) -> [Row<Field>; 16]
    requires { at + 88 < 2 ^ 64 }
    ensures value { result ≡ checkpoint_rows at cp.now }
    ensures fits { AllByRecursion RowFits result }
{
    [
        Row::long(Field::CpRedo, at, cp.redo, Any),
        Row::word(Field::CpTli, at + 8, cp.tli, Any),
        Row::word(Field::CpPrevTli, at + 12, cp.prevTli, Any),
        Row::byte(Field::CpFpw, at + 16, cp.fpw, AtMost(1)),
        Row::long(Field::CpNextXid, at + 24, cp.nextXid, Any),
        Row::word(Field::CpNextOid, at + 32, cp.nextOid, Any),
        Row::word(Field::CpNextMulti, at + 36, cp.nextMulti, Any),
        Row::word(Field::CpNextMultiOffset, at + 40, cp.nextMultiOffset, Any),
        Row::word(Field::CpOldestXid, at + 44, cp.oldestXid, Any),
        Row::word(Field::CpOldestXidDb, at + 48, cp.oldestXidDb, Any),
        Row::word(Field::CpOldestMulti, at + 52, cp.oldestMulti, Any),
        Row::word(Field::CpOldestMultiDb, at + 56, cp.oldestMultiDb, Any),
        Row::signed(Field::CpTime, at + 64, cp.time, Any),
        Row::word(Field::CpOldestCommitTs, at + 72, cp.oldestCommitTs, Any),
        Row::word(Field::CpNewestCommitTs, at + 76, cp.newestCommitTs, Any),
        Row::word(Field::CpOldestActiveXid, at + 80, cp.oldestActiveXid, Any),
    ]
}

/// How far a recovery has to go.
#[tactic(auto, unfolding(crate::specs::Rows::recovery_rows))]
pub fn recovery_rows(c: &Control) -> [Row<Field>; 6]
    ensures value { result ≡ recovery_rows c.now }
    ensures fits { AllByRecursion RowFits result }
{
    [
        Row::long(Field::UnloggedLsn, 128, c.unloggedLsn, Any),
        Row::long(Field::MinRecoveryPoint, 136, c.minRecoveryPoint, Any),
        Row::word(Field::MinRecoveryPointTli, 144, c.minRecoveryPointTli, Any),
        Row::long(Field::BackupStart, 152, c.backupStart, Any),
        Row::long(Field::BackupEnd, 160, c.backupEnd, Any),
        Row::byte(Field::EndRequired, 168, c.endRequired, AtMost(1)),
    ]
}

/// The settings that the log was written under.
#[tactic(auto, unfolding(crate::specs::Rows::setting_rows))]
pub fn setting_rows(c: &Control) -> [Row<Field>; 8]
    ensures value { result ≡ setting_rows c.now }
    ensures fits { AllByRecursion RowFits result }
{
    [
        Row::word(Field::WalLevel, 172, c.walLevel, AtMost(2)),
        Row::byte(Field::WalLogHints, 176, c.walLogHints, AtMost(1)),
        Row::word(
            Field::MaxConnections,
            180,
            c.maxConnections,
            AtMost(INT_MAX),
        ),
        Row::word(Field::MaxWorkers, 184, c.maxWorkers, AtMost(INT_MAX)),
        Row::word(Field::MaxSenders, 188, c.maxSenders, AtMost(INT_MAX)),
        Row::word(Field::MaxPrepared, 192, c.maxPrepared, AtMost(INT_MAX)),
        Row::word(Field::MaxLocks, 196, c.maxLocks, AtMost(INT_MAX)),
        Row::byte(Field::TrackCommitTs, 200, c.trackCommitTs, AtMost(1)),
    ]
}

/// What the server was built with.
#[tactic(auto, unfolding(crate::specs::Rows::build_rows))]
pub fn build_rows(c: &Control) -> [Row<Field>; 13]
    ensures value { result ≡ build_rows c.now }
    ensures fits { AllByRecursion RowFits result }
{
    [
        Row::word(Field::MaxAlign, 204, c.maxAlign, Only(8)),
        Row::long(Field::FloatFormat, 208, c.floatFormat, Only(FLOAT_FORMAT)),
        Row::word(Field::Blcksz, 216, c.blcksz, Only(8192)),
        Row::word(Field::Relseg, 220, c.relseg, Between(1, 0x2_0000)),
        Row::word(Field::WalBlcksz, 224, c.walBlcksz, Only(8192)),
        Row::word(
            Field::WalSegSize,
            228,
            c.walSegSize,
            PowerOfTwo(SEGMENT_MIN, SEGMENT_MAX),
        ),
        Row::word(Field::NameLen, 232, c.nameLen, Any),
        Row::word(Field::IndexKeys, 236, c.indexKeys, Any),
        Row::word(Field::ToastChunk, 240, c.toastChunk, Any),
        Row::word(Field::LoBlock, 244, c.loBlock, Any),
        Row::byte(Field::Float8ByVal, 248, c.float8ByVal, AtMost(1)),
        Row::word(Field::ChecksumVersion, 252, c.checksumVersion, AtMost(1)),
        Row::raw(Field::Nonce, 256, c.nonce, Any),
    ]
}

/// The first row of the whole table that breaks its rule.
#[tactic(auto, using(crate::proofs::TableLemmas::first_broken_of_parts))]
pub fn broken_row(c: &Control) -> Option<Row<Field>>
    ensures { result ≡ first_broken (rows_of c.now) }
{
    first_broken(&head_rows(c))
        .or(first_broken(&checkpoint_rows(CHECKPOINT_AT, &c.cp)))
        .or(first_broken(&recovery_rows(c)))
        .or(first_broken(&setting_rows(c)))
        .or(first_broken(&build_rows(c)))
}
