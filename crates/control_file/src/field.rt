//! The fields of a control file by name.

ghost use Rattle.std.specs.Prelude.{Some};
ghost use Rattle.control_file.specs.FieldNames.{field_name};

use std::fmt;

/// A field of a control file. The fields of the checkpoint copy begin with `Cp`.
#[derive(Clone, Copy, Debug, PartialEq, Eq)]
pub enum Field {
    /// `sysid`, 8 bytes at 0.
    Sysid,
    /// `version`, 4 bytes at 8.
    Version,
    /// `catalog`, 4 bytes at 12.
    Catalog,
    /// `state`, 4 bytes at 16.
    State,
    /// `time`, 8 signed bytes at 24.
    Time,
    /// `checkPoint`, 8 bytes at 32.
    CheckPoint,
    /// `cp.redo`, 8 bytes at 40.
    CpRedo,
    /// `cp.tli`, 4 bytes at 48.
    CpTli,
    /// `cp.prevTli`, 4 bytes at 52.
    CpPrevTli,
    /// `cp.fpw`, one byte at 56.
    CpFpw,
    /// `cp.nextXid`, 8 bytes at 64.
    CpNextXid,
    /// `cp.nextOid`, 4 bytes at 72.
    CpNextOid,
    /// `cp.nextMulti`, 4 bytes at 76.
    CpNextMulti,
    /// `cp.nextMultiOffset`, 4 bytes at 80.
    CpNextMultiOffset,
    /// `cp.oldestXid`, 4 bytes at 84.
    CpOldestXid,
    /// `cp.oldestXidDb`, 4 bytes at 88.
    CpOldestXidDb,
    /// `cp.oldestMulti`, 4 bytes at 92.
    CpOldestMulti,
    /// `cp.oldestMultiDb`, 4 bytes at 96.
    CpOldestMultiDb,
    /// `cp.time`, 8 signed bytes at 104.
    CpTime,
    /// `cp.oldestCommitTs`, 4 bytes at 112.
    CpOldestCommitTs,
    /// `cp.newestCommitTs`, 4 bytes at 116.
    CpNewestCommitTs,
    /// `cp.oldestActiveXid`, 4 bytes at 120.
    CpOldestActiveXid,
    /// `unloggedLsn`, 8 bytes at 128.
    UnloggedLsn,
    /// `minRecoveryPoint`, 8 bytes at 136.
    MinRecoveryPoint,
    /// `minRecoveryPointTli`, 4 bytes at 144.
    MinRecoveryPointTli,
    /// `backupStart`, 8 bytes at 152.
    BackupStart,
    /// `backupEnd`, 8 bytes at 160.
    BackupEnd,
    /// `endRequired`, one byte at 168.
    EndRequired,
    /// `walLevel`, 4 bytes at 172.
    WalLevel,
    /// `walLogHints`, one byte at 176.
    WalLogHints,
    /// `maxConnections`, 4 bytes at 180.
    MaxConnections,
    /// `maxWorkers`, 4 bytes at 184.
    MaxWorkers,
    /// `maxSenders`, 4 bytes at 188.
    MaxSenders,
    /// `maxPrepared`, 4 bytes at 192.
    MaxPrepared,
    /// `maxLocks`, 4 bytes at 196.
    MaxLocks,
    /// `trackCommitTs`, one byte at 200.
    TrackCommitTs,
    /// `maxAlign`, 4 bytes at 204.
    MaxAlign,
    /// `floatFormat`, 8 bytes at 208.
    FloatFormat,
    /// `blcksz`, 4 bytes at 216.
    Blcksz,
    /// `relseg`, 4 bytes at 220.
    Relseg,
    /// `walBlcksz`, 4 bytes at 224.
    WalBlcksz,
    /// `walSegSize`, 4 bytes at 228.
    WalSegSize,
    /// `nameLen`, 4 bytes at 232.
    NameLen,
    /// `indexKeys`, 4 bytes at 236.
    IndexKeys,
    /// `toastChunk`, 4 bytes at 240.
    ToastChunk,
    /// `loBlock`, 4 bytes at 244.
    LoBlock,
    /// `float8ByVal`, one byte at 248.
    Float8ByVal,
    /// `checksumVersion`, 4 bytes at 252.
    ChecksumVersion,
    /// `nonce`, 32 bytes at 256.
    Nonce,
    /// `crc`, 4 bytes at 288.
    Crc,
}

impl fmt::Display for Field {
    ghost output = { λ field. Some (field_name field) };

    fn fmt<W: fmt::Write>(&self, f: &mut fmt::Formatter<W>) -> fmt::Result {
        let name = match *self {
            Field::Sysid => "Sysid",
            Field::Version => "Version",
            Field::Catalog => "Catalog",
            Field::State => "State",
            Field::Time => "Time",
            Field::CheckPoint => "CheckPoint",
            Field::CpRedo => "CpRedo",
            Field::CpTli => "CpTli",
            Field::CpPrevTli => "CpPrevTli",
            Field::CpFpw => "CpFpw",
            Field::CpNextXid => "CpNextXid",
            Field::CpNextOid => "CpNextOid",
            Field::CpNextMulti => "CpNextMulti",
            Field::CpNextMultiOffset => "CpNextMultiOffset",
            Field::CpOldestXid => "CpOldestXid",
            Field::CpOldestXidDb => "CpOldestXidDb",
            Field::CpOldestMulti => "CpOldestMulti",
            Field::CpOldestMultiDb => "CpOldestMultiDb",
            Field::CpTime => "CpTime",
            Field::CpOldestCommitTs => "CpOldestCommitTs",
            Field::CpNewestCommitTs => "CpNewestCommitTs",
            Field::CpOldestActiveXid => "CpOldestActiveXid",
            Field::UnloggedLsn => "UnloggedLsn",
            Field::MinRecoveryPoint => "MinRecoveryPoint",
            Field::MinRecoveryPointTli => "MinRecoveryPointTli",
            Field::BackupStart => "BackupStart",
            Field::BackupEnd => "BackupEnd",
            Field::EndRequired => "EndRequired",
            Field::WalLevel => "WalLevel",
            Field::WalLogHints => "WalLogHints",
            Field::MaxConnections => "MaxConnections",
            Field::MaxWorkers => "MaxWorkers",
            Field::MaxSenders => "MaxSenders",
            Field::MaxPrepared => "MaxPrepared",
            Field::MaxLocks => "MaxLocks",
            Field::TrackCommitTs => "TrackCommitTs",
            Field::MaxAlign => "MaxAlign",
            Field::FloatFormat => "FloatFormat",
            Field::Blcksz => "Blcksz",
            Field::Relseg => "Relseg",
            Field::WalBlcksz => "WalBlcksz",
            Field::WalSegSize => "WalSegSize",
            Field::NameLen => "NameLen",
            Field::IndexKeys => "IndexKeys",
            Field::ToastChunk => "ToastChunk",
            Field::LoBlock => "LoBlock",
            Field::Float8ByVal => "Float8ByVal",
            Field::ChecksumVersion => "ChecksumVersion",
            Field::Nonce => "Nonce",
            Field::Crc => "Crc",
        };
        f.write_str(name)
    }
}
