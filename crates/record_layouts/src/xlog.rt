//! Operations of the manager XLOG, and their layouts.

ghost use Rattle.std.specs.Prelude.{◌≡◌};
ghost use Rattle.record_layouts.specs.Xlog.{next_oid_of, backup_end_of, parameter_change_of, fpw_change_of, end_of_recovery_of, overwrite_contrecord_of, xlog_op_of, restore_point_of, xlog_number, xlog_is_whole};

use crate::bytes::Bytes;
use crate::fields::{i32_at, lsn_at};
use control_file::read_checkpoint;
use layout::{i64_at, u8_at, u32_at};
use wal_base::Lsn;

/// An operation of the manager XLOG (`XLOG_..` of src/include/catalog/pg_control.h).
#[derive(Clone, Copy, Debug, PartialEq, Eq)]
pub enum XlogOp {
    /// A checkpoint at a shutdown. The layout is `Checkpoint`.
    CheckpointShutdown,
    /// Any other checkpoint. The layout is `Checkpoint`.
    CheckpointOnline,
    /// Nothing.
    Noop,
    /// Object ids were taken.
    NextOid,
    /// The rest of the segment is empty.
    Switch,
    /// A backup ended.
    BackupEnd,
    /// Settings changed.
    ParameterChange,
    /// A named place to restore up to.
    RestorePoint,
    /// The writing of full-page images was switched.
    FpwChange,
    /// Recovery ended.
    EndOfRecovery,
    /// A full-page image, for a hint.
    FpiForHint,
    /// A full-page image.
    Fpi,
    /// A record that was begun was dropped.
    OverwriteContrecord,
    /// An operation that version 16 does not have: its number, `info` without the low four bits.
    Unlisted(u8),
}

impl XlogOp {
    /// The operation of a record with this `info`, whose low four bits belong to every manager alike.
    #[tactic(auto, unfolding(crate::specs::Xlog::xlog_op_of))]
    pub fn of(info: u8) -> XlogOp
        ensures { result ≡ xlog_op_of info }
    {
        match info & 0xF0 {
            0x00 => XlogOp::CheckpointShutdown,
            0x10 => XlogOp::CheckpointOnline,
            0x20 => XlogOp::Noop,
            0x30 => XlogOp::NextOid,
            0x40 => XlogOp::Switch,
            0x50 => XlogOp::BackupEnd,
            0x60 => XlogOp::ParameterChange,
            0x70 => XlogOp::RestorePoint,
            0x80 => XlogOp::FpwChange,
            0x90 => XlogOp::EndOfRecovery,
            0xA0 => XlogOp::FpiForHint,
            0xB0 => XlogOp::Fpi,
            0xD0 => XlogOp::OverwriteContrecord,
            number => XlogOp::Unlisted(number),
        }
    }

    /// Its number, as `info` has it.
    pub fn number(self) -> u8
        ensures { result ≡ xlog_number self }
    {
        match self {
            XlogOp::CheckpointShutdown => 0x00,
            XlogOp::CheckpointOnline => 0x10,
            XlogOp::Noop => 0x20,
            XlogOp::NextOid => 0x30,
            XlogOp::Switch => 0x40,
            XlogOp::BackupEnd => 0x50,
            XlogOp::ParameterChange => 0x60,
            XlogOp::RestorePoint => 0x70,
            XlogOp::FpwChange => 0x80,
            XlogOp::EndOfRecovery => 0x90,
            XlogOp::FpiForHint => 0xA0,
            XlogOp::Fpi => 0xB0,
            XlogOp::OverwriteContrecord => 0xD0,
            XlogOp::Unlisted(number) => number,
        }
    }

    /// Whether the main bytes hold its whole layout. An operation whose layout isn't read here is
    /// whole.
    pub fn is_whole(self, main: &[u8]) -> bool
        ensures { result ≡ xlog_is_whole self main.now }
    {
        match self {
            XlogOp::CheckpointShutdown | XlogOp::CheckpointOnline => read_checkpoint(
                main,
            ).is_some(),
            XlogOp::NextOid => NextOid::read(main).is_some(),
            XlogOp::BackupEnd => BackupEnd::read(main).is_some(),
            XlogOp::ParameterChange => ParameterChange::read(main).is_some(),
            XlogOp::RestorePoint => RestorePoint::read(main).is_some(),
            XlogOp::FpwChange => FpwChange::read(main).is_some(),
            XlogOp::EndOfRecovery => EndOfRecovery::read(main).is_some(),
            XlogOp::OverwriteContrecord => OverwriteContrecord::read(main).is_some(),
            XlogOp::Noop
            | XlogOp::Switch
            | XlogOp::FpiForHint
            | XlogOp::Fpi
            | XlogOp::Unlisted(_) => true,
        }
    }
}

/// What RESTORE_POINT says (`xl_restore_point`).
#[derive(Drop)]
pub struct RestorePoint<'a> {
    /// When it was made, in microseconds since 2000.
    pub time: i64,
    /// The 64 bytes of its name, which ends before their first zero.
    pub name: Bytes<'a>,
}

impl<'a> RestorePoint<'a> {
    /// The layout at the front of the main bytes, or `None` where there are fewer than 72.
    pub fn read(bytes: &'a [u8]) -> Option<RestorePoint<'a>>
        ensures { result ≡ restore_point_of bytes.now }
    {
        if bytes.len() < 72 {
            return None;
        }
        Some(RestorePoint {
            time: i64_at(bytes, 0),
            name: Bytes::new(&bytes[8..72]),
        })
    }
}

/// What NEXTOID says: object ids up to this one were taken from the log.
#[derive(Clone, Copy, Debug, PartialEq, Eq)]
pub struct NextOid {
    /// The first object id that is not yet taken.
    pub oid: u32,
}

impl NextOid {
    /// The layout at the front of the main bytes, or `None` where there are fewer than 4.
    pub fn read(bytes: &[u8]) -> Option<NextOid>
        ensures { result ≡ next_oid_of bytes.now }
    {
        if bytes.len() < 4 {
            return None;
        }
        Some(NextOid {
            oid: u32_at(bytes, 0),
        })
    }
}

/// What BACKUP_END says.
#[derive(Clone, Copy, Debug, PartialEq, Eq)]
pub struct BackupEnd {
    /// Where the backup began.
    pub start: Lsn,
}

impl BackupEnd {
    /// The layout at the front of the main bytes, or `None` where there are fewer than 8.
    pub fn read(bytes: &[u8]) -> Option<BackupEnd>
        ensures { result ≡ backup_end_of bytes.now }
    {
        if bytes.len() < 8 {
            return None;
        }
        Some(BackupEnd {
            start: lsn_at(bytes, 0),
        })
    }
}

/// What PARAMETER_CHANGE says: settings that a standby has to know (`xl_parameter_change`).
#[derive(Clone, Copy, Debug, PartialEq, Eq)]
pub struct ParameterChange {
    /// `max_connections`.
    pub max_connections: i32,
    /// `max_worker_processes`.
    pub max_workers: i32,
    /// `max_wal_senders`.
    pub max_senders: i32,
    /// `max_prepared_xacts`.
    pub max_prepared: i32,
    /// `max_locks_per_xact`.
    pub max_locks: i32,
    /// `wal_level`.
    pub wal_level: i32,
    /// `wal_log_hints`: 0 or 1, where a server wrote it.
    pub wal_log_hints: u8,
    /// `track_commit_timestamp`: 0 or 1, where a server wrote it.
    pub track_commit_ts: u8,
}

impl ParameterChange {
    /// The layout at the front of the main bytes, or `None` where there are fewer than 26.
    pub fn read(bytes: &[u8]) -> Option<ParameterChange>
        ensures { result ≡ parameter_change_of bytes.now }
    {
        if bytes.len() < 26 {
            return None;
        }
        Some(ParameterChange {
            max_connections: i32_at(bytes, 0),
            max_workers: i32_at(bytes, 4),
            max_senders: i32_at(bytes, 8),
            max_prepared: i32_at(bytes, 12),
            max_locks: i32_at(bytes, 16),
            wal_level: i32_at(bytes, 20),
            wal_log_hints: u8_at(bytes, 24),
            track_commit_ts: u8_at(bytes, 25),
        })
    }
}

/// What FPW_CHANGE says.
#[derive(Clone, Copy, Debug, PartialEq, Eq)]
pub struct FpwChange {
    /// Whether full-page images are written from here on: 0 or 1, where a server wrote it.
    pub fpw: u8,
}

impl FpwChange {
    /// The layout at the front of the main bytes, or `None` where there are fewer than 1.
    pub fn read(bytes: &[u8]) -> Option<FpwChange>
        ensures { result ≡ fpw_change_of bytes.now }
    {
        if bytes.len() < 1 {
            return None;
        }
        Some(FpwChange {
            fpw: u8_at(bytes, 0),
        })
    }
}

/// What END_OF_RECOVERY says (`xl_end_of_recovery`).
#[derive(Clone, Copy, Debug, PartialEq, Eq)]
pub struct EndOfRecovery {
    /// When recovery ended, in microseconds since 2000.
    pub time: i64,
    /// The timeline that begins here.
    pub tli: u32,
    /// The timeline before it.
    pub prev_tli: u32,
}

impl EndOfRecovery {
    /// The layout at the front of the main bytes, or `None` where there are fewer than 16.
    pub fn read(bytes: &[u8]) -> Option<EndOfRecovery>
        ensures { result ≡ end_of_recovery_of bytes.now }
    {
        if bytes.len() < 16 {
            return None;
        }
        Some(EndOfRecovery {
            time: i64_at(bytes, 0),
            tli: u32_at(bytes, 8),
            prev_tli: u32_at(bytes, 12),
        })
    }
}

/// What OVERWRITE_CONTRECORD says (`xl_overwrite_contrecord`).
#[derive(Clone, Copy, Debug, PartialEq, Eq)]
pub struct OverwriteContrecord {
    /// Where the record that was dropped starts.
    pub lsn: Lsn,
    /// When it was dropped, in microseconds since 2000.
    pub time: i64,
}

impl OverwriteContrecord {
    /// The layout at the front of the main bytes, or `None` where there are fewer than 16.
    pub fn read(bytes: &[u8]) -> Option<OverwriteContrecord>
        ensures { result ≡ overwrite_contrecord_of bytes.now }
    {
        if bytes.len() < 16 {
            return None;
        }
        Some(OverwriteContrecord {
            lsn: lsn_at(bytes, 0),
            time: i64_at(bytes, 8),
        })
    }
}
