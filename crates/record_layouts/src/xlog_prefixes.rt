//! What is there of layouts of the manager XLOG that need not be whole.

ghost use Rattle.std.specs.Prelude.{◌≡◌};
ghost use Rattle.record_layouts.specs.XlogPrefixes.{checkpoint_prefix_of, parameter_prefix_of};

use crate::fields::{i32_if, u8_if};

/// What is there of PARAMETER_CHANGE, also where its layout isn't whole: the fields of
/// `ParameterChange`.
#[derive(Clone, Copy, Debug, PartialEq, Eq)]
pub struct ParameterPrefix {
    /// `max_connections`.
    pub max_connections: Option<i32>,
    /// `max_worker_processes`.
    pub max_workers: Option<i32>,
    /// `max_wal_senders`.
    pub max_senders: Option<i32>,
    /// `max_prepared_xacts`.
    pub max_prepared: Option<i32>,
    /// `max_locks_per_xact`.
    pub max_locks: Option<i32>,
    /// `wal_level`.
    pub wal_level: Option<i32>,
    /// `wal_log_hints`.
    pub wal_log_hints: Option<u8>,
    /// `track_commit_timestamp`.
    pub track_commit_ts: Option<u8>,
}

impl ParameterPrefix {
    /// Each field whose bytes are there.
    pub fn read(bytes: &[u8]) -> ParameterPrefix
        ensures { result ≡ parameter_prefix_of bytes.now }
    {
        ParameterPrefix {
            max_connections: i32_if(bytes, 0),
            max_workers: i32_if(bytes, 4),
            max_senders: i32_if(bytes, 8),
            max_prepared: i32_if(bytes, 12),
            max_locks: i32_if(bytes, 16),
            wal_level: i32_if(bytes, 20),
            wal_log_hints: u8_if(bytes, 24),
            track_commit_ts: u8_if(bytes, 25),
        }
    }
}

/// What is there of a checkpoint, also where its layout isn't whole: of the fields of `Checkpoint` the
/// one whose value has a rule.
#[derive(Clone, Copy, Debug, PartialEq, Eq)]
pub struct CheckpointPrefix {
    /// Whether full-page images are written: 0 or 1, where a server wrote it.
    pub fpw: Option<u8>,
}

impl CheckpointPrefix {
    /// The field, if its byte is there.
    pub fn read(bytes: &[u8]) -> CheckpointPrefix
        ensures { result ≡ checkpoint_prefix_of bytes.now }
    {
        CheckpointPrefix {
            fpw: u8_if(bytes, 16),
        }
    }
}
