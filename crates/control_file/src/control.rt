//! What a control file says.

use crate::checkpoint::Checkpoint;

/// What a control file says, all but its CRC.
#[derive(Clone, Copy, Debug, PartialEq, Eq)]
pub struct Control {
    /// The number that tells clusters apart; a copy of a cluster has the same.
    pub sysid: u64,
    /// The version of the control file's layout: 1300 in PostgreSQL 16.
    pub version: u32,
    /// The version of the system catalogs: 202307071 in PostgreSQL 16.
    pub catalog: u32,
    /// The state of the cluster: 0 starting up, 1 shut down, 2 shut down in recovery, 3 shutting
    /// down, 4 in crash recovery, 5 in archive recovery, 6 in production.
    pub state: u32,
    /// When the file was last written, in seconds since 1970.
    pub time: i64,
    /// The position of the last checkpoint's record.
    pub checkPoint: u64,
    /// A copy of that checkpoint.
    pub cp: Checkpoint,
    /// A counter that stands for positions in unlogged relations.
    pub unloggedLsn: u64,
    /// A replay must reach this position before the cluster is consistent, or 0.
    pub minRecoveryPoint: u64,
    /// The timeline of that position, or 0.
    pub minRecoveryPointTli: u32,
    /// Where the backup began that a recovery runs from, or 0.
    pub backupStart: u64,
    /// Where that backup ended, for one made from a standby, or 0.
    pub backupEnd: u64,
    /// Whether the record that ends a backup must come before the cluster is consistent: 0 or 1.
    pub endRequired: u8,
    /// The setting `wal_level`: 0 minimal, 1 replica, 2 logical.
    pub walLevel: u32,
    /// The setting `wal_log_hints`: 0 or 1.
    pub walLogHints: u8,
    /// The setting `max_connections`.
    pub maxConnections: u32,
    /// The setting `max_worker_processes`.
    pub maxWorkers: u32,
    /// The setting `max_wal_senders`.
    pub maxSenders: u32,
    /// The setting `max_prepared_transactions`.
    pub maxPrepared: u32,
    /// The setting `max_locks_per_transaction`.
    pub maxLocks: u32,
    /// The setting `track_commit_timestamp`: 0 or 1.
    pub trackCommitTs: u8,
    /// To how many bytes data are aligned: 8.
    pub maxAlign: u32,
    /// The bytes of the float 1234567.0: 4132D68700000000.
    pub floatFormat: u64,
    /// The bytes of a block of data: 8192.
    pub blcksz: u32,
    /// How many blocks one file of a relation holds.
    pub relseg: u32,
    /// The bytes of a page of the log: 8192.
    pub walBlcksz: u32,
    /// The bytes of a segment of the log: a power of two from 2^20 to 2^30.
    pub walSegSize: u32,
    /// The bytes of a name in the catalogs, with the zero that ends it.
    pub nameLen: u32,
    /// How many columns an index may have.
    pub indexKeys: u32,
    /// The bytes of a chunk of a large value that is kept out of its row.
    pub toastChunk: u32,
    /// The bytes of a chunk of a large object.
    pub loBlock: u32,
    /// Whether a float of eight bytes is passed by value: 0 or 1.
    pub float8ByVal: u8,
    /// The version of the checksums on data pages, or 0 where there are none.
    pub checksumVersion: u32,
    /// Random bytes for authentications that are to fail.
    pub nonce: [u8; 32],
}

impl Control {
    ghost use Rattle.std.specs.Prelude.{◌≡◌};
    ghost use Rattle.control_file.specs.Reading.{timeline_of};

    /// The cluster's timeline: the greater of the minimum recovery point's and the checkpoint's.
    pub fn timeline(&self) -> u32
        ensures { result ≡ timeline_of self.now }
    {
        self.minRecoveryPointTli.max(self.cp.tli)
    }
}
