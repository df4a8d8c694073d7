// What the words of pg_waldump ask for.
use block_refs::{Fork, RelName};
use cluster_tree::Path;
use wal_base::{Lsn, Text};

/// What `pg_waldump` is asked to do.
#[derive(Drop)]
pub enum WaldumpWords {
    /// To print the names of the resource managers (`-r list`).
    Managers,
    /// To dump a log.
    Dump(DumpWords),
}

/// What a dump of a log is asked for. It has a start, or a segment to begin with.
#[derive(Drop)]
pub struct DumpWords {
    /// The folder that holds the log, or a cluster: that of `-p`, else what STARTSEG has before its
    /// last slash, else the current folder. Where `read_command` of tool_words made it, it has at most
    /// 62 parts.
    pub folder: Path,
    /// The name of the segment that the dump begins with, the last part of STARTSEG: 24 digits 0 to
    /// 9 and A to F.
    pub first: Option<Text>,
    /// The name of the segment that the dump ends with, the last part of ENDSEG, in the same form.
    pub last: Option<Text>,
    /// The position where the dump begins (`-s`).
    pub start: Option<Lsn>,
    /// The position where it ends (`-e`).
    pub stop: Option<Lsn>,
    /// The timeline of the log (`-t`).
    pub timeline: Option<u32>,
    /// Which records are shown, and how.
    pub filters: Filters,
}

/// Which records are shown, and how. A record is shown where it meets each filter that is given.
#[derive(Clone, Copy, Debug, PartialEq, Eq)]
pub struct Filters {
    /// The number of records after which the dump ends; 0 is no limit (`-n`).
    pub limit: u64,
    /// Whether each block reference gets a line of its own (`-b`).
    pub details: bool,
    /// Whether nothing is shown (`-q`).
    pub quiet: bool,
    /// Whether only records with a full-page image are shown (`-w`).
    pub images_only: bool,
    /// The number of the resource manager whose records are shown (`-r`).
    pub manager: Option<u8>,
    /// The relation to which they refer (`-R`).
    pub rel: Option<RelName>,
    /// The number of the block to which they refer, only given with a relation (`-B`).
    pub block: Option<u32>,
    /// The fork to which they refer (`-F`).
    pub fork: Option<Fork>,
    /// The transaction to which they belong (`-x`).
    pub xid: Option<u32>,
}
