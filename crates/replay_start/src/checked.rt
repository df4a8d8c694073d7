// What passed every check.
use backup_label::LabelPlaces;
use control_file::Control;
use wal_base::Lsn;
use wal_records::RecordCursor;

/// A cluster that passed every check of a replay.
#[derive(Drop)]
pub struct Checked {
    /// What its control file says.
    pub control: Control,
    /// Where its label says that replay starts.
    pub label: LabelPlaces,
    /// Where its log ends.
    pub end: Lsn,
    /// A cursor over its log, which was read to its end.
    pub cursor: RecordCursor,
}
