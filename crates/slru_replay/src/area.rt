// The areas of transaction status and of multixacts.

/// An area of status or of multixacts: a folder of files of 32 pages each.
#[derive(Clone, Copy, Debug, PartialEq, Eq)]
pub enum Area {
    /// The status of transactions (pg_xact).
    Status,
    /// Where the members of each multixact begin (pg_multixact/offsets).
    Offsets,
    /// The members of multixacts (pg_multixact/members).
    Members,
}
