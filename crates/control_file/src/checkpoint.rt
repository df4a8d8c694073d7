//! What a checkpoint says.

/// What a checkpoint says: the copy in a control file, and the main bytes of a checkpoint record.
#[derive(Clone, Copy, Debug, PartialEq, Eq)]
pub struct Checkpoint {
    /// The position from which a replay after this checkpoint starts.
    pub redo: u64,
    /// The timeline that the checkpoint was made on.
    pub tli: u32,
    /// The timeline before this one, or this one where the checkpoint begins none.
    pub prevTli: u32,
    /// Whether full-page images are written: 0 or 1.
    pub fpw: u8,
    /// The next transaction id, with its epoch in the high half.
    pub nextXid: u64,
    /// The next object id.
    pub nextOid: u32,
    /// The next multixact id.
    pub nextMulti: u32,
    /// The next place in the members of multixacts.
    pub nextMultiOffset: u32,
    /// The oldest transaction id that may stand unfrozen in the cluster.
    pub oldestXid: u32,
    /// The database that holds it.
    pub oldestXidDb: u32,
    /// The oldest multixact id that may stand in the cluster.
    pub oldestMulti: u32,
    /// The database that holds it.
    pub oldestMultiDb: u32,
    /// When the checkpoint was made, in seconds since 1970.
    pub time: i64,
    /// The oldest transaction id with a commit time, or 0.
    pub oldestCommitTs: u32,
    /// The newest transaction id with a commit time, or 0.
    pub newestCommitTs: u32,
    /// The oldest transaction id that was running, or 0 where that wasn't kept.
    pub oldestActiveXid: u32,
}
