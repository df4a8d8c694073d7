//! Checkpoint records.

ghost use Rattle.std.specs.Prelude.{◌≡◌, ◌≢◌, Err, IfOk};
ghost use Rattle.log_walk.specs.Checkpoint.{checkpoint_in, is_checkpoint};

use crate::fault::LogWalkFault;
use block_refs::split_record;
use control_file::{Checkpoint, read_checkpoint};
use record_layouts::{Operation, XlogOp};
use wal_base::Lsn;
use wal_records::Record;

/// The last checkpoint that two clusters have in common.
#[derive(Clone, Copy, Debug, PartialEq, Eq)]
pub struct CommonCheckpoint {
    /// Where its record starts.
    pub start: Lsn,
    /// What the record says: its redo and its timeline among others.
    pub checkpoint: Checkpoint,
}

/// Whether a record is a checkpoint's: one at a shutdown, or any other.
pub(crate) fn is_checkpoint(rec: &Record) -> bool
    ensures { result ≡ is_checkpoint rec.now }
{
    let header = rec.header();
    match Operation::of(header.manager, header.info) {
        Operation::Xlog(XlogOp::CheckpointShutdown | XlogOp::CheckpointOnline) => true,
        _ => false,
    }
}

/// What a checkpoint record says.
#[tactic(auto, unfolding(crate::specs::Checkpoint::checkpoint_in))]
pub(crate) fn checkpoint_in(rec: &Record) -> Result<CommonCheckpoint, LogWalkFault>
    ensures exact { result ≡ checkpoint_in rec.now }
    ensures start { IfOk result (λ found. found.start.0 ≡ rec.now.start) }
    ensures unread { result ≢ Err LogWalkFault.ReadFault }
{
    let parts = split_record(rec)?;
    let start = rec.start();
    match read_checkpoint(parts.main_bytes(rec)) {
        Some(checkpoint) => Ok(CommonCheckpoint { start, checkpoint }),
        None => Err(LogWalkFault::BadParts(start, rec.body().len() as u32)),
    }
}
