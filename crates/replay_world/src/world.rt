//! What a replay keeps beside the files.

use block_replay::Skipped;
use control_file::Control;
use storage_replay::Files;

/// What a replay keeps beside a cluster's files.
#[derive(Drop)]
pub struct Replaying {
    /// Where the files of relations are, and how many blocks one holds.
    pub files: Files,
    /// The control file as it is to be written: the checkpoint and the settings so far.
    pub control: Control,
    /// The names of blocks whose change was skipped, and which weren't taken away since.
    pub skipped: Skipped,
}
