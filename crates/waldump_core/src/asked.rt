//! What a walk over a log is asked for.

use crate::selection::Selection;
use rmgr_hooks::Manager;
use wal_base::SegSize;

/// What a walk over a log is asked for, how long its segments are, and the manager of an extension, where
/// one is handed in.
#[derive(Drop)]
pub struct Asked<'a, M: Manager> {
    pub sel: Selection,
    pub size: SegSize,
    pub custom: Option<&'a M>,
}
