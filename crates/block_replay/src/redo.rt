//! What is redone on the blocks of a record.

use block_refs::Parts;
use rmgr_hooks::Manager;
use wal_records::Record;

/// A record that is redone, with its parts, and the manager of an extension, where one is handed in.
#[derive(Drop)]
pub(crate) struct Redo<'a, M: Manager> {
    pub(crate) rec: &'a Record,
    pub(crate) parts: &'a Parts,
    pub(crate) custom: Option<&'a M>,
}
