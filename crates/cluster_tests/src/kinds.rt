//! What stands at a path, as a text.
use crate::texts::long;
use file_walk::EntryKind;
use std::process::Abort;

/// What a text says that stands somewhere: nothing, a folder, or a file of so many bytes.
pub(crate) fn kind_of<R: Abort>(rt: &R, text: &str) -> Option<EntryKind> {
    match text {
        "-" => None,
        "/" => Some(EntryKind::Folder),
        size => Some(EntryKind::File(long(rt, size))),
    }
}
