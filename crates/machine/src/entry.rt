// Which file of the machine a file is.
use std::fs::{File, Metadata};
use std::os::unix::fs::MetadataExt;
use std::rt::Files;
use std::{fs, io};

/// The numbers by which the system knows a file. No other file has them while it is open.
#[derive(Clone, Copy, PartialEq, Eq)]
pub(crate) struct Entry {
    device: u64,
    number: u64,
}

fn entry_of(found: &Metadata) -> Entry {
    Entry {
        device: found.dev(),
        number: found.ino(),
    }
}

impl Entry {
    /// That of an open file.
    pub(crate) fn of(file: &File) -> io::Result<Entry> {
        Ok(entry_of(&file.metadata()?))
    }

    // No file has the number 0, which a system says that knows none.
    fn is_that_of(self, found: &Metadata) -> bool {
        found.is_file() && self.number != 0 && entry_of(found) == self
    }

    /// The size of the file with these numbers, where it stands at a path of this text.
    pub(crate) fn size_at<R: Files>(self, rt: &R, text: &str) -> Option<u64> {
        match fs::symlink_metadata(rt, text) {
            Ok(found) if self.is_that_of(&found) => Some(found.len()),
            _ => None,
        }
    }
}
