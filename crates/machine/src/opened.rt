// An open file.
ghost use Rattle.std.specs.Prelude.{◌≡◌, ◌∷◌, []};
ghost use Rattle.cluster_tree.specs.Tree.{RefusesOnly, file_faults};

use crate::entry::Entry;
use crate::seen::size_at;
use cluster_tree::{Path, TreeFault};
use std::alloc::Global;
use std::fs::{File, OpenOptions};
use std::io;
use std::io::ErrorKind;
use std::os::unix::fs::{FileExt, OpenOptionsExt};
use std::rt::Files;

// A file is its owner's alone, as PostgreSQL makes it.
const FILE_MODE: u32 = 0o600;

// The greatest offset that the system takes.
const MAX_OFFSET: u64 = 0x7FFF_FFFF_FFFF_FFFF;

/// What a file is opened for.
#[derive(Clone, Copy, PartialEq, Eq)]
pub(crate) enum Access {
    Read,
    Write,
}

/// An open file, with its path, the path's text, what it was opened for, and which file it is.
#[derive(Drop)]
pub(crate) struct Opened {
    path: Path,
    text: String,
    access: Access,
    file: File,
    entry: Entry,
}

fn last_part(path: &Path) -> Option<&str> {
    path.part(path.len().saturating_sub(1))
}

// The last parts are compared first: most paths differ there.
fn same_path(a: &Path, b: &Path) -> bool {
    a.len() == b.len() && last_part(a) == last_part(b) && a.holds(b)
}

impl Opened {
    /// Whether it was opened at this path.
    pub(crate) fn is_at(&self, path: &Path) -> bool {
        same_path(&self.path, path)
    }

    /// Whether it may be used so.
    pub(crate) fn serves(&self, access: Access) -> bool {
        self.access == Access::Write || access == Access::Read
    }

    /// Its size, where it is at its path still. The system knows it by its numbers, which no other file
    /// has while it is open; so where a link was put on the way, it leads to this very file.
    pub(crate) fn size_there<R: Files>(&self, rt: &R) -> Option<u64> {
        self.entry.size_at(rt, self.text.as_str())
    }

    // Memory is taken before the file is opened, which may make it.
    fn by<R: Files<File = File>>(
        rt: &R,
        alloc: Global,
        path: &Path,
        access: Access,
        options: &OpenOptions,
    ) -> io::Result<Opened> {
        let text = format!(in alloc; "{path}")?;
        let Ok(path) = path.copy(alloc) else {
            return Err(ErrorKind::OutOfMemory.into());
        };
        let file = options.open(rt, text.as_str())?;
        let entry = Entry::of(&file)?;
        Ok(Opened {
            path,
            text,
            access,
            file,
            entry,
        })
    }

    fn open<R: Files<File = File>>(
        rt: &R,
        alloc: Global,
        path: &Path,
        access: Access,
    ) -> io::Result<Opened> {
        let mut options = OpenOptions::new();
        options.read(true).write(access == Access::Write);
        Opened::by(rt, alloc, path, access, &options)
    }

    /// Opens the file at a path, of which each part was looked at before.
    pub(crate) fn new<R: Files<File = File>>(
        rt: &R,
        alloc: Global,
        path: &Path,
        access: Access,
    ) -> Result<Opened, TreeFault>
        ensures { RefusesOnly file_faults result }
    {
        size_at(rt, alloc, path)?;
        match Opened::open(rt, alloc, path, access) {
            Ok(opened) => Ok(opened),
            Err(_) => Err(TreeFault::Failed),
        }
    }

    fn create<R: Files<File = File>>(rt: &R, alloc: Global, path: &Path) -> io::Result<Opened> {
        let mut options = OpenOptions::new();
        options.read(true).write(true).create_new(true);
        options.mode(FILE_MODE);
        Opened::by(rt, alloc, path, Access::Write, &options)
    }

    /// Makes an empty file where there was room for it.
    pub(crate) fn make<R: Files<File = File>>(
        rt: &R,
        alloc: Global,
        path: &Path,
    ) -> Result<Opened, TreeFault>
        ensures { RefusesOnly (TreeFault.Exists ∷ []) result }
    {
        match Opened::create(rt, alloc, path) {
            Ok(opened) => Ok(opened),
            Err(error) if error.kind() == ErrorKind::AlreadyExists => Err(TreeFault::Exists),
            Err(_) => Err(TreeFault::Failed),
        }
    }

    fn is_past_end(&self, at: u64) -> io::Result<bool> {
        Ok(at > self.file.metadata()?.len())
    }

    /// Fills `into` from the offset `at` on.
    pub(crate) fn read(&self, at: u64, into: &mut [u8]) -> Result<(), TreeFault>
        ensures { RefusesOnly (TreeFault.PastEnd ∷ []) result }
    {
        if at > MAX_OFFSET {
            return Err(TreeFault::PastEnd);
        }
        if into.is_empty() {
            return match self.is_past_end(at) {
                Ok(false) => Ok(()),
                Ok(true) => Err(TreeFault::PastEnd),
                Err(_) => Err(TreeFault::Failed),
            };
        }
        match self.file.read_exact_at(into, at) {
            Ok(()) => Ok(()),
            Err(error) if error.kind() == ErrorKind::UnexpectedEof => Err(TreeFault::PastEnd),
            Err(_) => Err(TreeFault::Failed),
        }
    }

    /// Writes all of `bytes` from the offset `at` on.
    pub(crate) fn write(&self, at: u64, bytes: &[u8]) -> Result<(), TreeFault>
        ensures { RefusesOnly (TreeFault.PastEnd ∷ []) result }
    {
        match self.is_past_end(at) {
            Ok(false) => {}
            Ok(true) => return Err(TreeFault::PastEnd),
            Err(_) => return Err(TreeFault::Failed),
        }
        match self.file.write_all_at(bytes, at) {
            Ok(()) => Ok(()),
            Err(_) => Err(TreeFault::Failed),
        }
    }

    /// Cuts the file to this size.
    pub(crate) fn cut(&self, size: u64) -> Result<(), TreeFault>
        ensures { RefusesOnly (TreeFault.PastEnd ∷ []) result }
    {
        match self.is_past_end(size) {
            Ok(false) => {}
            Ok(true) => return Err(TreeFault::PastEnd),
            Err(_) => return Err(TreeFault::Failed),
        }
        match self.file.set_len(size) {
            Ok(()) => Ok(()),
            Err(_) => Err(TreeFault::Failed),
        }
    }
}
