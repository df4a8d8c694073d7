// The files that were used last, which stay open.
ghost use Rattle.std.specs.Prelude.{[]};
ghost use Rattle.cluster_tree.specs.Tree.{RefusesOnly, file_faults};

use crate::opened::{Access, Opened};
use crate::seen::size_at;
use cluster_tree::{Path, TreeFault};
use std::alloc::{AllocError, Global};
use std::fs::File;
use std::rt::Files;

// How many files stay open.
const ROOM: usize = 16;

/// Open files, in the order of their last use.
#[derive(Drop)]
pub(crate) struct Kept {
    files: Vec<Opened>,
}

impl Kept {
    pub(crate) fn new(alloc: Global) -> Kept {
        Kept {
            files: Vec::new(alloc),
        }
    }

    // The open file of a path, taken out.
    fn take(&mut self, path: &Path) -> Option<Opened> {
        for at in (0..self.files.len()).rev() {
            if let Some(opened) = self.files.get(at)
                && opened.is_at(path)
            {
                return Some(self.files.remove(at));
            }
        }
        None
    }

    fn evict(&mut self) -> Result<(), AllocError> {
        if self.files.len() >= ROOM {
            self.files.remove(0);
        }
        self.files.reserve(1)
    }

    /// Makes room for one more file, in the place of the one that wasn't used for the longest time.
    pub(crate) fn make_room(&mut self) -> Result<(), TreeFault>
        ensures { RefusesOnly [] result }
    {
        match self.evict() {
            Ok(()) => Ok(()),
            Err(_) => Err(TreeFault::Failed),
        }
    }

    /// The file that was used last.
    pub(crate) fn last(&self) -> Option<&Opened> {
        self.files.last()
    }

    /// Keeps a file open, for which there is room, as the one that was used last.
    pub(crate) fn add(&mut self, opened: Opened) -> Result<(), TreeFault>
        ensures { RefusesOnly [] result }
    {
        match self.files.push(opened) {
            Ok(()) => Ok(()),
            Err(_) => Err(TreeFault::Failed),
        }
    }

    // Whether the file that was used last is this one, and may be used so.
    fn is_last(&self, path: &Path, access: Access) -> bool {
        match self.last() {
            Some(opened) => opened.serves(access) && opened.is_at(path),
            None => false,
        }
    }

    /// Makes the file at a path the one that was used last, open for this access. Unless it was
    /// already, it has to be at that path still, or else it is opened again.
    pub(crate) fn open<R: Files<File = File>>(
        &mut self,
        rt: &R,
        alloc: Global,
        path: &Path,
        access: Access,
    ) -> Result<(), TreeFault>
        ensures { RefusesOnly file_faults result }
    {
        if self.is_last(path, access) {
            return Ok(());
        }
        let opened = match self.take(path) {
            Some(opened) if opened.serves(access) && opened.size_there(rt).is_some() => opened,
            _ => Opened::new(rt, alloc, path, access)?,
        };
        self.make_room()?;
        self.add(opened)
    }

    /// The size of the file at a path, or why there is none.
    pub(crate) fn size<R: Files>(
        &self,
        rt: &R,
        alloc: Global,
        path: &Path,
    ) -> Result<u64, TreeFault>
        ensures { RefusesOnly file_faults result }
    {
        for opened in self.files.iter().rev() {
            if opened.is_at(path)
                && let Some(size) = opened.size_there(rt)
            {
                return Ok(size);
            }
        }
        size_at(rt, alloc, path)
    }

    /// Closes all files.
    pub(crate) fn close(&mut self) {
        self.files.clear();
    }
}
