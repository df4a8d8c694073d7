// What was changed since the last sync.
ghost use Rattle.std.specs.Prelude.{[]};
ghost use Rattle.cluster_tree.specs.Tree.{RefusesOnly};

use cluster_tree::{Path, TreeFault};
use std::alloc::{AllocError, Global};
use std::collections::BTreeSet;
use std::fs::File;
use std::io;
use std::io::ErrorKind;
use std::rt::Files;

/// The texts of the files and folders that were changed since the last sync.
#[derive(Drop)]
pub(crate) struct Changed {
    texts: BTreeSet<String>,
}

// The text of the first `count` parts of a path.
fn text_of(alloc: Global, path: &Path, count: usize) -> Result<String, AllocError> {
    let mut text = String::from_str(alloc, if path.is_absolute() { "/" } else { "." })?;
    for at in 0..count {
        if let Some(part) = path.part(at) {
            text.push('/')?;
            text.push_str(part)?;
        }
    }
    Ok(text)
}

// Makes what stands at a path of this text durable, if it is still there.
fn sync_one<R: Files<File = File>>(rt: &R, text: &str) -> io::Result<()> {
    match File::open(rt, text) {
        Ok(file) => file.sync_all(),
        Err(error) if error.kind() == ErrorKind::NotFound => Ok(()),
        Err(error) => Err(error),
    }
}

impl Changed {
    pub(crate) fn new(alloc: Global) -> Changed {
        Changed {
            texts: BTreeSet::new(alloc),
        }
    }

    fn add(&mut self, alloc: Global, path: &Path, count: usize) -> Result<(), AllocError> {
        self.texts.insert(text_of(alloc, path, count)?)?;
        Ok(())
    }

    /// Remembers that the file at a path is going to be changed.
    pub(crate) fn note(&mut self, alloc: Global, path: &Path) -> Result<(), TreeFault>
        ensures { RefusesOnly [] result }
    {
        match self.add(alloc, path, path.len()) {
            Ok(()) => Ok(()),
            Err(_) => Err(TreeFault::Failed),
        }
    }

    /// Remembers that an entry is going to be made or removed at a path: it and its folder change.
    pub(crate) fn note_entry(&mut self, alloc: Global, path: &Path) -> Result<(), TreeFault>
        ensures { RefusesOnly [] result }
    {
        self.note(alloc, path)?;
        match self.add(alloc, path, path.len().saturating_sub(1)) {
            Ok(()) => Ok(()),
            Err(_) => Err(TreeFault::Failed),
        }
    }

    /// Makes all that was changed durable, the entries of folders too. After a failure all of it is
    /// still to be made so.
    pub(crate) fn sync<R: Files<File = File>>(&mut self, rt: &R) -> Result<(), TreeFault>
        ensures { RefusesOnly [] result }
    {
        for text in self.texts.iter() {
            if sync_one(rt, text.as_str()).is_err() {
                return Err(TreeFault::Failed);
            }
        }
        self.texts.clear();
        Ok(())
    }
}
