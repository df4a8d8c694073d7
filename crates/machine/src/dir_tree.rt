// The machine's files as a tree, which tells no contents.
ghost use Rattle.std.specs.Prelude.{◌≡◌, ◌∷◌, []};
ghost use Rattle.cluster_tree.specs.Tree.{Counts, RefusesOnly, file_faults, make_faults, range_faults, remove_faults};

use crate::changed::Changed;
use crate::kept::Kept;
use crate::listing::list_at;
use crate::opened::{Access, Opened};
use crate::removing::remove_at;
use crate::seen::{Seen, check_room, seen_at};
use cluster_tree::{Kind, Names, Path, Tree, TreeFault};
use std::alloc::Global;
use std::fs::{DirBuilder, File};
use std::io;
use std::io::ErrorKind;
use std::os::unix::fs::DirBuilderExt;
use std::rt::Files;

// A folder is its owner's alone, as PostgreSQL makes it.
const FOLDER_MODE: u32 = 0o700;

/// The machine's files. Paths that are not absolute begin in the current folder.
///
/// It keeps the files that were used last open, reads and writes by position, and looks at each part
/// of a path before it opens it, so that it follows no link that was there; a change between the
/// look and the opening is outside what is claimed. The file of the last read or write is used again
/// without a look, and another that is open where it is at its path still. It remembers what was
/// changed since the last sync, which a sync makes durable, the entries of folders too. Want of memory
/// counts as a failure, but for `list`.
#[derive(Drop)]
pub struct DirTree<R> {
    rt: R,
    alloc: Global,
    kept: Kept,
    changed: Changed,
    failed_reads: u64,
    failed_changes: u64,
}

// The answer, with a failure counted.
fn counted<T>(failed: &mut u64, answer: Result<T, TreeFault>) -> Result<T, TreeFault>
    ensures same { result ≡ answer }
    ensures counts { Counts (λ n. n) (λ _. 0) failed.old failed.new result }
{
    if let Err(TreeFault::Failed) = &answer {
        *failed = failed.saturating_add(1);
    }
    answer
}

impl<R: Files<File = File> + AllocGlobal + Clone + Drop> DirTree<R> {
    /// The files that the runtime reaches.
    pub fn new(rt: R, alloc: Global) -> DirTree<R> {
        DirTree {
            rt,
            alloc,
            kept: Kept::new(alloc),
            changed: Changed::new(alloc),
            failed_reads: 0,
            failed_changes: 0,
        }
    }
}

// What stands at a path, as a kind.
fn kind_at<R: Files>(rt: &R, alloc: Global, path: &Path) -> Result<Kind, TreeFault>
    ensures { RefusesOnly (TreeFault.Link ∷ []) result }
{
    match seen_at(rt, alloc, path, path.len())? {
        Seen::Absent => Ok(Kind::Absent),
        Seen::File(_) => Ok(Kind::File),
        Seen::Folder => Ok(Kind::Folder),
        Seen::Link => Err(TreeFault::Link),
    }
}

// Fills `into` from the file that is kept open.
fn read_kept(kept: &Kept, at: u64, into: &mut [u8]) -> Result<(), TreeFault>
    ensures { RefusesOnly (TreeFault.PastEnd ∷ []) result }
{
    match kept.last() {
        Some(opened) => opened.read(at, into),
        None => Err(TreeFault::Failed),
    }
}

// Writes to the file that is kept open.
fn write_kept(kept: &Kept, at: u64, bytes: &[u8]) -> Result<(), TreeFault>
    ensures { RefusesOnly (TreeFault.PastEnd ∷ []) result }
{
    match kept.last() {
        Some(opened) => opened.write(at, bytes),
        None => Err(TreeFault::Failed),
    }
}

// Cuts the file that is kept open.
fn cut_kept(kept: &Kept, size: u64) -> Result<(), TreeFault>
    ensures { RefusesOnly (TreeFault.PastEnd ∷ []) result }
{
    match kept.last() {
        Some(opened) => opened.cut(size),
        None => Err(TreeFault::Failed),
    }
}

// Keeps the file at a path open for writing, and remembers that it is going to be changed.
fn keep_changed<R: Files<File = File>>(
    rt: &R,
    alloc: Global,
    kept: &mut Kept,
    changed: &mut Changed,
    path: &Path,
) -> Result<(), TreeFault>
    ensures { RefusesOnly file_faults result }
{
    kept.open(rt, alloc, path, Access::Write)?;
    changed.note(alloc, path)
}

// Removes the entry at a path, and remembers that it was there.
fn remove_noted<R: Files>(
    rt: &R,
    alloc: Global,
    changed: &mut Changed,
    path: &Path,
) -> Result<(), TreeFault>
    ensures { RefusesOnly remove_faults result }
{
    changed.note_entry(alloc, path)?;
    remove_at(rt, alloc, path)
}

fn create_folder<R: Files>(rt: &R, alloc: Global, path: &Path) -> io::Result<()> {
    let text = format!(in alloc; "{path}")?;
    let mut builder = DirBuilder::new();
    builder.mode(FOLDER_MODE);
    builder.create(rt, text.as_str())
}

// Makes a folder where there is room for it.
fn folder_at<R: Files>(
    rt: &R,
    alloc: Global,
    changed: &mut Changed,
    path: &Path,
) -> Result<(), TreeFault>
    ensures { RefusesOnly make_faults result }
{
    check_room(rt, alloc, path)?;
    changed.note_entry(alloc, path)?;
    match create_folder(rt, alloc, path) {
        Ok(()) => Ok(()),
        Err(error) if error.kind() == ErrorKind::AlreadyExists => Err(TreeFault::Exists),
        Err(_) => Err(TreeFault::Failed),
    }
}

// Makes an empty file where there is room for it, and keeps it open.
fn make<R: Files<File = File>>(
    rt: &R,
    alloc: Global,
    kept: &mut Kept,
    changed: &mut Changed,
    path: &Path,
) -> Result<(), TreeFault>
    ensures { RefusesOnly make_faults result }
{
    check_room(rt, alloc, path)?;
    changed.note_entry(alloc, path)?;
    kept.make_room()?;
    kept.add(Opened::make(rt, alloc, path)?)
}

impl<R: Files<File = File> + AllocGlobal + Clone + Drop> Tree for DirTree<R> {
    ghost use Rattle.std.specs.Prelude.{false, []};
    ghost use Rattle.std.specs.FinMap.{empty};
    ghost use Rattle.cluster_tree.specs.Untold.{untold};

    ghost tells = { false };

    ghost contents = { λ t. empty };

    ghost calls = { λ t. [] };

    ghost failed_reads = { λ t. t.failed_reads };

    ghost failed_changes = { λ t. t.failed_changes };

    ghost is_tree = { λ told t. untold told };

    fn kind(&mut self, path: &Path) -> Result<Kind, TreeFault> {
        let answer = kind_at(&self.rt, self.alloc, path);
        counted(&mut self.failed_reads, answer)
    }

    fn list(&mut self, alloc: Global, path: &Path) -> Result<Names, TreeFault> {
        let answer = list_at(&self.rt, alloc, path);
        counted(&mut self.failed_reads, answer)
    }

    fn size(&mut self, path: &Path) -> Result<u64, TreeFault> {
        let answer = self.kept.size(&self.rt, self.alloc, path);
        counted(&mut self.failed_reads, answer)
    }

    fn read_at(&mut self, path: &Path, at: u64, into: &mut [u8]) -> Result<(), TreeFault> {
        let answer = match self.kept.open(&self.rt, self.alloc, path, Access::Read) {
            Ok(()) => read_kept(&self.kept, at, into),
            Err(fault) => Err(fault),
        };
        counted(&mut self.failed_reads, answer)
    }

    fn write_at(&mut self, path: &Path, at: u64, bytes: &[u8]) -> Result<(), TreeFault> {
        let kept = &mut self.kept;
        let answer = match keep_changed(&self.rt, self.alloc, kept, &mut self.changed, path) {
            Ok(()) => write_kept(&self.kept, at, bytes),
            Err(fault) => Err(fault),
        };
        counted(&mut self.failed_changes, answer)
    }

    fn cut(&mut self, path: &Path, size: u64) -> Result<(), TreeFault> {
        let kept = &mut self.kept;
        let answer = match keep_changed(&self.rt, self.alloc, kept, &mut self.changed, path) {
            Ok(()) => cut_kept(&self.kept, size),
            Err(fault) => Err(fault),
        };
        counted(&mut self.failed_changes, answer)
    }

    fn make_file(&mut self, path: &Path) -> Result<(), TreeFault> {
        let kept = &mut self.kept;
        let answer = make(&self.rt, self.alloc, kept, &mut self.changed, path);
        counted(&mut self.failed_changes, answer)
    }

    fn make_folder(&mut self, path: &Path) -> Result<(), TreeFault> {
        let answer = folder_at(&self.rt, self.alloc, &mut self.changed, path);
        counted(&mut self.failed_changes, answer)
    }

    fn remove(&mut self, path: &Path) -> Result<(), TreeFault> {
        self.kept.close();
        let answer = remove_noted(&self.rt, self.alloc, &mut self.changed, path);
        counted(&mut self.failed_changes, answer)
    }

    fn sync(&mut self) -> Result<(), TreeFault> {
        let answer = self.changed.sync(&self.rt);
        counted(&mut self.failed_changes, answer)
    }
}
