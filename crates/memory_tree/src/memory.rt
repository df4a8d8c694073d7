// A tree in memory, which tells its contents.
ghost use Rattle.std.specs.Prelude.{◌≡◌, ◌≤◌, [], length, true, slice_get, Ok, Err, IfOk, OnOk, OnErr};
ghost use Rattle.std.specs.Option.{option_copied};
ghost use Rattle.std.specs.FinMap.{empty, insert};
ghost use Rattle.cluster_tree.specs.Causes.{Passes, Rose};
ghost use Rattle.cluster_tree.specs.Contents.{FolderEntry, LinkEntry, IsTree, entry_at};
ghost use Rattle.memory_tree.specs.Memory.{contents_of, stops_of, IsSound, IsSound-prop};
ghost use Rattle.cluster_tree.specs.Stops.{MayBeLeft, no_stops, synced_alone, with_synced};
ghost use Rattle.cluster_tree.specs.Tree.{make_refusal, refusal_in, HasFailed, Counts};

use crate::children::names_in;
use crate::copies::copy_nodes;
use crate::edits::{cut_in, put_file, put_folder, remove_in, set_synced, write_in};
use crate::filling::fill_all;
use crate::log::Log;
use crate::nodes::{
    Node, Placed, check_folder, check_free, check_listed, check_room, file_in, place_of,
};
use cluster_tree::{ChangeCall, Kind, Names, OutOfMemory, Path, Tree, TreeFault};
use std::alloc::Global;

/// A tree in memory, which tells its contents. Its space is its device: a changing call that finds
/// no memory fails. Its reads take no memory, and none fails.
#[derive(Drop)]
pub struct MemoryTree {
    alloc: Global,
    nodes: Vec<Placed>,
    log: Log,
    failed: u64,
    ghost sound: { IsSound (contents_of nodes.items) (stops_of log) } by { IsSound-prop _ _ },
}

impl MemoryTree {
    ghost use Rattle.memory_tree.specs.Fakes.{contents_in, calls_in, stops_in, failures_in, no_failures};
    ghost use Rattle.memory_tree.specs.Image.{filled, image_of};

    /// An empty tree, in which no changing call was made.
    pub fn new(alloc: Global) -> MemoryTree
        ensures empty { contents_in result ≡ empty }
        ensures uncalled { calls_in result ≡ [] }
        ensures still { stops_in result ≡ no_stops }
        ensures unfailed { failures_in result ≡ 0 }
    {
        MemoryTree {
            alloc,
            nodes: Vec::new(alloc),
            log: Log::new(alloc, Vec::new(alloc)),
            failed: 0,
        }
    }

    // A tree of these nodes, all of them synced.
    fn of(alloc: Global, nodes: Vec<Placed>) -> Result<MemoryTree, OutOfMemory>
        requires rooted { IsTree (contents_of nodes.items) }
        ensures same { IfOk result (λ tree. contents_in tree ≡ contents_of nodes.items) }
        ensures uncalled { IfOk result (λ tree. calls_in tree ≡ []) }
        ensures still { IfOk result (λ tree. stops_in tree ≡ synced_alone (contents_in tree)) }
        ensures unfailed { IfOk result (λ tree. failures_in tree ≡ 0) }
    {
        let synced = copy_nodes(alloc, &nodes)?;
        Ok(MemoryTree {
            alloc,
            nodes,
            log: Log::new(alloc, synced),
            failed: 0,
        })
    }

    // What was synced, after each call since, with each range that was written filled.
    fn filled(&self, alloc: Global) -> Result<MemoryTree, OutOfMemory>
        ensures { IfOk result (λ tree. contents_in tree ≡ filled (stops_in self.now).now) }
    {
        let mut tree = MemoryTree::of(alloc, copy_nodes(alloc, &self.log.now.synced)?)?;
        fill_all(alloc, &mut tree, &self.log.now.pending)?;
        Ok(tree)
    }

    /// An image that a stop may leave now, as a tree in which no changing call was made: for choice
    /// 0 what was synced last, for 1 the contents, and for every other choice the contents with each
    /// range that was written since filled by the byte A5.
    pub fn image(&self, alloc: Global, choice: u8) -> Result<MemoryTree, OutOfMemory>
        ensures left { IfOk result (λ tree. ∥ MayBeLeft (stops_in self.now) (contents_in tree) ∥₁) }
        ensures chosen { IfOk result (λ tree. contents_in tree ≡
            image_of choice (stops_in self.now).now (contents_in self.now)) }
        ensures uncalled { IfOk result (λ tree. calls_in tree ≡ []) }
        ensures still { IfOk result (λ tree. stops_in tree ≡ synced_alone (contents_in tree)) }
        ensures unfailed { IfOk result (λ tree. failures_in tree ≡ 0) }
    {
        let nodes = match choice {
            0 => copy_nodes(alloc, &self.log.now.synced)?,
            1 => copy_nodes(alloc, &self.nodes)?,
            _ => self.filled(alloc)?.nodes,
        };
        MemoryTree::of(alloc, nodes)
    }

    /// How many changing calls are in the list.
    pub fn changes(&self) -> usize
        ensures { result ≡ length (calls_in self.now) }
    {
        self.log.calls.len()
    }

    /// The changing call at a place of the list, counted from 0, or `None` at and past its length.
    pub fn change(&self, at: usize) -> Option<&ChangeCall>
        ensures { option_copied result ≡ slice_get (calls_in self.now) at }
    {
        self.log.calls.get(at)
    }

    /// Adds a link, with the refusals of `make_file`, and syncs. It is no changing call.
    pub fn add_link(&mut self, path: &Path) -> Result<(), TreeFault>
        ensures linked { OnOk result (contents_in self.new ≡ insert
            (contents_in self.old) path.now LinkEntry) }
        ensures refused { Passes HasFailed (make_refusal (contents_in self.old) path.now) result }
        ensures kept { OnErr result (contents_in self.new ≡ contents_in self.old) }
        ensures uncalled { calls_in self.new ≡ calls_in self.old }
        ensures synced { OnOk result (stops_in self.new ≡
            with_synced (contents_in self.new) (stops_in self.old)) }
        ensures unsynced { OnErr result (stops_in self.new ≡ stops_in self.old) }
        ensures cause { Counts failures_in no_failures self.old self.new result }
    {
        check_room(&self.nodes, path)?;
        let done = set_synced(self.alloc, &mut self.nodes, &mut self.log, path, Node::Link);
        counted(&mut self.failed, done)
    }

    /// Lets a folder hold a name that isn't UTF-8. Answers `Absent`, `NotFolder` or `Link` where no
    /// folder is there. It syncs, and is no changing call.
    pub fn add_bad_name(&mut self, folder: &Path) -> Result<(), TreeFault>
        ensures marked { OnOk result (contents_in self.new ≡ insert
            (contents_in self.old) folder.now (FolderEntry true)) }
        ensures refused { Passes HasFailed
            (refusal_in (entry_at (contents_in self.old) folder.now)) result }
        ensures kept { OnErr result (contents_in self.new ≡ contents_in self.old) }
        ensures uncalled { calls_in self.new ≡ calls_in self.old }
        ensures synced { OnOk result (stops_in self.new ≡
            with_synced (contents_in self.new) (stops_in self.old)) }
        ensures unsynced { OnErr result (stops_in self.new ≡ stops_in self.old) }
        ensures cause { Counts failures_in no_failures self.old self.new result }
    {
        check_folder(&self.nodes, folder)?;
        let done = set_synced(
            self.alloc,
            &mut self.nodes,
            &mut self.log,
            folder,
            Node::Folder(true),
        );
        counted(&mut self.failed, done)
    }
}

// The answer of a changing call: want of memory is a failure of the device, and is counted.
fn counted(failed: &mut u64, done: Result<(), OutOfMemory>) -> Result<(), TreeFault>
    ensures done { OnOk done ((result ≡ Ok tt) × (failed.new ≡ failed.old)) }
    ensures undone { OnErr done ((result ≡ Err TreeFault.Failed) × Rose failed.old failed.new) }
    ensures later { failed.old ≤ failed.new }
{
    match done {
        Ok(()) => Ok(()),
        Err(OutOfMemory) => {
            *failed = failed.saturating_add(1);
            Err(TreeFault::Failed)
        }
    }
}

impl Tree for MemoryTree {
    ghost tells = { true };

    ghost contents = { λ m. contents_of m.nodes.items };

    ghost calls = { λ m. m.log.calls.items };

    ghost stops = { λ m. stops_of m.log };

    ghost failed_reads = { λ m. 0 };

    ghost failed_changes = { λ m. m.failed };

    ghost is_tree = { λ told m. m.sound.rooted };

    fn kind(&mut self, path: &Path) -> Result<Kind, TreeFault> {
        let Some(i) = place_of(&self.nodes, path) else {
            if path.len() == 0 {
                return Ok(Kind::Folder);
            }
            return Ok(Kind::Absent);
        };
        match &self.nodes[i].node {
            Node::Folder(_) => Ok(Kind::Folder),
            Node::File(_) => Ok(Kind::File),
            Node::Link => Err(TreeFault::Link),
        }
    }

    fn list(&mut self, alloc: Global, path: &Path) -> Result<Names, TreeFault> {
        check_listed(&self.nodes, path)?;
        Ok(names_in(alloc, &self.nodes, path)?)
    }

    fn size(&mut self, path: &Path) -> Result<u64, TreeFault> {
        Ok(file_in(&self.nodes, path)?.len() as u64)
    }

    fn read_at(&mut self, path: &Path, at: u64, into: &mut [u8]) -> Result<(), TreeFault> {
        let bytes = file_in(&self.nodes, path)?;
        let at = at as usize;
        if at > bytes.len() || into.len() > bytes.len() - at {
            return Err(TreeFault::PastEnd);
        }
        into.copy_from_slice(&bytes[at..at + into.len()]);
        Ok(())
    }

    fn write_at(&mut self, path: &Path, at: u64, bytes: &[u8]) -> Result<(), TreeFault> {
        let at = at as usize;
        if at > file_in(&self.nodes, path)?.len() {
            return Err(TreeFault::PastEnd);
        }
        let done = write_in(self.alloc, &mut self.nodes, &mut self.log, path, at, bytes);
        counted(&mut self.failed, done)
    }

    fn cut(&mut self, path: &Path, size: u64) -> Result<(), TreeFault> {
        let size = size as usize;
        if size > file_in(&self.nodes, path)?.len() {
            return Err(TreeFault::PastEnd);
        }
        let done = cut_in(self.alloc, &mut self.nodes, &mut self.log, path, size);
        counted(&mut self.failed, done)
    }

    fn make_file(&mut self, path: &Path) -> Result<(), TreeFault> {
        check_room(&self.nodes, path)?;
        let done = put_file(self.alloc, &mut self.nodes, &mut self.log, path);
        counted(&mut self.failed, done)
    }

    fn make_folder(&mut self, path: &Path) -> Result<(), TreeFault> {
        check_room(&self.nodes, path)?;
        let done = put_folder(self.alloc, &mut self.nodes, &mut self.log, path);
        counted(&mut self.failed, done)
    }

    fn remove(&mut self, path: &Path) -> Result<(), TreeFault> {
        check_free(&self.nodes, path)?;
        let done = remove_in(self.alloc, &mut self.nodes, &mut self.log, path);
        counted(&mut self.failed, done)
    }

    fn sync(&mut self) -> Result<(), TreeFault> {
        let done = self.log.sync(self.alloc, &self.nodes);
        counted(&mut self.failed, done)
    }
}
