// Entries that are to be made, one after another.
ghost use Rattle.std.specs.Prelude.{◌≡◌, ◌++◌, [], ◌∷◌, Ok, OnOk, length, map};
ghost use Rattle.cluster_tree.specs.PathValue.{kept_parts};
ghost use Rattle.cluster_tree.specs.Paths.{checked};
ghost use Rattle.pair_maker.specs.Clusters.{file, folder};
ghost use Rattle.pair_maker.specs.Entries.{AddsBelow, made_of, standing_of};

use crate::block_ends::BlockEnds;
use cluster_tree::{OutOfMemory, Path};
use std::alloc::Global;
use std::collections::VecDeque;
use wal_records::LogWriter;

/// What is to be made.
#[derive(Drop)]
pub enum NewEntry {
    /// A folder.
    Folder,
    /// A file of these bytes.
    File(Vec<u8>),
    /// A segment's file: this log, and zeros.
    Log(LogWriter),
    /// A relation's file: these blocks.
    Relation(BlockEnds),
}

/// An entry that is to be made at a path.
#[derive(Drop)]
pub struct Placed {
    /// Where it is to stand.
    pub path: Path,
    /// What is to stand there.
    pub entry: NewEntry,
}

/// Adds an entry at a path.
pub(crate) fn add_at(
    entries: &mut VecDeque<Placed>,
    path: Path,
    entry: NewEntry,
) -> Result<(), OutOfMemory>
    ensures { OnOk result (map standing_of entries.new.items
        ≡ map standing_of entries.old.items ++ record { path = path; entry = made_of entry } ∷ []) }
{
    match entries.push_back(Placed { path, entry }) {
        Ok(()) => Ok(()),
        Err(_) => Err(OutOfMemory),
    }
}

/// Adds an entry below a root.
pub(crate) fn add(
    alloc: Global,
    entries: &mut VecDeque<Placed>,
    root: &Path,
    text: &str,
    entry: NewEntry,
) -> Result<(), OutOfMemory>
    requires room { checked (length root.now.parts) text.now ≡ Ok tt }
    ensures { OnOk result (AddsBelow root.now entries.old.items entries.new.items
        (record { parts = kept_parts text.now; entry = made_of entry } ∷ [])) }
{
    let path = root.below(alloc, text)?;
    add_at(entries, path, entry)
}

/// Adds a folder below a root.
pub(crate) fn add_folder(
    alloc: Global,
    entries: &mut VecDeque<Placed>,
    root: &Path,
    text: &str,
) -> Result<(), OutOfMemory>
    requires room { checked (length root.now.parts) text.now ≡ Ok tt }
    ensures { OnOk result (AddsBelow root.now entries.old.items entries.new.items
        (folder text.now ∷ [])) }
{
    add(alloc, entries, root, text, NewEntry::Folder)
}

/// Adds a file of these bytes below a root.
pub(crate) fn add_file(
    alloc: Global,
    entries: &mut VecDeque<Placed>,
    root: &Path,
    text: &str,
    bytes: Vec<u8>,
) -> Result<(), OutOfMemory>
    requires room { checked (length root.now.parts) text.now ≡ Ok tt }
    ensures { OnOk result (AddsBelow root.now entries.old.items entries.new.items
        (file text.now bytes.items ∷ [])) }
{
    add(alloc, entries, root, text, NewEntry::File(bytes))
}
