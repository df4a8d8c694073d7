// The walk below a root.
ghost use Rattle.std.specs.Prelude.{◌≡◌, ◌≢◌, string_bytes, is_some, true, Err, IfOk, IfErr, IfSome, IsErrOf, IsTrue, OnOk};
ghost use Rattle.std.specs.FinMap.{get};
ghost use Rattle.std.specs.List.{list_all};
ghost use Rattle.cluster_tree.specs.PathValue.{PathValue, is_part};
ghost use Rattle.cluster_tree.specs.Contents.{entry_at};
ghost use Rattle.cluster_tree.specs.Folders.{IsListing};
ghost use Rattle.cluster_tree.specs.Causes.{Meets, Passes, Rose};
ghost use Rattle.cluster_tree.specs.Frame.{Reads};
ghost use Rattle.cluster_tree.specs.declared.file_fault.FileFault.TheVariants as file;
ghost use Rattle.file_walk.specs.Walk.{HasParts, root_flaw, walk_of};
ghost use Rattle.file_walk.specs.Faults.{IsFree, IsRowOf};
ghost use Rattle.file_walk.specs.Listed.{IsListed, by_text};
ghost use Rattle.file_walk.specs.Stepping.{FitsLook, FitsNext, FitsStep, IsBegun, IsFirstThere, IsThere, IsToldOf};
ghost use Rattle.file_walk.specs.Waiting.{AllSound, AreProper, AreSound, IsPlace};

use crate::entries::{Entries, Listed};
use crate::entry::{Entry, EntryKind};
use crate::fault::WalkFault;
use crate::place::{MAX_PARTS, Place, here};
use crate::see::{Seen, see};
use crate::waiting::{Queue, Waiting, add_names};
use cluster_tree::{FileFault, Names, Path, Tree, TreeFault};
use std::alloc::Global;
use std::collections::BTreeMap;

/// What lies below a root, in ascending order of the texts of the paths, which are those from the
/// root on. It changes nothing.
///
/// Answers `File` with `NotFolder` and the root where that is no folder, and `NameNotText` of the
/// path `.` where the root itself holds a name that isn't UTF-8. Of the paths below it the fault of
/// the least is answered: `TooDeep` where it has more than 64 parts, the root's included, with its
/// first 64; `Link` of a link or special file; `NameNotText` of a folder that holds a name that
/// isn't UTF-8; and `OddSize` of a main fork file whose bytes are no whole blocks. `File` else
/// holds `ReadFault` where a read of the device failed, `Changed` where the tree contradicted
/// itself about that path, and `OutOfMemory`.
pub fn walk<F: Tree>(alloc: Global, tree: &mut F, root: &Path) -> Result<Entries, WalkFault>
    ensures exact { IsTrue F.tells → Meets IsFree (walk_of (F.contents tree.old) root.now) result }
    ensures reads { Reads F.Tree tree.old tree.new }
    ensures read_fault { IsErrOf result (WalkFault.File file.ReadFault) →
        Rose (F.failed_reads tree.old) (F.failed_reads tree.new) }
    ensures changed { IsTrue F.tells → (p : PathValue) →
        result ≢ Err (WalkFault.File (file.Changed p)) }
    ensures row { IfErr result (IsRowOf root.now) }
    ensures parts { IsTrue F.tells → IfOk result (λ _. HasParts (F.contents tree.old) root.now) }
{
    let mut queue = begin(alloc, tree, root)?;
    let mut listed = Vec::new(alloc);
    // No memory holds more entries than this has numbers.
    for _ in 0..u64::MAX {
        let Some(entry) = next(alloc, tree, &mut queue)? else {
            return Ok(Entries::of_listed(listed));
        };
        listed.push(entry)?;
    }
    Err(WalkFault::File(FileFault::OutOfMemory))
}

// What waits at first: the names in the root.
fn begin<F: Tree>(alloc: Global, tree: &mut F, root: &Path) -> Result<Queue, WalkFault>
    ensures begun { IsTrue F.tells → IfOk result (λ queue.
        IsBegun (F.contents tree.old) root.now (by_text string_bytes queue.entries)) }
    ensures sound { IfOk result (λ queue. AllSound (by_text string_bytes queue.entries)) }
    ensures proper { list_all is_part root.now.parts ≡ true }
    ensures refused { IsTrue F.tells →
        Passes IsFree (root_flaw root.now (entry_at (F.contents tree.old) root.now)) result }
    ensures row { IfErr result (IsRowOf root.now) }
    ensures reads { Reads F.Tree tree.old tree.new }
    ensures read_fault { IsErrOf result (WalkFault.File file.ReadFault) →
        Rose (F.failed_reads tree.old) (F.failed_reads tree.new) }
{
    prove!(root.len() <= MAX_PARTS);
    let place = Place::root(alloc, root)?;
    let names = list_root(alloc, tree, root)?;
    let mut queue = BTreeMap::new(alloc);
    add_names(alloc, &mut queue, &place, &names)?;
    Ok(queue)
}

// The entry of the least path that waits, or `None` where nothing does.
fn next<F: Tree>(
    alloc: Global,
    tree: &mut F,
    queue: &mut Queue,
) -> Result<Option<Listed>, WalkFault>
    requires sound { AllSound (by_text string_bytes queue.old.entries) }
    requires there { IsTrue F.tells →
        IsFirstThere (F.contents tree.old) (by_text string_bytes queue.old.entries) }
    ensures stepped { IsTrue F.tells → FitsNext (F.contents tree.old)
        (by_text string_bytes queue.old.entries) (by_text string_bytes queue.new.entries) result }
    ensures listed { IfOk result (λ next. IfSome next IsListed) }
    ensures sound { OnOk result (AllSound (by_text string_bytes queue.new.entries)) }
    ensures reads { Reads F.Tree tree.old tree.new }
    ensures read_fault { IsErrOf result (WalkFault.File file.ReadFault) →
        Rose (F.failed_reads tree.old) (F.failed_reads tree.new) }
    ensures changed { IsTrue F.tells → (p : PathValue) →
        result ≢ Err (WalkFault.File (file.Changed p)) }
    ensures row { (p : PathValue) → IfErr result (IsRowOf p) }
{
    let Some((text, waiting)) = queue.pop_first() else {
        return Ok(None);
    };
    let entry = step(alloc, tree, queue, waiting)?;
    Ok(Some(Listed { text, entry }))
}

// The entry of what waited. The names of a folder wait in turn.
fn step<F: Tree>(
    alloc: Global,
    tree: &mut F,
    queue: &mut Queue,
    waiting: Waiting,
) -> Result<Entry, WalkFault>
    requires sound { AreSound waiting }
    requires proper { AreProper waiting }
    requires there { IsTrue F.tells → IsThere (F.contents tree.old) waiting }
    ensures stepped { IsTrue F.tells → FitsStep (F.contents tree.old) waiting
        (by_text string_bytes queue.old.entries) (by_text string_bytes queue.new.entries) result }
    ensures told { IfOk result (IsToldOf waiting) }
    ensures sound { OnOk result (AllSound (by_text string_bytes queue.old.entries) →
        AllSound (by_text string_bytes queue.new.entries)) }
    ensures reads { Reads F.Tree tree.old tree.new }
    ensures read_fault { IsErrOf result (WalkFault.File file.ReadFault) →
        Rose (F.failed_reads tree.old) (F.failed_reads tree.new) }
    ensures changed { IsTrue F.tells → (p : PathValue) →
        result ≢ Err (WalkFault.File (file.Changed p)) }
    ensures row { (p : PathValue) → IfErr result (IsRowOf p) }
{
    match waiting {
        Waiting::At(place) => look(alloc, tree, queue, place),
        Waiting::TooDeep(path) => Err(WalkFault::TooDeep(path)),
    }
}

// The entry of what stands at a place.
fn look<F: Tree>(
    alloc: Global,
    tree: &mut F,
    queue: &mut Queue,
    place: Place,
) -> Result<Entry, WalkFault>
    requires sound { IsPlace place }
    requires proper { list_all is_part place.own.parts ≡ true }
    requires there { IsTrue F.tells → is_some (get (F.contents tree.old) place.full) ≡ true }
    ensures looked { IsTrue F.tells → FitsLook (F.contents tree.old) place
        (by_text string_bytes queue.old.entries) (by_text string_bytes queue.new.entries) result }
    ensures told { IfOk result (λ entry. entry.path ≡ place.own) }
    ensures sound { OnOk result (AllSound (by_text string_bytes queue.old.entries) →
        AllSound (by_text string_bytes queue.new.entries)) }
    ensures reads { Reads F.Tree tree.old tree.new }
    ensures read_fault { IsErrOf result (WalkFault.File file.ReadFault) →
        Rose (F.failed_reads tree.old) (F.failed_reads tree.new) }
    ensures changed { IsTrue F.tells → (p : PathValue) →
        result ≢ Err (WalkFault.File (file.Changed p)) }
    ensures row { (p : PathValue) → IfErr result (IsRowOf p) }
{
    match see(alloc, tree, &place) {
        Ok(Seen::File(size)) => Ok(Entry {
            path: place.own,
            kind: EntryKind::File(size),
        }),
        Ok(Seen::Folder(names)) => {
            add_names(alloc, queue, &place, &names)?;
            Ok(Entry {
                path: place.own,
                kind: EntryKind::Folder,
            })
        }
        Err(fault) => Err(fault),
    }
}

// The names in the root.
fn list_root<F: Tree>(alloc: Global, tree: &mut F, root: &Path) -> Result<Names, WalkFault>
    ensures names { IsTrue F.tells → IfOk result (IsListing (F.contents tree.old) root.now) }
    ensures refused { IsTrue F.tells →
        Passes IsFree (root_flaw root.now (entry_at (F.contents tree.old) root.now)) result }
    ensures row { IfErr result (IsRowOf root.now) }
    ensures reads { Reads F.Tree tree.old tree.new }
    ensures read_fault { IsErrOf result (WalkFault.File file.ReadFault) →
        Rose (F.failed_reads tree.old) (F.failed_reads tree.new) }
    ensures parts { IfOk result (λ names. list_all is_part names ≡ true) }
{
    match tree.list(alloc, root) {
        Ok(names) => Ok(names),
        Err(TreeFault::Failed) => Err(WalkFault::File(FileFault::ReadFault)),
        Err(TreeFault::OutOfMemory) => Err(WalkFault::File(FileFault::OutOfMemory)),
        Err(TreeFault::NameNotText) => Err(WalkFault::NameNotText(here(alloc)?)),
        Err(_) => Err(WalkFault::File(FileFault::NotFolder(root.copy(alloc)?))),
    }
}
