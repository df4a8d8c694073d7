// What a walk found, as it is listed.
ghost use Rattle.std.specs.Prelude.{◌≡◌, ◌<◌, ◌++◌, ◌^◌, [], ◌∷◌, length, map, true, IfErr, IfOk, OnOk};
ghost use Rattle.std.specs.List.{cons_option};
ghost use Rattle.std.specs.Str.{is_utf8};
ghost use Rattle.cluster_tree.specs.PathValue.{below};
ghost use Rattle.file_walk.specs.Faults.{IsMemory};
ghost use Rattle.mark_lines.specs.Paths.{way_of};
ghost use Rattle.replay_list.specs.Text.{IsHeld, IsSized, is_text};
ghost use Rattle.replay_areas.specs.Fits.{AllFit, FitsBelow, IsPlaceFault};
ghost use Rattle.replay_areas.specs.Listing.{listed_as, listed_by};

use cluster_tree::{FileFault, OutOfMemory, Path, PathFault};
use file_walk::{Entries, Entry, EntryKind, WalkFault, is_relation_file};
use replay_list::Listed;
use std::alloc::Global;

// Why a path has no place below the root; or that there is no memory to say so.
fn place_fault(alloc: Global, root: &Path, fault: PathFault) -> WalkFault
    ensures memory { fault ≡ PathFault.OutOfMemory → IsMemory result }
    ensures row { IsPlaceFault root.now result }
{
    let told = match fault {
        PathFault::OutOfMemory => FileFault::OutOfMemory,
        PathFault::Empty | PathFault::DotDot | PathFault::TooDeep => match root.copy(alloc) {
            Ok(path) => FileFault::Changed(path),
            Err(OutOfMemory) => FileFault::OutOfMemory,
        },
    };
    WalkFault::File(told)
}

// A path from a root on, in the tree.
fn full_path(alloc: Global, root: &Path, own: &Path) -> Result<Path, WalkFault>
    ensures value { IfOk result (λ path. path ≡ below root.now own.now.parts) }
    ensures text { FitsBelow root.now own.now →
        IfOk result (λ path. is_utf8 (way_of root.now path) ≡ true) }
    ensures memory { FitsBelow root.now own.now → IfErr result IsMemory }
    ensures row { IfErr result (IsPlaceFault root.now) }
{
    prove!(own.len() <= 64);
    let text = format!(in alloc; "{own}")?;
    match root.join(alloc, &text) {
        Ok(path) => Ok(path),
        Err(fault) => Err(place_fault(alloc, root, fault)),
    }
}

/// What is listed of a path.
pub(crate) fn listed_by(is_main: bool, path: Path, kind: EntryKind) -> Listed
    ensures value { result ≡ listed_by is_main path kind }
    ensures size { IsSized result }
{
    match kind {
        EntryKind::Folder => Listed::Folder(path),
        EntryKind::File(size) if is_main => Listed::Page(path, size),
        EntryKind::File(size) => Listed::File(path, size),
    }
}

// What is listed of what a walk found.
fn listed_as(alloc: Global, root: &Path, entry: &Entry) -> Result<Listed, WalkFault>
    ensures value { IfOk result (λ listed. listed ≡ listed_as root.now entry.now) }
    ensures text { FitsBelow root.now entry.now.path →
        IfOk result (λ listed. is_text root.now listed ≡ true) }
    ensures size { IfOk result IsSized }
    ensures memory { FitsBelow root.now entry.now.path → IfErr result IsMemory }
    ensures row { IfErr result (IsPlaceFault root.now) }
{
    let path = full_path(alloc, root, &entry.path)?;
    Ok(listed_by(is_relation_file(&entry.path).is_some(), path, entry.kind))
}

// Adds what a walk found at a path.
fn add_entry(
    alloc: Global,
    listed: &mut Vec<Listed>,
    root: &Path,
    entry: &Entry,
) -> Result<(), WalkFault>
    ensures value { OnOk result
        (listed.new.items ≡ listed.old.items ++ listed_as root.now entry.now ∷ []) }
    ensures held { FitsBelow root.now entry.now.path → IsHeld root.now listed.old.items →
        OnOk result (IsHeld root.now listed.new.items) }
    ensures memory { FitsBelow root.now entry.now.path → IfErr result IsMemory }
    ensures row { IfErr result (IsPlaceFault root.now) }
{
    let one = listed_as(alloc, root, entry)?;
    listed.push(one)?;
    Ok(())
}

// Adds all that a walk found.
fn add_entries(
    alloc: Global,
    listed: &mut Vec<Listed>,
    root: &Path,
    entries: &Entries,
) -> Result<(), WalkFault>
    ensures value { OnOk result
        (listed.new.items ≡ listed.old.items ++ map (listed_as root.now) entries.now) }
    ensures held { AllFit root.now entries.now → IsHeld root.now listed.old.items →
        OnOk result (IsHeld root.now listed.new.items) }
    ensures memory { AllFit root.now entries.now → IfErr result IsMemory }
    ensures row { IfErr result (IsPlaceFault root.now) }
    ensures few { length entries.now < 2 ^ 64 }
{
    for at in 0..entries.len() {
        let Some(entry) = entries.get(at) else {
            unreachable!()
        };
        add_entry(alloc, listed, root, entry)?;
    }
    Ok(())
}

/// The label, and then what a walk found.
pub(crate) fn listed_below(
    alloc: Global,
    root: &Path,
    label: Option<Listed>,
    entries: &Entries,
) -> Result<Vec<Listed>, WalkFault>
    ensures value { IfOk result (λ listed. listed.items
        ≡ cons_option label (map (listed_as root.now) entries.now)) }
    ensures held { AllFit root.now entries.now → IsHeld root.now (cons_option label []) →
        IfOk result (λ listed. IsHeld root.now listed.items) }
    ensures memory { AllFit root.now entries.now → IfErr result IsMemory }
    ensures row { IfErr result (IsPlaceFault root.now) }
    ensures few { OnOk result (length entries.now < 2 ^ 64) }
{
    let mut listed = Vec::new(alloc);
    if let Some(label) = label {
        listed.push(label)?;
    }
    add_entries(alloc, &mut listed, root, entries)?;
    Ok(listed)
}
