// What a path below a root turns out to be.
ghost use Rattle.std.specs.Prelude.{◌≡◌, ◌≢◌, ◌⊎◌, true, Err, IfOk, IfErr, IsErrOf, IsTrue, is_some};
ghost use Rattle.std.specs.FinMap.{get};
ghost use Rattle.cluster_tree.specs.PathValue.{PathValue};
ghost use Rattle.cluster_tree.specs.Contents.{entry_at, is_file, is_folder};
ghost use Rattle.cluster_tree.specs.Causes.{Rose};
ghost use Rattle.cluster_tree.specs.Frame.{Reads};
ghost use Rattle.cluster_tree.specs.declared.file_fault.FileFault.TheVariants as file;
ghost use Rattle.file_walk.specs.Seeing.{FitsSeen, HasNames, told_as};
ghost use Rattle.file_walk.specs.Faults.{IsRowOf};

use crate::fault::WalkFault;
use crate::place::Place;
use crate::relation::is_relation_file;
use cluster_tree::{FileFault, Kind, Names, OutOfMemory, Tree, TreeFault};
use std::alloc::Global;

/// How many bytes a block has.
const BLOCK: u64 = 8192;

/// What a path turns out to be, where a cluster may have it there.
#[derive(Drop)]
pub(crate) enum Seen {
    /// A file of so many bytes.
    File(u64),
    /// A folder of these names.
    Folder(Names),
}

/// What stands at a path of which a listing has told, or the flaw that it has.
pub(crate) fn see<F: Tree>(alloc: Global, tree: &mut F, place: &Place) -> Result<Seen, WalkFault>
    requires there { IsTrue F.tells → is_some (get (F.contents tree.old) place.now.full) ≡ true }
    ensures seen { IsTrue F.tells →
        FitsSeen (F.contents tree.old) place.now.own place.now.full result }
    ensures proper { IfOk result HasNames }
    ensures reads { Reads F.Tree tree.old tree.new }
    ensures read_fault { IsErrOf result (WalkFault.File file.ReadFault) →
        Rose (F.failed_reads tree.old) (F.failed_reads tree.new) }
    ensures changed { IsTrue F.tells → (p : PathValue) →
        result ≢ Err (WalkFault.File (file.Changed p)) }
    ensures row { (p : PathValue) → IfErr result (IsRowOf p) }
{
    match tree.kind(&place.full) {
        Ok(Kind::File) => see_file(alloc, tree, place),
        Ok(Kind::Folder) => see_folder(alloc, tree, place),
        Ok(Kind::Absent) => Err(place.changed(alloc)),
        Err(TreeFault::Link) => Err(WalkFault::Link(place.own.copy(alloc)?)),
        Err(_) => Err(WalkFault::File(FileFault::ReadFault)),
    }
}

// A file by its size, which makes whole blocks where it is one of a main fork.
fn see_file<F: Tree>(alloc: Global, tree: &mut F, place: &Place) -> Result<Seen, WalkFault>
    requires there { IsTrue F.tells →
        is_file (entry_at (F.contents tree.old) place.now.full) ≡ true }
    ensures seen { IsTrue F.tells →
        FitsSeen (F.contents tree.old) place.now.own place.now.full result }
    ensures proper { IfOk result HasNames }
    ensures reads { Reads F.Tree tree.old tree.new }
    ensures read_fault { IsErrOf result (WalkFault.File file.ReadFault) →
        Rose (F.failed_reads tree.old) (F.failed_reads tree.new) }
    ensures changed { IsTrue F.tells → (p : PathValue) →
        result ≢ Err (WalkFault.File (file.Changed p)) }
    ensures row { (p : PathValue) → IfErr result (IsRowOf p) }
{
    let size = match tree.size(&place.full) {
        Ok(size) => size,
        Err(TreeFault::Failed) => return Err(WalkFault::File(FileFault::ReadFault)),
        Err(_) => return Err(place.changed(alloc)),
    };
    if size % BLOCK != 0 && is_relation_file(&place.own).is_some() {
        return Err(WalkFault::OddSize(place.own.copy(alloc)?, size));
    }
    Ok(Seen::File(size))
}

// Why a folder isn't listed; or that there is no memory to say so.
fn list_fault(alloc: Global, place: &Place, fault: TreeFault) -> WalkFault
    ensures { (result ≡ told_as place.now.own place.now.full fault)
        ⊎ (result ≡ WalkFault.File file.OutOfMemory) }
{
    match fault {
        TreeFault::Failed => WalkFault::File(FileFault::ReadFault),
        TreeFault::OutOfMemory => WalkFault::File(FileFault::OutOfMemory),
        TreeFault::NameNotText => match place.own.copy(alloc) {
            Ok(own) => WalkFault::NameNotText(own),
            Err(OutOfMemory) => WalkFault::File(FileFault::OutOfMemory),
        },
        _ => place.changed(alloc),
    }
}

// A folder by its names.
fn see_folder<F: Tree>(alloc: Global, tree: &mut F, place: &Place) -> Result<Seen, WalkFault>
    requires there { IsTrue F.tells →
        is_folder (entry_at (F.contents tree.old) place.now.full) ≡ true }
    ensures seen { IsTrue F.tells →
        FitsSeen (F.contents tree.old) place.now.own place.now.full result }
    ensures proper { IfOk result HasNames }
    ensures reads { Reads F.Tree tree.old tree.new }
    ensures read_fault { IsErrOf result (WalkFault.File file.ReadFault) →
        Rose (F.failed_reads tree.old) (F.failed_reads tree.new) }
    ensures changed { IsTrue F.tells → (p : PathValue) →
        result ≢ Err (WalkFault.File (file.Changed p)) }
    ensures row { (p : PathValue) → IfErr result (IsRowOf p) }
{
    match tree.list(alloc, &place.full) {
        Ok(names) => Ok(Seen::Folder(names)),
        Err(fault) => Err(list_fault(alloc, place, fault)),
    }
}
