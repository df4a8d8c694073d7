// The files that go, looked at before anything is changed.
ghost use Rattle.std.specs.Prelude.{◌≡◌, ◌≢◌, ◌≤◌, ◌++◌, [], ◌∷◌, Err, IfErr, IfOk, IsErrOf, IsTrue, OnOk, is_some, length, true};
ghost use Rattle.std.specs.List.{list_all};
ghost use Rattle.cluster_tree.specs.Causes.{Meets, Rose};
ghost use Rattle.cluster_tree.specs.Contents.{entry_at};
ghost use Rattle.cluster_tree.specs.Frame.{Reads};
ghost use Rattle.cluster_tree.specs.PathValue.{PathValue, is_part};
ghost use Rattle.cluster_tree.specs.declared.tree.TreeFault.{TreeFault};
ghost use Rattle.reset_plan.specs.Removals.{Looks, Stand, goes, going, going_one, kinds_refusal, unlisted};
ghost use Rattle.reset_plan.specs.Reset.{in_folder, kind_refusal, names_at, status_fault};
ghost use Rattle.reset_plan.specs.ResetFaults.{changed_at, no_memory, read_failed};

use crate::ResetFault;
use crate::roots::listing_fault;
use cluster_tree::{Kind, Names, Path, Tree, TreeFault};
use clusters::ClusterFault;
use reset_numbers::{is_segment, is_status};
use std::alloc::Global;
use std::collections::VecDeque;

/// Which names of a folder go.
#[derive(Clone, Copy)]
pub(crate) enum Area {
    /// In `pg_wal`, the files of segments.
    Segments,
    /// In `archive_status`, what it says of them.
    Statuses,
}

// Whether a name goes.
fn goes(area: Area, name: &[u8]) -> bool
    ensures { result ≡ goes area name.now }
{
    match area {
        Area::Segments => is_segment(name),
        Area::Statuses => is_status(name),
    }
}

// Hands on a path where a file stands there.
fn file_at<F: Tree>(tree: &mut F, path: Path) -> Result<Path, ResetFault>
    requires { IsTrue F.tells → is_some (entry_at (F.contents tree.old) path) ≡ true }
    ensures exact { IsTrue F.tells → Looks (kind_refusal (F.contents tree.old) path) result }
    ensures same { IfOk result (λ file. file ≡ path) }
    ensures reads { Reads F.Tree tree.old tree.new }
    ensures read_fault { IsErrOf result read_failed →
        Rose (F.failed_reads tree.old) (F.failed_reads tree.new) }
    ensures write_fault { result ≢ Err ResetFault.WriteFault }
    ensures changed { IsTrue F.tells → (p : PathValue) → result ≢ Err (changed_at p) }
{
    match tree.kind(&path) {
        Ok(Kind::File) => Ok(path),
        Ok(Kind::Folder) => Err(ResetFault::KindsDiffer(path)),
        Ok(Kind::Absent) => Err(ResetFault::Cluster(ClusterFault::Changed(path))),
        Err(TreeFault::Link) => Err(ResetFault::Link(path)),
        Err(_) => Err(ResetFault::Cluster(ClusterFault::ReadFault)),
    }
}

// Adds a path where a file stands there.
fn add_file<F: Tree>(tree: &mut F, gone: &mut VecDeque<Path>, path: Path) -> Result<(), ResetFault>
    requires { IsTrue F.tells → is_some (entry_at (F.contents tree.old) path) ≡ true }
    ensures exact { IsTrue F.tells → Looks (kind_refusal (F.contents tree.old) path) result }
    ensures added { OnOk result (gone.new.items ≡ gone.old.items ++ path ∷ []) }
    ensures reads { Reads F.Tree tree.old tree.new }
    ensures read_fault { IsErrOf result read_failed →
        Rose (F.failed_reads tree.old) (F.failed_reads tree.new) }
    ensures write_fault { result ≢ Err ResetFault.WriteFault }
    ensures changed { IsTrue F.tells → (p : PathValue) → result ≢ Err (changed_at p) }
{
    let path = file_at(tree, path)?;
    match gone.push_back(path) {
        Ok(()) => Ok(()),
        Err(_) => Err(ResetFault::Cluster(ClusterFault::OutOfMemory)),
    }
}

// The path of a name in a folder.
#[tactic(auto, using(crate::proofs::PathLemmas::part_steps))]
fn path_of(alloc: Global, folder: &Path, name: &str) -> Result<Path, ResetFault>
    requires depth { length folder.now.parts ≤ 63 }
    requires part { is_part name.now ≡ true }
    ensures is { IfOk result (λ path. path ≡ in_folder folder.now name.now) }
    ensures memory { IfErr result (λ e. e ≡ no_memory) }
{
    Ok(folder.below(alloc, name)?)
}

// Adds a file in a folder to those that go, where its name is one of these.
#[tactic(auto, using(crate::proofs::RemovalLemmas::going_steps))]
fn add<F: Tree>(
    alloc: Global,
    tree: &mut F,
    gone: &mut VecDeque<Path>,
    area: Area,
    folder: &Path,
    name: &str,
) -> Result<(), ResetFault>
    requires depth { length folder.now.parts ≤ 63 }
    requires part { is_part name.now ≡ true }
    requires there { IsTrue F.tells →
        is_some (entry_at (F.contents tree.old) (in_folder folder.now name.now)) ≡ true }
    ensures exact { IsTrue F.tells → Looks (kinds_refusal (F.contents tree.old)
        (going_one area folder.now name.now)) result }
    ensures added { OnOk result (gone.new.items ≡ gone.old.items
        ++ going_one area folder.now name.now) }
    ensures reads { Reads F.Tree tree.old tree.new }
    ensures read_fault { IsErrOf result read_failed →
        Rose (F.failed_reads tree.old) (F.failed_reads tree.new) }
    ensures write_fault { result ≢ Err ResetFault.WriteFault }
    ensures changed { IsTrue F.tells → (p : PathValue) → result ≢ Err (changed_at p) }
{
    if !goes(area, name.as_bytes()) {
        return Ok(());
    }
    match path_of(alloc, folder, name) {
        Ok(path) => add_file(tree, gone, path),
        Err(fault) => Err(fault),
    }
}

/// Adds the files that go of a folder with these names, where all are files.
///
/// Answers `Link` or `KindsDiffer` with the path of the first that is none.
pub(crate) fn add_all<F: Tree>(
    alloc: Global,
    tree: &mut F,
    gone: &mut VecDeque<Path>,
    area: Area,
    folder: &Path,
    names: &Names,
) -> Result<(), ResetFault>
    requires depth { length folder.now.parts ≤ 63 }
    requires parts { list_all is_part names.now ≡ true }
    requires there { IsTrue F.tells → Stand (F.contents tree.old) folder.now names.now }
    ensures exact { IsTrue F.tells → Looks (kinds_refusal (F.contents tree.old)
        (going area folder.now names.now)) result }
    ensures added { OnOk result (gone.new.items ≡ gone.old.items
        ++ going area folder.now names.now) }
    ensures reads { Reads F.Tree tree.old tree.new }
    ensures read_fault { IsErrOf result read_failed →
        Rose (F.failed_reads tree.old) (F.failed_reads tree.new) }
    ensures write_fault { result ≢ Err ResetFault.WriteFault }
    ensures changed { IsTrue F.tells → (p : PathValue) → result ≢ Err (changed_at p) }
{
    for at in 0..names.len() {
        let Some(name) = names.get(at) else {
            unreachable!()
        };
        match add(alloc, tree, gone, area, folder, name) {
            Ok(()) => (),
            Err(fault) => return Err(fault),
        }
    }
    Ok(())
}

// What is known of `archive_status` where its names can't be listed: none are there where it isn't.
fn unlisted(alloc: Global, folder: &Path, fault: TreeFault) -> Result<Names, ResetFault>
    ensures told { Meets (λ e. e ≡ no_memory) (unlisted folder.now fault) result }
    ensures read { IsErrOf result read_failed → fault ≡ TreeFault.Failed }
    ensures write_fault { result ≢ Err ResetFault.WriteFault }
    ensures changed { (p : PathValue) → result ≢ Err (changed_at p) }
    ensures none { IfOk result (λ names. names ≡ []) }
{
    match fault {
        TreeFault::Absent => Ok(Names::new(alloc)),
        _ => Err(listing_fault(alloc, folder, fault)),
    }
}

/// The names in `archive_status`, and none where it isn't there.
pub(crate) fn status_names<F: Tree>(
    alloc: Global,
    tree: &mut F,
    folder: &Path,
) -> Result<Names, ResetFault>
    ensures exact { IsTrue F.tells →
        Looks (status_fault folder.now (entry_at (F.contents tree.old) folder.now)) result }
    ensures names { IsTrue F.tells →
        IfOk result (λ names. names ≡ names_at (F.contents tree.old) folder.now) }
    ensures parts { IfOk result (λ names. list_all is_part names ≡ true) }
    ensures reads { Reads F.Tree tree.old tree.new }
    ensures read_fault { IsErrOf result read_failed →
        Rose (F.failed_reads tree.old) (F.failed_reads tree.new) }
    ensures write_fault { result ≢ Err ResetFault.WriteFault }
    ensures changed { (p : PathValue) → result ≢ Err (changed_at p) }
{
    match tree.list(alloc, folder) {
        Ok(names) => Ok(names),
        Err(fault) => unlisted(alloc, folder, fault),
    }
}
