// What stands at a path.
ghost use Rattle.std.specs.Prelude.{◌≡◌, ◌≢◌, ◌<◌, [], length, slice_index_or, IsTrue, IfOk, Err, true, IsErrOf};
ghost use Rattle.std.specs.List.{list_all};
ghost use Rattle.cluster_tree.specs.PathValue.{PathValue, is_part};
ghost use Rattle.cluster_tree.specs.Contents.{entry_at};
ghost use Rattle.cluster_tree.specs.Causes.{Meets, Rose};
ghost use Rattle.cluster_tree.specs.Frame.{Reads};
ghost use Rattle.file_edits.specs.Answers.{IsFree};
ghost use Rattle.file_edits.specs.Asking.{file_asked, folder_asked, size_asked, names_asked};

use cluster_tree::{FileFault, Kind, Names, Path, Tree, TreeFault};
use std::alloc::Global;

/// The size in bytes of the file at a path, or `None` where nothing stands. Answers `IsFolder` or
/// `Link` where something else does.
#[tactic(auto, using(crate::proofs::AskLemmas::asked_steps))]
pub fn file_size<F: Tree>(
    alloc: Global,
    tree: &mut F,
    path: &Path,
) -> Result<Option<u64>, FileFault>
    ensures exact { IsTrue F.tells → Meets IsFree
        (size_asked (file_asked path.now (entry_at (F.contents tree.old) path.now))) result }
    ensures frame { Reads F.Tree tree.old tree.new }
    ensures read_fault { IsErrOf result FileFault.ReadFault →
        Rose (F.failed_reads tree.old) (F.failed_reads tree.new) }
    ensures write_fault { result ≢ Err FileFault.WriteFault }
    ensures changed { (p : PathValue) → result ≢ Err (FileFault.Changed p) }
{
    match tree.size(path) {
        Ok(size) => Ok(Some(size)),
        Err(TreeFault::Absent) => Ok(None),
        Err(TreeFault::IsFolder) => Err(FileFault::IsFolder(path.copy(alloc)?)),
        Err(TreeFault::Link) => Err(FileFault::Link(path.copy(alloc)?)),
        Err(_) => Err(FileFault::ReadFault),
    }
}

/// Whether a folder stands at a path. Answers `NotFolder` or `Link` where something else does.
#[tactic(auto, using(crate::proofs::AskLemmas::asked_steps))]
pub fn is_folder<F: Tree>(alloc: Global, tree: &mut F, path: &Path) -> Result<bool, FileFault>
    ensures exact { IsTrue F.tells → Meets IsFree
        (folder_asked path.now (entry_at (F.contents tree.old) path.now)) result }
    ensures frame { Reads F.Tree tree.old tree.new }
    ensures read_fault { IsErrOf result FileFault.ReadFault →
        Rose (F.failed_reads tree.old) (F.failed_reads tree.new) }
    ensures write_fault { result ≢ Err FileFault.WriteFault }
    ensures changed { (p : PathValue) → result ≢ Err (FileFault.Changed p) }
{
    match tree.kind(path) {
        Ok(Kind::Absent) => Ok(false),
        Ok(Kind::Folder) => Ok(true),
        Ok(Kind::File) => Err(FileFault::NotFolder(path.copy(alloc)?)),
        Err(TreeFault::Link) => Err(FileFault::Link(path.copy(alloc)?)),
        Err(_) => Err(FileFault::ReadFault),
    }
}

/// The names in a folder in the order of their paths, none where nothing stands. Answers `NotFolder`,
/// `Link` or `NameNotText`.
#[tactic(auto, using(crate::proofs::AskLemmas::listed_steps))]
pub fn names_of<F: Tree>(alloc: Global, tree: &mut F, path: &Path) -> Result<Names, FileFault>
    ensures exact { IsTrue F.tells → Meets IsFree (names_asked (F.contents tree.old) path.now
        (entry_at (F.contents tree.old) path.now)) result }
    ensures parts { IfOk result (λ names. list_all is_part names ≡ true) }
    ensures frame { Reads F.Tree tree.old tree.new }
    ensures read_fault { IsErrOf result FileFault.ReadFault →
        Rose (F.failed_reads tree.old) (F.failed_reads tree.new) }
    ensures write_fault { result ≢ Err FileFault.WriteFault }
    ensures changed { (p : PathValue) → result ≢ Err (FileFault.Changed p) }
{
    match tree.list(alloc, path) {
        Ok(names) => Ok(names),
        Err(TreeFault::Absent) => Ok(Names::new(alloc)),
        Err(TreeFault::NotFolder) => Err(FileFault::NotFolder(path.copy(alloc)?)),
        Err(TreeFault::Link) => Err(FileFault::Link(path.copy(alloc)?)),
        Err(TreeFault::NameNotText) => Err(FileFault::NameNotText(path.copy(alloc)?)),
        Err(TreeFault::OutOfMemory) => Err(FileFault::OutOfMemory),
        Err(_) => Err(FileFault::ReadFault),
    }
}

/// The name at a place of a list, counted from 0.
#[tactic(auto, using(std::proofs::lemmas::Option::gets))]
pub fn name_at(names: &Names, at: usize) -> &str
    requires { at < length names.now }
    ensures { result.now ≡ slice_index_or names.now at [] }
{
    match names.get(at) {
        Some(name) => name,
        None => unreachable!(),
    }
}
