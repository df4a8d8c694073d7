// The files of a log's folder that have the name of a segment.
ghost use Rattle.std.specs.Prelude.{◌≡◌, ◌≤◌, ◌⊎◌, find, length, IfOk, IfErr, IsTrue, IsErrOf};
ghost use Rattle.cluster_tree.specs.Causes.{Meets, Rose};
ghost use Rattle.cluster_tree.specs.Frame.{Reads};
ghost use Rattle.log_folder.specs.Faults.{IsFree, IsOfTree};
ghost use Rattle.log_folder.specs.Folder.{least_in, unlisted};
ghost use Rattle.log_folder.specs.Listing.{is_file, is_segment, segment_path};

use crate::FolderFault;
use cluster_tree::{Kind, Names, Path, Tree, TreeFault};
use std::alloc::Global;
use wal_base::{Text, is_long_name};

/// The path of a file in a folder, where its name is that of a segment. The only fault is
/// `OutOfMemory`.
#[tactic(auto, using(crate::proofs::PartLemmas::part_steps), unfolding(crate::specs::Listing::segment_path))]
pub(crate) fn segment_path(
    alloc: Global,
    folder: &Path,
    name: &str,
) -> Result<Option<Path>, FolderFault>
    requires room { length folder.now.parts ≤ 63 }
    ensures value { IfOk result (λ path. path ≡ segment_path folder.now name.now) }
    ensures memory { IfErr result (λ e. e ≡ FolderFault.OutOfMemory) }
{
    if !is_long_name(name.as_bytes()) {
        return Ok(None);
    }
    Ok(Some(folder.below(alloc, name)?))
}

// Whether a file stands at a path.
fn is_file<F: Tree>(tree: &mut F, path: &Path) -> Result<bool, FolderFault>
    ensures exact { IsTrue F.tells →
        IfOk result (λ is. is ≡ is_file (F.contents tree.old) path.now) }
    ensures fault { IfErr result (λ e. e ≡ FolderFault.ReadFault) }
    ensures reads { Reads F.Tree tree.old tree.new }
    ensures read_fault { IsErrOf result FolderFault.ReadFault →
        Rose (F.failed_reads tree.old) (F.failed_reads tree.new) }
{
    match tree.kind(path) {
        Ok(Kind::File) => Ok(true),
        Err(TreeFault::Failed) => Err(FolderFault::ReadFault),
        Ok(Kind::Absent | Kind::Folder) | Err(_) => Ok(false),
    }
}

// Whether a folder has a file of this name, and it is that of a segment.
#[tactic(auto, unfolding(crate::specs::Listing::segment_path, crate::specs::Listing::is_segment))]
fn is_segment<F: Tree>(
    alloc: Global,
    tree: &mut F,
    folder: &Path,
    name: &str,
) -> Result<bool, FolderFault>
    requires room { length folder.now.parts ≤ 63 }
    ensures exact { IsTrue F.tells →
        IfOk result (λ is. is ≡ is_segment (F.contents tree.old) folder.now name.now) }
    ensures free { IfErr result IsFree }
    ensures reads { Reads F.Tree tree.old tree.new }
    ensures read_fault { IsErrOf result FolderFault.ReadFault →
        Rose (F.failed_reads tree.old) (F.failed_reads tree.new) }
{
    match segment_path(alloc, folder, name)? {
        Some(path) => is_file(tree, &path),
        None => Ok(false),
    }
}

// The first of the names that is that of a segment and of a file in the folder.
#[tactic(auto, using(crate::proofs::FindLemmas::find_steps))]
fn first_segment<F: Tree>(
    alloc: Global,
    tree: &mut F,
    folder: &Path,
    names: &Names,
) -> Result<Option<Text>, FolderFault>
    requires room { length folder.now.parts ≤ 63 }
    ensures exact { IsTrue F.tells → IfOk result
        (λ first. first ≡ find (is_segment (F.contents tree.old) folder.now) names.now) }
    ensures free { IfErr result IsFree }
    ensures reads { Reads F.Tree tree.old tree.new }
    ensures read_fault { IsErrOf result FolderFault.ReadFault →
        Rose (F.failed_reads tree.old) (F.failed_reads tree.new) }
{
    for at in 0..names.len() {
        let Some(name) = names.get(at) else {
            unreachable!()
        };
        if is_segment(alloc, tree, folder, name)? {
            return Ok(Some(Text::new(alloc, name)?));
        }
    }
    Ok(None)
}

// The fault of a folder that isn't listed.
fn unlisted(alloc: Global, folder: &Path, fault: TreeFault) -> FolderFault
    ensures { (result ≡ unlisted folder.now fault) ⊎ (result ≡ FolderFault.OutOfMemory) }
{
    let path = match folder.copy(alloc) {
        Ok(path) => path,
        Err(_) => return FolderFault::OutOfMemory,
    };
    match fault {
        TreeFault::Failed => FolderFault::ReadFault,
        TreeFault::OutOfMemory => FolderFault::OutOfMemory,
        TreeFault::Link => FolderFault::Link(path),
        TreeFault::NameNotText => FolderFault::NameNotText(path),
        _ => FolderFault::NotFolder(path),
    }
}

/// The least name of a segment that a folder has a file of.
///
/// Answers `NotFolder` where no folder or link stands there, `Link` where a link does, and
/// `NameNotText` where it holds a name that isn't UTF-8.
#[tactic(auto, using(crate::proofs::ListLemmas::list_steps), unfolding(crate::specs::Folder::least_in))]
pub(crate) fn least_in<F: Tree>(
    alloc: Global,
    tree: &mut F,
    folder: &Path,
) -> Result<Option<Text>, FolderFault>
    requires room { length folder.now.parts ≤ 63 }
    ensures exact { IsTrue F.tells →
        Meets IsFree (least_in (F.contents tree.old) folder.now) result }
    ensures cause { IfErr result IsOfTree }
    ensures reads { Reads F.Tree tree.old tree.new }
    ensures read_fault { IsErrOf result FolderFault.ReadFault →
        Rose (F.failed_reads tree.old) (F.failed_reads tree.new) }
{
    match tree.list(alloc, folder) {
        Ok(names) => first_segment(alloc, tree, folder, &names),
        Err(fault) => Err(unlisted(alloc, folder, fault)),
    }
}
