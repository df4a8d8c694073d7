// The removals, made ready before the first of them.
ghost use Rattle.std.specs.Prelude.{◌≡◌, ◌≢◌, ◌≤◌, ◌⊎◌, None, Some, true, if◌then◌else◌, is_some, length, map, [], ◌∷◌, ◌++◌, Err, IfErr, IfOk, OnOk, IsErrOf, IsTrue, MatchResult};
ghost use Rattle.std.specs.List.{list_all};
ghost use Rattle.cluster_tree.specs.Causes.{Rose};
ghost use Rattle.cluster_tree.specs.Contents.{entry_at};
ghost use Rattle.cluster_tree.specs.Frame.{Reads};
ghost use Rattle.cluster_tree.specs.PathValue.{PathValue, is_part};
ghost use Rattle.run_acts.specs.Causes.{IsFree, IsOfLook, is_of_files};
ghost use Rattle.cmd_archivecleanup.specs.Archivecleanup.{entry_refusal, in_folder, removal, removing_line, unremoved};

use cluster_tree::{Kind, Names, OutOfMemory, Path, Tree, TreeFault};
use run_acts::{Cause, PathCause, RewindCause};
use std::alloc::Global;
use std::collections::VecDeque;
use wal_base::Text;

/// The removal of a file.
#[derive(Drop)]
pub(crate) struct Removal {
    /// The file's path.
    pub(crate) path: Path,
    /// What is told before it is removed.
    pub(crate) line: Option<Text>,
}

// Looks whether a file stands at the path of one that is to go.
fn look_at<F: Tree>(alloc: Global, tree: &mut F, path: &Path) -> Result<(), Cause>
    requires { IsTrue F.tells → is_some (entry_at (F.contents tree.old) path.now) ≡ true }
    ensures exact { IsTrue F.tells → MatchResult result
        (λ _. entry_refusal path.now (entry_at (F.contents tree.old) path.now) ≡ None)
        (λ e. IsFree e ⊎ (entry_refusal path.now (entry_at (F.contents tree.old) path.now) ≡ Some e)) }
    ensures look { IfErr result IsOfLook }
    ensures only { IfErr result (λ e. IsTrue (is_of_files e)) }
    ensures reads { Reads F.Tree tree.old tree.new }
    ensures read_fault { IsErrOf result Cause.ReadFault →
        Rose (F.failed_reads tree.old) (F.failed_reads tree.new) }
    ensures changed { IsTrue F.tells → (p : PathValue) → result ≢ Err (Cause.Changed p) }
{
    match tree.kind(path) {
        Ok(Kind::File) => Ok(()),
        Ok(Kind::Folder) => Err(Cause::Rewind(RewindCause::KindsDiffer(copy(alloc, path)?))),
        Ok(Kind::Absent) => Err(Cause::Changed(copy(alloc, path)?)),
        Err(TreeFault::Link) => Err(Cause::Paths(PathCause::Link(copy(alloc, path)?))),
        Err(_) => Err(Cause::ReadFault),
    }
}

fn copy(alloc: Global, path: &Path) -> Result<Path, Cause>
    ensures ok { IfOk result (λ copy. copy ≡ path.now) }
    ensures err { IfErr result (λ e. e ≡ Cause.OutOfMemory) }
{
    match path.copy(alloc) {
        Ok(copy) => Ok(copy),
        Err(_) => Err(Cause::OutOfMemory),
    }
}

fn removing_line(alloc: Global, path: &Path) -> Result<Text, OutOfMemory>
    ensures { IfOk result (λ line. line ≡ removing_line path.now) }
{
    Ok(Text::from(format!(in alloc; "pg_archivecleanup: removing file \"{path}\"\n")?))
}

fn line_of(alloc: Global, debug: bool, path: &Path) -> Result<Option<Text>, OutOfMemory>
    ensures { IfOk result (λ line. line ≡ (if debug then Some (removing_line path.now) else None)) }
{
    if debug {
        Ok(Some(removing_line(alloc, path)?))
    } else {
        Ok(None)
    }
}

// The removal of a file in a folder, by its name.
#[tactic(auto, using(crate::proofs::PartLemmas::part_steps))]
fn removal_of(alloc: Global, debug: bool, folder: &Path, name: &str) -> Result<Removal, OutOfMemory>
    requires depth { length folder.now.parts ≤ 62 }
    requires part { is_part name.now ≡ true }
    ensures { IfOk result (λ made. made ≡ removal debug folder.now name.now) }
{
    let path = folder.below(alloc, name)?;
    let line = line_of(alloc, debug, &path)?;
    Ok(Removal { path, line })
}

// Makes one removal ready, where a file stands there.
fn add<F: Tree>(
    alloc: Global,
    tree: &mut F,
    queue: &mut VecDeque<Removal>,
    debug: bool,
    folder: &Path,
    name: &str,
) -> Result<(), Cause>
    requires depth { length folder.now.parts ≤ 62 }
    requires part { is_part name.now ≡ true }
    requires there { IsTrue F.tells → is_some (entry_at (F.contents tree.old) (in_folder folder.now name.now)) ≡ true }
    ensures exact { IsTrue F.tells → MatchResult result
        (λ _. entry_refusal (in_folder folder.now name.now)
        (entry_at (F.contents tree.old) (in_folder folder.now name.now)) ≡ None)
        (λ e. IsFree e ⊎ (entry_refusal (in_folder folder.now name.now)
        (entry_at (F.contents tree.old) (in_folder folder.now name.now)) ≡ Some e)) }
    ensures added { OnOk result (queue.new.items ≡ queue.old.items ++ removal debug folder.now name.now ∷ []) }
    ensures look { IfErr result IsOfLook }
    ensures only { IfErr result (λ e. IsTrue (is_of_files e)) }
    ensures reads { Reads F.Tree tree.old tree.new }
    ensures read_fault { IsErrOf result Cause.ReadFault →
        Rose (F.failed_reads tree.old) (F.failed_reads tree.new) }
    ensures changed { IsTrue F.tells → (p : PathValue) → result ≢ Err (Cause.Changed p) }
{
    let removal = match removal_of(alloc, debug, folder, name) {
        Ok(removal) => removal,
        Err(_) => return Err(Cause::OutOfMemory),
    };
    look_at(alloc, tree, &removal.path)?;
    match queue.push_back(removal) {
        Ok(()) => Ok(()),
        Err(_) => Err(Cause::OutOfMemory),
    }
}

/// The removals of the files with these names in a folder, where all are files.
///
/// Answers `Link` or `KindsDiffer` with the path of the first that is none.
pub(crate) fn removals<F: Tree>(
    alloc: Global,
    tree: &mut F,
    debug: bool,
    folder: &Path,
    names: &Names,
) -> Result<VecDeque<Removal>, Cause>
    requires depth { length folder.now.parts ≤ 62 }
    requires parts { list_all is_part names.now ≡ true }
    requires there { IsTrue F.tells → list_all (λ name.
        is_some (entry_at (F.contents tree.old) (in_folder folder.now name))) names.now ≡ true }
    ensures exact { IsTrue F.tells → MatchResult result
        (λ _. unremoved (F.contents tree.old) folder.now names.now ≡ None)
        (λ e. IsFree e ⊎ (unremoved (F.contents tree.old) folder.now names.now ≡ Some e)) }
    ensures made { IfOk result (λ queue. queue.items ≡ map (removal debug folder.now) names.now) }
    ensures look { IfErr result IsOfLook }
    ensures only { IfErr result (λ e. IsTrue (is_of_files e)) }
    ensures reads { Reads F.Tree tree.old tree.new }
    ensures read_fault { IsErrOf result Cause.ReadFault →
        Rose (F.failed_reads tree.old) (F.failed_reads tree.new) }
    ensures changed { IsTrue F.tells → (p : PathValue) → result ≢ Err (Cause.Changed p) }
{
    let mut queue = VecDeque::new(alloc);
    for at in 0..names.len() {
        let Some(name) = names.get(at) else {
            unreachable!()
        };
        match add(alloc, tree, &mut queue, debug, folder, name) {
            Ok(()) => (),
            Err(e) => return Err(e),
        }
    }
    Ok(queue)
}
