// Whether a folder has room for a pair.
ghost use Rattle.std.specs.Prelude.{◌≡◌, ◌≢◌, ◌≤◌, Err, IfErr, IfOk, IsErrOf, IsTrue, is_some, length};
ghost use Rattle.cluster_tree.specs.Causes.{Passes, Rose};
ghost use Rattle.cluster_tree.specs.Contents.{entry_at};
ghost use Rattle.cluster_tree.specs.Frame.{Reads};
ghost use Rattle.cluster_tree.specs.PathValue.{PathValue};
ghost use Rattle.run_acts.specs.Causes.{IsFree, IsOfLook, is_of_files};
ghost use Rattle.pair_laws.specs.Stands.{copy_of, source_of, target_of};
ghost use Rattle.cmd_pair.specs.Pair.{folder_refusal, occupied, room_refusal};

use cluster_tree::{Kind, OutOfMemory, Path, Tree, TreeFault};
use pair_maker::Pair;
use run_acts::{Cause, PathCause};
use std::alloc::Global;

// Where the clusters of a pair are to stand.
#[tactic(auto, using(pair_maker::proofs::RoomLemmas::room_steps))]
fn places(alloc: Global, root: &Path) -> Result<Pair, OutOfMemory>
    requires { length root.now.parts ≤ 60 }
    ensures target { IfOk result (λ pair. pair.target ≡ target_of root.now) }
    ensures source { IfOk result (λ pair. pair.source ≡ source_of root.now) }
    ensures copy { IfOk result (λ pair. pair.copy ≡ copy_of root.now) }
{
    let target = root.below(alloc, "t")?;
    let source = root.below(alloc, "s")?;
    let copy = root.below(alloc, "c")?;
    Ok(Pair {
        target,
        source,
        copy,
    })
}

// Refuses a root that is no folder.
fn check_folder<F: Tree>(alloc: Global, tree: &mut F, root: &Path) -> Result<(), Cause>
    ensures exact { IsTrue F.tells →
        Passes IsFree (folder_refusal (F.contents tree.old) root.now) result }
    ensures look { IfErr result IsOfLook }
    ensures only { IfErr result (λ e. IsTrue (is_of_files e)) }
    ensures reads { Reads F.Tree tree.old tree.new }
    ensures read_fault { IsErrOf result Cause.ReadFault →
        Rose (F.failed_reads tree.old) (F.failed_reads tree.new) }
    ensures changed { (p : PathValue) → result ≢ Err (Cause.Changed p) }
{
    match tree.kind(root) {
        Ok(Kind::Folder) => Ok(()),
        Err(TreeFault::Failed) => Err(Cause::ReadFault),
        Ok(Kind::Absent | Kind::File) | Err(_) => match root.copy(alloc) {
            Ok(path) => Err(Cause::Paths(PathCause::NotFolder(path))),
            Err(_) => Err(Cause::OutOfMemory),
        },
    }
}

// Whether something stands at a path, of whatever kind.
fn is_there<F: Tree>(tree: &mut F, path: &Path) -> Result<bool, Cause>
    ensures exact { IsTrue F.tells → IfOk result (λ there.
        there ≡ is_some (entry_at (F.contents tree.old) path.now)) }
    ensures only { IfErr result (λ e. e ≡ Cause.ReadFault) }
    ensures reads { Reads F.Tree tree.old tree.new }
    ensures read_fault { IsErrOf result Cause.ReadFault →
        Rose (F.failed_reads tree.old) (F.failed_reads tree.new) }
{
    match tree.kind(path) {
        Ok(Kind::Absent) => Ok(false),
        Ok(Kind::File | Kind::Folder) | Err(TreeFault::Link) => Ok(true),
        Err(_) => Err(Cause::ReadFault),
    }
}

// Refuses a path at which something stands.
fn check_free<F: Tree>(tree: &mut F, path: Path) -> Result<(), Cause>
    ensures exact { IsTrue F.tells →
        Passes IsFree (occupied (F.contents tree.old) path) result }
    ensures look { IfErr result IsOfLook }
    ensures only { IfErr result (λ e. IsTrue (is_of_files e)) }
    ensures reads { Reads F.Tree tree.old tree.new }
    ensures read_fault { IsErrOf result Cause.ReadFault →
        Rose (F.failed_reads tree.old) (F.failed_reads tree.new) }
    ensures changed { (p : PathValue) → result ≢ Err (Cause.Changed p) }
{
    if is_there(tree, &path)? {
        return Err(Cause::Paths(PathCause::Occupied(path)));
    }
    Ok(())
}

/// Refuses a root that is no folder with `NotFolder`, and one in which something stands where a cluster
/// of a pair is to stand with `Occupied` and the first such path.
#[tactic(auto, unfolding(crate::specs::Pair::room_refusal, cluster_tree::specs::Causes::first_of))]
pub(crate) fn check_room<F: Tree>(alloc: Global, tree: &mut F, root: &Path) -> Result<(), Cause>
    requires { length root.now.parts ≤ 60 }
    ensures exact { IsTrue F.tells →
        Passes IsFree (room_refusal (F.contents tree.old) root.now) result }
    ensures look { IfErr result IsOfLook }
    ensures only { IfErr result (λ e. IsTrue (is_of_files e)) }
    ensures reads { Reads F.Tree tree.old tree.new }
    ensures read_fault { IsErrOf result Cause.ReadFault →
        Rose (F.failed_reads tree.old) (F.failed_reads tree.new) }
    ensures changed { (p : PathValue) → result ≢ Err (Cause.Changed p) }
{
    let places = match places(alloc, root) {
        Ok(places) => places,
        Err(_) => return Err(Cause::OutOfMemory),
    };
    check_folder(alloc, tree, root)?;
    check_free(tree, places.target)?;
    check_free(tree, places.source)?;
    check_free(tree, places.copy)
}
