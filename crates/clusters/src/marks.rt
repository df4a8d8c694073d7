// The marks of unfinished runs.
ghost use Rattle.std.specs.Prelude.{◌≡◌, ◌≢◌, ◌≤◌, length, IfOk, IfErr, IsTrue, Some, Err, IsErrOf};
ghost use Rattle.cluster_tree.specs.PathValue.{PathValue};
ghost use Rattle.cluster_tree.specs.Causes.{Passes, Rose};
ghost use Rattle.cluster_tree.specs.Frame.{Reads};
ghost use Rattle.cluster_tree.specs.Marks.{marks_of, mark_at};
ghost use Rattle.clusters.specs.Faults.{IsFree};
ghost use Rattle.clusters.specs.Marks.{unfinished};

use crate::ClusterFault;
use cluster_tree::{Marks, Path, PathFault, Tree, mark_present};
use std::alloc::Global;

/// Refuses a root at which a mark stands, with the first of them.
#[tactic(auto, unfolding(crate::specs::Marks::unfinished))]
pub fn check_marks<F: Tree>(alloc: Global, tree: &mut F, root: &Path) -> Result<(), ClusterFault>
    requires { length root.now.parts ≤ 61 }
    ensures answer { IsTrue F.tells → Passes IsFree (unfinished (F.contents tree.old) root.now)
        result }
    ensures reads { Reads F.Tree tree.old tree.new }
    ensures read_fault { IsErrOf result ClusterFault.ReadFault →
        Rose (F.failed_reads tree.old) (F.failed_reads tree.new) }
    ensures changed { IsTrue F.tells → (p : PathValue) → result ≢ Err (ClusterFault.Changed p) }
{
    let marks = marks_in(alloc, root)?;
    match mark_present(tree, &marks) {
        Ok(None) => Ok(()),
        Ok(Some(number)) => Err(ClusterFault::Unfinished(mark_in(alloc, &marks, number)?)),
        Err(_) => Err(ClusterFault::ReadFault),
    }
}

// The marks of a root that leaves room for them.
fn marks_in(alloc: Global, root: &Path) -> Result<Marks, ClusterFault>
    requires { length root.now.parts ≤ 61 }
    ensures is { IfOk result (λ marks. marks ≡ marks_of root.now) }
    ensures memory { IfErr result (λ e. e ≡ ClusterFault.OutOfMemory) }
{
    match Marks::new(alloc, root) {
        Ok(marks) => Ok(marks),
        Err(PathFault::OutOfMemory) => Err(ClusterFault::OutOfMemory),
        Err(PathFault::Empty | PathFault::DotDot | PathFault::TooDeep) => unreachable!(),
    }
}

// The path of the mark of this number.
fn mark_in(alloc: Global, marks: &Marks, number: u8) -> Result<Path, ClusterFault>
    requires { number ≤ 2 }
    ensures is { IfOk result (λ path. mark_at marks.now number ≡ Some path) }
    ensures memory { IfErr result (λ e. e ≡ ClusterFault.OutOfMemory) }
{
    match marks.path(number) {
        Some(path) => Ok(path.copy(alloc)?),
        None => unreachable!(),
    }
}
