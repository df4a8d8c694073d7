// What stands at a path, asked just before a change. None takes memory.
ghost use Rattle.std.specs.Prelude.{◌≡◌, ◌↔◌, IfErr, IfOk, IsErrOf, IsTrue, None, Ok};
ghost use Rattle.cluster_tree.specs.Causes.{Rose};
ghost use Rattle.cluster_tree.specs.Contents.{entry_at};
ghost use Rattle.cluster_tree.specs.Frame.{Reads};
ghost use Rattle.cluster_tree.specs.Tree.{file_of, kind_of, refusal_past};

use cluster_tree::{Kind, Path, Tree, TreeFault};
use marked_runs::StepFault;

// Whether this kind of entry stands at a path.
pub(crate) fn has_kind<F: Tree>(tree: &mut F, path: &Path, kind: Kind) -> Result<bool, StepFault>
    ensures answer { IsTrue F.tells → IfOk result (λ there. IsTrue there ↔
        (kind_of (entry_at (F.contents tree.old) path.now) ≡ Ok kind)) }
    ensures frame { Reads F.Tree tree.old tree.new }
    ensures only { IfErr result (λ fault. fault ≡ StepFault.ReadFault) }
    ensures read_fault { IsErrOf result StepFault.ReadFault →
        Rose (F.failed_reads tree.old) (F.failed_reads tree.new) }
{
    match tree.kind(path) {
        Ok(found) => Ok(found == kind),
        Err(TreeFault::Failed) => Err(StepFault::ReadFault),
        Err(_) => Ok(false),
    }
}

// Whether a file stands at a path that has so many bytes.
pub(crate) fn reaches<F: Tree>(tree: &mut F, path: &Path, end: u64) -> Result<bool, StepFault>
    ensures answer { IsTrue F.tells → IfOk result (λ there. IsTrue there ↔
        (refusal_past (file_of (entry_at (F.contents tree.old) path.now)) end ≡ None)) }
    ensures frame { Reads F.Tree tree.old tree.new }
    ensures only { IfErr result (λ fault. fault ≡ StepFault.ReadFault) }
    ensures read_fault { IsErrOf result StepFault.ReadFault →
        Rose (F.failed_reads tree.old) (F.failed_reads tree.new) }
{
    match tree.size(path) {
        Ok(size) => Ok(end <= size),
        Err(TreeFault::Failed) => Err(StepFault::ReadFault),
        Err(_) => Ok(false),
    }
}
