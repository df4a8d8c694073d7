// Paths below a root.
ghost use Rattle.std.specs.Prelude.{◌≡◌, ◌≤◌, length, Ok, IfOk, IfErr};
ghost use Rattle.cluster_tree.specs.Paths.{checked};
ghost use Rattle.clusters.specs.Roots.{path_in, wal_folder};

use crate::ClusterFault;
use cluster_tree::Path;
use std::alloc::Global;

/// The path of this text below a root that leaves room for it. The only fault is `OutOfMemory`.
#[tactic(auto, unfolding(crate::specs::Roots::path_in))]
pub fn path_in(alloc: Global, root: &Path, text: &str) -> Result<Path, ClusterFault>
    requires room { checked (length root.now.parts) text.now ≡ Ok tt }
    ensures is { IfOk result (λ path. path ≡ path_in root.now text.now) }
    ensures memory { IfErr result (λ e. e ≡ ClusterFault.OutOfMemory) }
{
    Ok(root.below(alloc, text)?)
}

/// The folder of a root's log, `pg_wal`. The only fault is `OutOfMemory`.
#[tactic(auto, using(crate::proofs::RoomLemmas::room_steps))]
pub fn wal_folder(alloc: Global, root: &Path) -> Result<Path, ClusterFault>
    requires { length root.now.parts ≤ 61 }
    ensures is { IfOk result (λ path. path ≡ wal_folder root.now) }
    ensures memory { IfErr result (λ e. e ≡ ClusterFault.OutOfMemory) }
{
    Ok(root.below(alloc, "pg_wal")?)
}
