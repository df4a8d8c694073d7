// The control file of a root.
ghost use Rattle.std.specs.Prelude.{◌≡◌, ◌≢◌, ◌≤◌, length, IfOk, IsTrue, Err, IsErrOf};
ghost use Rattle.cluster_tree.specs.PathValue.{PathValue};
ghost use Rattle.cluster_tree.specs.Tree.{file_of};
ghost use Rattle.cluster_tree.specs.Contents.{entry_at};
ghost use Rattle.cluster_tree.specs.Causes.{Meets, Rose};
ghost use Rattle.cluster_tree.specs.Frame.{Reads};
ghost use Rattle.control_file.specs.Admission.{IsControl};
ghost use Rattle.clusters.specs.Faults.{IsFree};
ghost use Rattle.clusters.specs.RootControl.{at_root, control_at, control_in};

use crate::ClusterFault;
use crate::paths::path_in;
use crate::whole_file::{Found, read_whole};
use cluster_tree::{Path, Tree};
use control_file::{Control, ControlFault, read_control};
use std::alloc::Global;

/// What the control file of a root says.
///
/// Answers `ControlMissing` where `global/pg_control` is not a file, then what `read_control`
/// refuses, with the root.
#[tactic(auto, using(crate::proofs::RoomLemmas::room_steps), unfolding(crate::specs::RootControl::control_at))]
pub fn control_at<F: Tree>(
    alloc: Global,
    tree: &mut F,
    root: &Path,
) -> Result<Control, ClusterFault>
    requires { length root.now.parts ≤ 61 }
    ensures exact { IsTrue F.tells → Meets IsFree (control_at (F.contents tree.old) root.now)
        result }
    // what is read can be written and shown, over every tree
    ensures control { IfOk result IsControl }
    ensures reads { Reads F.Tree tree.old tree.new }
    ensures read_fault { IsErrOf result ClusterFault.ReadFault →
        Rose (F.failed_reads tree.old) (F.failed_reads tree.new) }
    ensures changed { IsTrue F.tells → (p : PathValue) → result ≢ Err (ClusterFault.Changed p) }
{
    let path = path_in(alloc, root, "global/pg_control")?;
    control_in(alloc, tree, root, path)
}

// What the control file at this path says.
#[tactic(auto, using(crate::proofs::ReadingLemmas::control_steps))]
fn control_in<F: Tree>(
    alloc: Global,
    tree: &mut F,
    root: &Path,
    path: Path,
) -> Result<Control, ClusterFault>
    ensures exact { IsTrue F.tells → Meets IsFree (control_in root.now
        (file_of (entry_at (F.contents tree.old) path))) result }
    ensures control { IfOk result IsControl }
    ensures reads { Reads F.Tree tree.old tree.new }
    ensures read_fault { IsErrOf result ClusterFault.ReadFault →
        Rose (F.failed_reads tree.old) (F.failed_reads tree.new) }
    ensures changed { IsTrue F.tells → (p : PathValue) → result ≢ Err (ClusterFault.Changed p) }
{
    let mut bytes = [0; 8192];
    match read_whole(tree, path, &mut bytes)? {
        Found::Missing => Err(ClusterFault::ControlMissing(root.copy(alloc)?)),
        Found::OtherSize(size) => Err(ClusterFault::Size(root.copy(alloc)?, size)),
        Found::Filled => at_root(alloc, root, read_control(&bytes)),
    }
}

// The refusals of a control file, with its root.
fn at_root(
    alloc: Global,
    root: &Path,
    read: Result<Control, ControlFault>,
) -> Result<Control, ClusterFault>
    requires { IfOk read IsControl }
    ensures exact { Meets IsFree (at_root root.now read) result }
    ensures control { IfOk result IsControl }
    ensures read_fault { result ≢ Err ClusterFault.ReadFault }
    ensures changed { (p : PathValue) → result ≢ Err (ClusterFault.Changed p) }
{
    let fault = match read {
        Ok(control) => return Ok(control),
        Err(fault) => fault,
    };
    let root = root.copy(alloc)?;
    Err(match fault {
        ControlFault::Size(size) => ClusterFault::Size(root, size),
        ControlFault::Crc(stored, computed) => ClusterFault::Crc(root, stored, computed),
        ControlFault::Version(version) => ClusterFault::Version(root, version),
        ControlFault::Catalog(catalog) => ClusterFault::Catalog(root, catalog),
        ControlFault::Shape(field, value) => ClusterFault::Shape(root, field, value),
    })
}
