// The mark, and what is changed behind the last record. None takes memory.
ghost use Rattle.std.specs.Prelude.{◌≡◌, ◌≢◌, [], ◌∷◌, Err, IsErrOf, IsTrue, None, OnOk, is_ok};
ghost use Rattle.std.specs.FinMap.{remove};
ghost use Rattle.cluster_tree.specs.Causes.{Rose};
ghost use Rattle.cluster_tree.specs.Change.{Removes, Writes, first_refusal};
ghost use Rattle.cluster_tree.specs.Frame.{Came, moment_of};
ghost use Rattle.cluster_tree.specs.PathValue.{PathValue};
ghost use Rattle.cluster_tree.specs.Run.{state_by};
ghost use Rattle.cluster_tree.specs.Stops.{LeavesOnly};
ghost use Rattle.clusters.specs.declared.fault.ClusterFault.TheVariants as cluster;
ghost use Rattle.control_file.specs.Admission.{IsControl};
ghost use Rattle.control_file.specs.Writing.{control_bytes};
ghost use Rattle.marked_runs.specs.Carried.{Carries};
ghost use Rattle.marked_runs.specs.Moments.{IsBegun, IsEnded, StandsMarked, StandsSynced};
ghost use Rattle.marked_runs.specs.Performed.{Performs};
ghost use Rattle.marked_runs.specs.Runs.{begun, ended};
ghost use Rattle.replay_control.specs.Following.{control_left};
ghost use Rattle.replay_core.specs.Replayed.{closing_files, control_path, label_path, mark_text};
ghost use Rattle.replay_core.specs.Stages.{EndsStand};
ghost use Rattle.replay_core.specs.Under.{left_under_or};
ghost use Rattle.replay_core.specs.Went.{Answers, Ran};
ghost use Rattle.replay_world.specs.World.{world_of};

use crate::faults::of_perform;
use crate::outcome::Replayed;
use crate::running::Count;
use cluster_tree::{Path, Tree};
use control_file::{Control, write_control};
use marked_runs::{PerformFault, StepFault, about, begin, finish, overwrite, remove_entry};
use replay_control::control_left;
use replay_start::ReplayFault;
use replay_world::Replaying;

/// Makes the mark, and makes it durable. A stop leaves what one could have left before, or the mark.
pub(crate) fn begin_mark<F: Tree>(tree: &mut F, mark: &Path) -> Result<(), StepFault>
    ensures carries { Carries F.Tree (begun mark.now mark_text) tree.old tree.new result }
    ensures stops { IsTrue F.tells →
        first_refusal (F.contents tree.old) (begun mark.now mark_text) ≡ None → LeavesOnly
        (IsBegun mark.now (moment_of F.Tree tree.old)) (F.stops tree.old) (F.stops tree.new) }
    ensures marked { IsTrue F.tells →
        first_refusal (F.contents tree.old) (begun mark.now mark_text) ≡ None → OnOk result
        (StandsMarked mark.now (moment_of F.Tree tree.new)) }
    ensures frame { Came F.Tree tree.old tree.new }
    ensures read_fault { result ≢ Err StepFault.ReadFault }
    ensures write_fault { IsErrOf result StepFault.WriteFault →
        Rose (F.failed_changes tree.old) (F.failed_changes tree.new) }
{
    begin(tree, mark, b"pg_walreplay 1\n")
}

// The bytes of a control file.
fn control_bytes(control: &Control) -> [u8; 8192]
    requires { IsControl control.now }
    ensures { result ≡ control_bytes control.now }
{
    let mut bytes = [0; 8192];
    write_control(control, &mut bytes);
    bytes
}

// Writes over the control file.
fn put_control<F: Tree>(tree: &mut F, path: Path, control: &Control) -> Result<(), PerformFault>
    requires { IsControl control.now }
    ensures performs { Performs F.Tree (Writes path 0 (control_bytes control.now) ∷ [])
        tree.old tree.new result }
    ensures frame { Came F.Tree tree.old tree.new }
    ensures read_fault { result ≢ Err PerformFault.ReadFault }
    ensures write_fault { IsErrOf result PerformFault.WriteFault →
        Rose (F.failed_changes tree.old) (F.failed_changes tree.new) }
{
    let bytes = control_bytes(control);
    match overwrite(tree, &path, 0, &bytes) {
        Ok(()) => Ok(()),
        Err(fault) => Err(about(fault, path)),
    }
}

// Removes the label.
fn drop_label<F: Tree>(tree: &mut F, path: Path) -> Result<(), PerformFault>
    ensures performs { Performs F.Tree (Removes path ∷ []) tree.old tree.new result }
    ensures frame { Came F.Tree tree.old tree.new }
    ensures read_fault { result ≢ Err PerformFault.ReadFault }
    ensures write_fault { IsErrOf result PerformFault.WriteFault →
        Rose (F.failed_changes tree.old) (F.failed_changes tree.new) }
{
    match remove_entry(tree, &path) {
        Ok(()) => Ok(()),
        Err(fault) => Err(about(fault, path)),
    }
}

// Writes the control file, and removes the label.
fn put_files<F: Tree>(
    tree: &mut F,
    path: Path,
    label: Path,
    control: &Control,
) -> Result<(), PerformFault>
    requires { IsControl control.now }
    ensures performs { Performs F.Tree (Writes path 0 (control_bytes control.now) ∷ Removes label ∷ [])
        tree.old tree.new result }
    ensures frame { Came F.Tree tree.old tree.new }
    ensures read_fault { result ≢ Err PerformFault.ReadFault }
    ensures write_fault { IsErrOf result PerformFault.WriteFault →
        Rose (F.failed_changes tree.old) (F.failed_changes tree.new) }
{
    match put_control(tree, path, control) {
        Ok(()) => drop_label(tree, label),
        Err(fault) => Err(fault),
    }
}

/// Makes all durable, and ends the mark.
pub(crate) fn unmark<F: Tree>(tree: &mut F, mark: Path) -> Result<(), PerformFault>
    ensures performs { Performs F.Tree (ended mark) tree.old tree.new result }
    ensures stops { IsTrue F.tells → StandsMarked mark (moment_of F.Tree tree.old) → LeavesOnly
        (IsEnded mark (remove (F.contents tree.old) mark)) (F.stops tree.old) (F.stops tree.new) }
    ensures synced { IsTrue F.tells → first_refusal (F.contents tree.old) (ended mark) ≡ None →
        OnOk result (StandsSynced (remove (F.contents tree.old) mark) (moment_of F.Tree tree.new)) }
    ensures frame { Came F.Tree tree.old tree.new }
    ensures read_fault { result ≢ Err PerformFault.ReadFault }
    ensures write_fault { IsErrOf result PerformFault.WriteFault →
        Rose (F.failed_changes tree.old) (F.failed_changes tree.new) }
{
    match finish(tree, &mark) {
        Ok(()) => Ok(()),
        Err(fault) => Err(about(fault, mark)),
    }
}

/// Does what is left to do behind the last record, but for the mark: no block may be missing, and then
/// the control file is written and the label removed.
pub(crate) fn settle<F: Tree>(
    tree: &mut F,
    path: Path,
    label: Path,
    world: &Replaying,
    tli: u32,
    count: Count,
) -> Result<Replayed, ReplayFault>
    requires control { IsControl world.now.control }
    requires path { path ≡ control_path world.now.files.root }
    requires label { label ≡ label_path world.now.files.root }
    requires stand { IsTrue F.tells → EndsStand (F.contents tree.old) world.now.files.root }
    ensures exact { IsTrue F.tells → Answers (left_under_or world.now.files.root tli count.records
        count.end.0 (world_of (F.contents tree.old) world.now)) (F.contents tree.new) result }
    ensures ran { IsTrue F.tells → Ran (closing_files world.now.files.root
        (control_left tli count.end.0 world.now.control)) (state_by F.contents F.calls tree.old)
        (state_by F.contents F.calls tree.new) (is_ok result) }
    ensures frame { Came F.Tree tree.old tree.new }
    ensures read_fault { result ≢ Err (ReplayFault.Cluster cluster.ReadFault) }
    ensures write_fault { IsErrOf result ReplayFault.WriteFault →
        Rose (F.failed_changes tree.old) (F.failed_changes tree.new) }
    ensures changed { IsTrue F.tells → (p : PathValue) →
        result ≢ Err (ReplayFault.Cluster (cluster.Changed p)) }
{
    if let Some(name) = world.skipped.least() {
        return Err(ReplayFault::MissingPage(name));
    }
    let Count { records, end } = count;
    match put_files(tree, path, label, &control_left(tli, end, &world.control)) {
        Ok(()) => Ok(Replayed { records, end, tli }),
        Err(fault) => Err(of_perform(fault)),
    }
}
