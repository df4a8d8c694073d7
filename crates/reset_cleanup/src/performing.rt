// A reset, carried out.
ghost use Rattle.std.specs.Prelude.{◌≡◌, ◌≢◌, ◌-◌, ◌++◌, [], ◌∷◌, Err, IsErrOf, IsTrue, None, OnOk, false, length, map};
ghost use Rattle.std.specs.FinMap.{remove};
ghost use Rattle.std.specs.List.{list_any};
ghost use Rattle.cluster_tree.specs.Causes.{Rose};
ghost use Rattle.cluster_tree.specs.Change.{MakesFile, Removes, Writes, all_changed, first_refusal, is_on};
ghost use Rattle.cluster_tree.specs.Frame.{Came, moment_of};
ghost use Rattle.cluster_tree.specs.Stops.{LeavesOnly};
ghost use Rattle.control_file.specs.Admission.{IsControl};
ghost use Rattle.control_file.specs.Writing.{control_bytes};
ghost use Rattle.marked_runs.specs.Moments.{IsEnded, StandsMarked, StandsSynced};
ghost use Rattle.marked_runs.specs.Performed.{Performs};
ghost use Rattle.marked_runs.specs.Runs.{ended};
ghost use Rattle.reset_plan.specs.Plan.{body_changes, files_changes, padded, plan_changes};
ghost use Rattle.reset_cleanup.specs.Stopping.{IsPerformed};

use cluster_tree::{Path, Tree};
use control_file::{Control, write_control};
use marked_runs::{PerformFault, about, begin, finish, overwrite, remove_entry, write_padded};
use reset_plan::{Body, Files, Plan};
use std::collections::VecDeque;

// The bytes of a control file.
fn control_bytes(control: &Control) -> [u8; 8192]
    requires { IsControl control.now }
    ensures value { result ≡ control_bytes control.now }
    ensures size { length (control_bytes control.now) ≡ 8192 }
{
    let mut bytes = [0; 8192];
    write_control(control, &mut bytes);
    bytes
}

// Writes the control file.
fn put_control<F: Tree>(tree: &mut F, path: Path, control: &Control) -> Result<(), PerformFault>
    requires { IsControl control.now }
    ensures performs { Performs F.Tree (Writes path 0 (control_bytes control.now) ∷ [])
        tree.old tree.new result }
    ensures size { length (control_bytes control.now) ≡ 8192 }
    ensures frame { Came F.Tree tree.old tree.new }
    ensures read_fault { result ≢ Err PerformFault.ReadFault }
    ensures write_fault { IsErrOf result PerformFault.WriteFault →
        Rose (F.failed_changes tree.old) (F.failed_changes tree.new) }
{
    let bytes = control_bytes(control);
    match overwrite(tree, &path, 0, &bytes) {
        Ok(()) => Ok(()),
        Err(fault) => Err(about(fault, path)),
    }
}

// Removes a file.
fn remove_one<F: Tree>(tree: &mut F, path: Path) -> Result<(), PerformFault>
    ensures performs { Performs F.Tree (Removes path ∷ []) tree.old tree.new result }
    ensures frame { Came F.Tree tree.old tree.new }
    ensures read_fault { result ≢ Err PerformFault.ReadFault }
    ensures write_fault { IsErrOf result PerformFault.WriteFault →
        Rose (F.failed_changes tree.old) (F.failed_changes tree.new) }
{
    match remove_entry(tree, &path) {
        Ok(()) => Ok(()),
        Err(fault) => Err(about(fault, path)),
    }
}

// Removes files one after another.
fn remove_all<F: Tree>(tree: &mut F, mut gone: VecDeque<Path>) -> Result<(), PerformFault>
    ensures performs { Performs F.Tree (map Removes gone.items) tree.old tree.new result }
    ensures frame { Came F.Tree tree.old tree.new }
    ensures read_fault { result ≢ Err PerformFault.ReadFault }
    ensures write_fault { IsErrOf result PerformFault.WriteFault →
        Rose (F.failed_changes tree.old) (F.failed_changes tree.new) }
{
    while let Some(path) = gone.pop_front() {
        match remove_one(tree, path) {
            Ok(()) => (),
            Err(fault) => return Err(fault),
        }
    }
    Ok(())
}

// How many zeros stand behind these bytes up to a size.
fn zeros_behind(page: &[u8], size: u32) -> u64
    ensures { result ≡ size - length page.now }
{
    u64::from(size).saturating_sub(page.len() as u64)
}

// Makes a file with these bytes, and zeros up to a size.
fn put_segment<F: Tree>(
    tree: &mut F,
    path: Path,
    page: &[u8],
    size: u32,
) -> Result<(), PerformFault>
    ensures performs { Performs F.Tree
        (MakesFile path ∷ Writes path 0 (padded page.now size) ∷ []) tree.old tree.new result }
    ensures frame { Came F.Tree tree.old tree.new }
    ensures read_fault { result ≢ Err PerformFault.ReadFault }
    ensures write_fault { IsErrOf result PerformFault.WriteFault →
        Rose (F.failed_changes tree.old) (F.failed_changes tree.new) }
{
    let zeros = zeros_behind(page, size);
    match write_padded(tree, &path, page, zeros) {
        Ok(()) => Ok(()),
        Err(fault) => Err(about(fault, path)),
    }
}

// Changes the files of the log.
fn put_files<F: Tree>(tree: &mut F, files: Files) -> Result<(), PerformFault>
    ensures performs { Performs F.Tree (files_changes files) tree.old tree.new result }
    ensures frame { Came F.Tree tree.old tree.new }
    ensures read_fault { result ≢ Err PerformFault.ReadFault }
    ensures write_fault { IsErrOf result PerformFault.WriteFault →
        Rose (F.failed_changes tree.old) (F.failed_changes tree.new) }
{
    let Files {
        gone,
        path,
        page,
        size,
    } = files;
    match remove_all(tree, gone) {
        Ok(()) => put_segment(tree, path, page.bytes(), size),
        Err(fault) => Err(fault),
    }
}

// Makes the changes under the mark.
fn put_body<F: Tree>(tree: &mut F, body: Body) -> Result<(), PerformFault>
    requires { IsControl body.control }
    ensures performs { Performs F.Tree (body_changes body) tree.old tree.new result }
    ensures size { length (control_bytes body.control) ≡ 8192 }
    ensures frame { Came F.Tree tree.old tree.new }
    ensures read_fault { result ≢ Err PerformFault.ReadFault }
    ensures write_fault { IsErrOf result PerformFault.WriteFault →
        Rose (F.failed_changes tree.old) (F.failed_changes tree.new) }
{
    let Body {
        path,
        control,
        files,
    } = body;
    match put_control(tree, path, &control) {
        Ok(()) => put_files(tree, files),
        Err(fault) => Err(fault),
    }
}

// Ends the mark.
fn unmark<F: Tree>(tree: &mut F, mark: Path) -> Result<(), PerformFault>
    ensures performs { Performs F.Tree (ended mark) tree.old tree.new result }
    ensures stops { IsTrue F.tells → StandsMarked mark (moment_of F.Tree tree.old) →
        LeavesOnly (IsEnded mark (remove (F.contents tree.old) mark)) (F.stops tree.old)
        (F.stops tree.new) }
    ensures synced { IsTrue F.tells → first_refusal (F.contents tree.old) (ended mark) ≡ None →
        OnOk result (StandsSynced (remove (F.contents tree.old) mark) (moment_of F.Tree tree.new)) }
    ensures frame { Came F.Tree tree.old tree.new }
    ensures read_fault { result ≢ Err PerformFault.ReadFault }
    ensures write_fault { IsErrOf result PerformFault.WriteFault →
        Rose (F.failed_changes tree.old) (F.failed_changes tree.new) }
{
    match finish(tree, &mark) {
        Ok(()) => Ok(()),
        Err(fault) => Err(about(fault, mark)),
    }
}

// Makes the changes under the mark, and ends it.
fn put_marked<F: Tree>(tree: &mut F, mark: Path, body: Body) -> Result<(), PerformFault>
    requires { IsControl body.control }
    ensures performs { Performs F.Tree (body_changes body ++ ended mark) tree.old tree.new result }
    ensures stops { IsTrue F.tells →
        first_refusal (F.contents tree.old) (body_changes body ++ ended mark) ≡ None →
        list_any (is_on mark) (body_changes body) ≡ false →
        StandsMarked mark (moment_of F.Tree tree.old) → LeavesOnly (IsEnded mark
        (all_changed (F.contents tree.old) (body_changes body ++ ended mark)))
        (F.stops tree.old) (F.stops tree.new) }
    ensures synced { IsTrue F.tells →
        first_refusal (F.contents tree.old) (body_changes body ++ ended mark) ≡ None →
        OnOk result (StandsSynced (F.contents tree.new) (moment_of F.Tree tree.new)) }
    ensures size { length (control_bytes body.control) ≡ 8192 }
    ensures frame { Came F.Tree tree.old tree.new }
    ensures read_fault { result ≢ Err PerformFault.ReadFault }
    ensures write_fault { IsErrOf result PerformFault.WriteFault →
        Rose (F.failed_changes tree.old) (F.failed_changes tree.new) }
{
    match put_body(tree, body) {
        Ok(()) => unmark(tree, mark),
        Err(fault) => Err(fault),
    }
}

/// Carries a reset out: the mark stands from before its first other change until after its last
/// sync. Answers `WriteFault` only where a change failed, and `Changed` never where the tree tells and
/// would refuse none of the changes.
pub(crate) fn perform<F: Tree>(tree: &mut F, plan: Plan) -> Result<(), PerformFault>
    requires { IsControl plan.body.control }
    ensures performs { Performs F.Tree (plan_changes plan) tree.old tree.new result }
    // a stop leaves all untouched, the mark, or all that was to be; once all is done, what stands
    ensures stops { IsTrue F.tells → first_refusal (F.contents tree.old) (plan_changes plan) ≡ None →
        list_any (is_on plan.mark) (body_changes plan.body) ≡ false →
        LeavesOnly (IsPerformed plan (moment_of F.Tree tree.old)) (F.stops tree.old)
        (F.stops tree.new) }
    ensures synced { IsTrue F.tells → first_refusal (F.contents tree.old) (plan_changes plan) ≡ None →
        OnOk result (StandsSynced (F.contents tree.new) (moment_of F.Tree tree.new)) }
    ensures size { OnOk result (length (control_bytes plan.body.control) ≡ 8192) }
    ensures frame { Came F.Tree tree.old tree.new }
    ensures read_fault { result ≢ Err PerformFault.ReadFault }
    ensures write_fault { IsErrOf result PerformFault.WriteFault →
        Rose (F.failed_changes tree.old) (F.failed_changes tree.new) }
{
    let Plan { mark, body } = plan;
    match begin(tree, &mark, b"pg_resetwal 1\n") {
        Ok(()) => put_marked(tree, mark, body),
        Err(fault) => Err(about(fault, mark)),
    }
}
