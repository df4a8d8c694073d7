// A rewind that was planned, carried out under its mark.
ghost use Rattle.std.specs.Prelude.{◌≡◌, ◌≢◌, [], ◌∷◌, Err, false, IsErrOf, IsTrue, None, OnOk};
ghost use Rattle.std.specs.FinMap.{remove};
ghost use Rattle.std.specs.List.{list_any};
ghost use Rattle.cluster_tree.specs.Causes.{Rose};
ghost use Rattle.cluster_tree.specs.Change.{MakesFile, Writes, all_changed, first_refusal, is_on};
ghost use Rattle.cluster_tree.specs.Contents.{Contents};
ghost use Rattle.cluster_tree.specs.Frame.{Came, moment_of};
ghost use Rattle.cluster_tree.specs.Stops.{LeavesOnly};
ghost use Rattle.cluster_tree.specs.Tree.{bytes_at};
ghost use Rattle.gated_marks.specs.Gates.{IsComplete};
ghost use Rattle.marked_runs.specs.Moments.{IsSafe, StandsSynced};
ghost use Rattle.marked_runs.specs.Performed.{Performs};
ghost use Rattle.marked_runs.specs.Runs.{ended};
ghost use Rattle.rewind_writes.specs.Plan.{IsFound, IsResumable, body_changes, closing_changes, mark_gate, mark_head, plan_changes};
ghost use Rattle.rewind_writes.specs.Steps.{AllAreFit};
ghost use Rattle.rewind_writes.specs.Taken.{EndsMarked, SyncsMarked, TakesBody, TakesMarked};

use crate::Step;
use crate::stepping::take_all;
use cluster_tree::{Path, Tree};
use gated_marks::begin_gated;
use marked_runs::{PerformFault, about, finish, overwrite, write_new};
use std::collections::VecDeque;

/// A file, and bytes that are written from its start on.
#[derive(Debug, Drop)]
pub struct FileBytes {
    /// The file.
    pub path: Path,
    /// What is written.
    pub bytes: Vec<u8>,
}

/// What a rewind changes, made ready: all memory is taken.
#[derive(Drop)]
pub struct Plan {
    /// The path of the mark, which stands from before the first other change until after the last.
    pub mark: Path,
    /// Folders that are made, files that are copied and cut, what is removed, in this order.
    pub steps: VecDeque<Step>,
    /// The backup label, a new file.
    pub label: FileBytes,
    /// The control file, which is written over.
    pub control: FileBytes,
}

// Makes a file.
fn put_new<F: Tree>(tree: &mut F, file: FileBytes) -> Result<(), PerformFault>
    ensures performs { Performs F.Tree (MakesFile file.path ∷ Writes file.path 0 file.bytes.items ∷ [])
        tree.old tree.new result }
    ensures frame { Came F.Tree tree.old tree.new }
    ensures read_fault { result ≢ Err PerformFault.ReadFault }
    ensures write_fault { IsErrOf result PerformFault.WriteFault →
        Rose (F.failed_changes tree.old) (F.failed_changes tree.new) }
{
    let FileBytes { path, bytes } = file;
    match write_new(tree, &path, &bytes) {
        Ok(()) => Ok(()),
        Err(fault) => Err(about(fault, path)),
    }
}

// Writes over a file.
fn put_over<F: Tree>(tree: &mut F, file: FileBytes) -> Result<(), PerformFault>
    ensures performs { Performs F.Tree (Writes file.path 0 file.bytes.items ∷ []) tree.old tree.new result }
    ensures frame { Came F.Tree tree.old tree.new }
    ensures read_fault { result ≢ Err PerformFault.ReadFault }
    ensures write_fault { IsErrOf result PerformFault.WriteFault →
        Rose (F.failed_changes tree.old) (F.failed_changes tree.new) }
{
    let FileBytes { path, bytes } = file;
    match overwrite(tree, &path, 0, &bytes) {
        Ok(()) => Ok(()),
        Err(fault) => Err(about(fault, path)),
    }
}

// Makes the label, and then writes the control file.
fn put_closing<F: Tree>(
    tree: &mut F,
    label: FileBytes,
    control: FileBytes,
) -> Result<(), PerformFault>
    ensures performs { Performs F.Tree (closing_changes label control) tree.old tree.new result }
    ensures frame { Came F.Tree tree.old tree.new }
    ensures read_fault { result ≢ Err PerformFault.ReadFault }
    ensures write_fault { IsErrOf result PerformFault.WriteFault →
        Rose (F.failed_changes tree.old) (F.failed_changes tree.new) }
{
    match put_new(tree, label) {
        Ok(()) => put_over(tree, control),
        Err(fault) => Err(fault),
    }
}

// Ends the mark.
fn unmark<F: Tree>(tree: &mut F, mark: Path) -> Result<(), PerformFault>
    ensures performs { Performs F.Tree (ended mark) tree.old tree.new result }
    ensures synced { IsTrue F.tells → first_refusal (F.contents tree.old) (ended mark) ≡ None →
        OnOk result (StandsSynced (remove (F.contents tree.old) mark) (moment_of F.Tree tree.new)) }
    ensures frame { Came F.Tree tree.old tree.new }
    ensures read_fault { result ≢ Err PerformFault.ReadFault }
    ensures write_fault { IsErrOf result PerformFault.WriteFault →
        Rose (F.failed_changes tree.old) (F.failed_changes tree.new) }
{
    match finish(tree, &mark) {
        Ok(()) => Ok(()),
        Err(fault) => Err(about(fault, mark)),
    }
}

// All changes under the mark.
fn put_body<F: Tree>(
    tree: &mut F,
    steps: VecDeque<Step>,
    label: FileBytes,
    control: FileBytes,
) -> Result<(), PerformFault>
    requires fit { AllAreFit steps.items }
    ensures takes { (c : Contents) →
        TakesBody F.Tree c steps.items label control tree.old tree.new result }
    ensures frame { Came F.Tree tree.old tree.new }
    ensures read_fault { IsErrOf result PerformFault.ReadFault →
        Rose (F.failed_reads tree.old) (F.failed_reads tree.new) }
    ensures write_fault { IsErrOf result PerformFault.WriteFault →
        Rose (F.failed_changes tree.old) (F.failed_changes tree.new) }
{
    match take_all(tree, steps) {
        Ok(()) => put_closing(tree, label, control),
        Err(fault) => Err(fault),
    }
}

// All changes behind the making of the mark, and its end.
fn perform_marked<F: Tree>(tree: &mut F, plan: Plan) -> Result<(), PerformFault>
    requires fit { AllAreFit plan.steps.items }
    ensures takes { (c : Contents) → TakesMarked F.Tree c plan tree.old tree.new result }
    ensures stops { (c : Contents) → EndsMarked F.Tree c plan tree.old tree.new }
    ensures synced { (c : Contents) → SyncsMarked F.Tree c plan tree.old tree.new result }
    ensures frame { Came F.Tree tree.old tree.new }
    ensures read_fault { IsErrOf result PerformFault.ReadFault →
        Rose (F.failed_reads tree.old) (F.failed_reads tree.new) }
    ensures write_fault { IsErrOf result PerformFault.WriteFault →
        Rose (F.failed_changes tree.old) (F.failed_changes tree.new) }
{
    let Plan {
        mark,
        steps,
        label,
        control,
    } = plan;
    match put_body(tree, steps, label, control) {
        Ok(()) => unmark(tree, mark),
        Err(fault) => Err(fault),
    }
}

/// Carries out a rewind that was planned. Its mark, which holds this text, stands from before the
/// first other change until after the last sync; it takes no memory, and writes pieces of at most
/// 65536 bytes, but for the text.
///
/// Answers `ReadFault` only where a read failed and `WriteFault` only where a changing call did, which
/// the tree has counted, and `Changed` never where the tree tells, holds what the steps read, and would
/// refuse none of the changes in its turn: then these changes ran, all of them where it is done, else
/// the first ones, of the last perhaps a part. Where none of them but those of the mark is on it, a stop
/// at any moment leaves what one could have left at the start, the mark, or all that was to be; and
/// where it begins on synced contents without a complete mark, what is `IsResumable`: a mark that reads
/// as complete then holds just this text, and all else is an image of the changes under it. Once it is
/// done, a stop leaves what stands.
pub fn perform<F: Tree>(tree: &mut F, plan: Plan, text: &[u8]) -> Result<(), PerformFault>
    requires fit { AllAreFit plan.steps.items }
    ensures performs { IsFound (F.contents tree.old) text.now plan →
        Performs F.Tree (plan_changes (F.contents tree.old) text.now plan) tree.old tree.new result }
    ensures stops { IsTrue F.tells → IsFound (F.contents tree.old) text.now plan →
        first_refusal (F.contents tree.old) (plan_changes (F.contents tree.old) text.now plan) ≡ None →
        list_any (is_on plan.mark) (body_changes (F.contents tree.old) plan) ≡ false → LeavesOnly
        (IsSafe plan.mark (moment_of F.Tree tree.old)
        (all_changed (F.contents tree.old) (plan_changes (F.contents tree.old) text.now plan)))
        (F.stops tree.old) (F.stops tree.new) }
    ensures resumable { IsTrue F.tells → IsFound (F.contents tree.old) text.now plan →
        first_refusal (F.contents tree.old) (plan_changes (F.contents tree.old) text.now plan) ≡ None →
        list_any (is_on plan.mark) (body_changes (F.contents tree.old) plan) ≡ false →
        StandsSynced (F.contents tree.old) (moment_of F.Tree tree.old) →
        (IsComplete mark_head mark_gate (bytes_at (F.contents tree.old) plan.mark) → ⊥) → LeavesOnly
        (IsResumable (F.contents tree.old) text.now plan) (F.stops tree.old) (F.stops tree.new) }
    ensures synced { IsTrue F.tells → IsFound (F.contents tree.old) text.now plan →
        first_refusal (F.contents tree.old) (plan_changes (F.contents tree.old) text.now plan) ≡ None →
        OnOk result (StandsSynced (F.contents tree.new) (moment_of F.Tree tree.new)) }
    ensures frame { Came F.Tree tree.old tree.new }
    ensures read_fault { IsErrOf result PerformFault.ReadFault →
        Rose (F.failed_reads tree.old) (F.failed_reads tree.new) }
    ensures write_fault { IsErrOf result PerformFault.WriteFault →
        Rose (F.failed_changes tree.old) (F.failed_changes tree.new) }
{
    match begin_gated(tree, &plan.mark, b"pg_rewind 2\n-\n", 12, text) {
        Ok(()) => perform_marked(tree, plan),
        Err(fault) => Err(about(fault, plan.mark)),
    }
}
