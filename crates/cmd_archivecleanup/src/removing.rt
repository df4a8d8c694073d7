// The removals, carried out.
ghost use Rattle.std.specs.Prelude.{◌≡◌, ◌≢◌, ◌≤◌, ◌⊎◌, Bool, [], ◌∷◌, None, Some, true, map, Err, IfErr, IsErrOf, IsTrue, OnErr, OnOk};
ghost use Rattle.cluster_tree.specs.Causes.{Rose};
ghost use Rattle.cluster_tree.specs.Change.{Removes};
ghost use Rattle.cluster_tree.specs.Contents.{entry_at, is_file};
ghost use Rattle.cluster_tree.specs.Frame.{Came};
ghost use Rattle.cluster_tree.specs.PathValue.{PathValue};
ghost use Rattle.marked_runs.specs.Runs.{Runs, is_done};
ghost use Rattle.acts.specs.Acts.{Sunk, seen, sunk};
ghost use Rattle.run_acts.specs.Causes.{cause_of};
ghost use Rattle.run_acts.specs.Unseen.{PerformsUnseen};
ghost use Rattle.cmd_archivecleanup.specs.Archivecleanup.{AreFiles, removals};
ghost use Rattle.cmd_archivecleanup.specs.Steps.{IsOfRemoval, Breaks, Tells, paths_of};

use crate::plan::Removal;
use cluster_tree::{Path, Sink, Tree};
use reset_cleanup::{PerformFault, cleanup};
use run_acts::{Cause, tell};
use std::collections::VecDeque;
use wal_base::Text;

// Puts the line that tells of a removal, where there is one.
fn tell_of<E: Sink>(err: &mut E, line: Option<Text>) -> Result<(), Cause>
    ensures whole { OnOk result (Tells E.tells line
        (sunk (E.written err.old) (E.failed_writes err.old))
        (sunk (E.written err.new) (E.failed_writes err.new))) }
    ensures part { OnErr result (Breaks E.tells line
        (sunk (E.written err.old) (E.failed_writes err.old))
        (sunk (E.written err.new) (E.failed_writes err.new))) }
    ensures only { IfErr result (λ e. e ≡ Cause.SinkFault) }
    ensures later { E.failed_writes err.old ≤ E.failed_writes err.new }
    ensures sink_fault { IsErrOf result Cause.SinkFault →
        Rose (E.failed_writes err.old) (E.failed_writes err.new) }
{
    match line {
        None => Ok(()),
        Some(line) => tell(err, line.as_str()),
    }
}

// Removes a file.
fn remove<F: Tree>(tree: &mut F, path: Path) -> Result<(), Cause>
    requires { IsTrue F.tells → is_file (entry_at (F.contents tree.old) path) ≡ true }
    ensures runs { IsTrue F.tells → Runs (Removes path ∷ []) (F.calls tree.old) (F.calls tree.new)
        (F.contents tree.old) (F.contents tree.new) (is_done result) }
    ensures only { IfErr result IsOfRemoval }
    ensures changed { IsTrue F.tells → (p : PathValue) → result ≢ Err (Cause.Changed p) }
    ensures frame { Came F.Tree tree.old tree.new }
    ensures write_fault { IsErrOf result Cause.WriteFault →
        Rose (F.failed_changes tree.old) (F.failed_changes tree.new) }
{
    match cleanup(tree, path) {
        Ok(()) => Ok(()),
        Err(PerformFault::ReadFault) => Err(Cause::ReadFault),
        Err(PerformFault::WriteFault) => Err(Cause::WriteFault),
        Err(PerformFault::Changed(path)) => Err(Cause::Changed(path)),
    }
}

/// Removes files one after another, each behind its line on `err` where it has one.
pub(crate) fn remove_all<F: Tree, E: Sink>(
    tree: &mut F,
    err: &mut E,
    mut queue: VecDeque<Removal>,
) -> Result<(), Cause>
    requires { IsTrue F.tells → AreFiles (F.contents tree.old) queue.items }
    ensures performs { (out_tells : Bool) (out : Sunk) → PerformsUnseen (IsTrue F.tells)
        out_tells E.tells (cause_of result) (λ contents. removals contents queue.items)
        (seen (F.contents tree.old) (F.calls tree.old) out
        (sunk (E.written err.old) (E.failed_writes err.old)))
        (seen (F.contents tree.new) (F.calls tree.new) out
        (sunk (E.written err.new) (E.failed_writes err.new))) }
    ensures runs { IsTrue F.tells → Runs (map Removes (paths_of queue.items))
        (F.calls tree.old) (F.calls tree.new) (F.contents tree.old) (F.contents tree.new)
        (is_done result) }
    ensures only { IfErr result (λ e. (e ≡ Cause.SinkFault) ⊎ IsOfRemoval e) }
    ensures changed { IsTrue F.tells → (p : PathValue) → result ≢ Err (Cause.Changed p) }
    ensures frame { Came F.Tree tree.old tree.new }
    ensures write_fault { IsErrOf result Cause.WriteFault →
        Rose (F.failed_changes tree.old) (F.failed_changes tree.new) }
    ensures later { E.failed_writes err.old ≤ E.failed_writes err.new }
    ensures sink_fault { IsErrOf result Cause.SinkFault →
        Rose (E.failed_writes err.old) (E.failed_writes err.new) }
{
    while let Some(removal) = queue.pop_front() {
        match tell_of(err, removal.line) {
            Ok(()) => (),
            Err(e) => return Err(e),
        }
        match remove(tree, removal.path) {
            Ok(()) => (),
            Err(e) => return Err(e),
        }
    }
    Ok(())
}
