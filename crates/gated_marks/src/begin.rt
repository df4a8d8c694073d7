// A mark that is laid whole: its head, its text, and its gate last.
ghost use Rattle.std.specs.Prelude.{◌≡◌, ◌≢◌, ◌<◌, Err, IsErrOf, IsTrue, None, OnOk, length, slice_index};
ghost use Rattle.cluster_tree.specs.Causes.{Rose};
ghost use Rattle.cluster_tree.specs.Change.{first_refusal};
ghost use Rattle.cluster_tree.specs.Contents.{entry_at};
ghost use Rattle.cluster_tree.specs.Frame.{Came, moment_of};
ghost use Rattle.cluster_tree.specs.Stops.{LeavesOnly};
ghost use Rattle.marked_runs.specs.Carried.{Carries};
ghost use Rattle.marked_runs.specs.Moments.{StandsSynced};
ghost use Rattle.gated_marks.specs.Changes.{begun_gated};
ghost use Rattle.gated_marks.specs.Gates.{plus, whole_mark};
ghost use Rattle.gated_marks.specs.Left.{IsMarkLaid, with_mark};
ghost use Rattle.gated_marks.specs.Refused.{IsOther, IsRefused};

use crate::head::lay_head;
use crate::steps::{lay_text, open_gate};
use cluster_tree::{Path, Tree};
use marked_runs::StepFault;

/// Makes a mark that holds a text, and makes it durable: its head, whose byte at `gate` isn't `+`, is
/// laid, then the text behind it, and then the gate is opened. It has the answers of `lay_head`. A stop
/// leaves what one could have left at the start, or that but for a mark that is being emptied, whose gate
/// isn't open, or that holds exactly this text.
pub fn begin_gated<F: Tree>(
    tree: &mut F,
    mark: &Path,
    head: &[u8],
    gate: u64,
    text: &[u8],
) -> Result<(), StepFault>
    requires gate { gate < length head.now }
    requires shut { slice_index head.now gate ≢ plus }
    ensures carries { Carries F.Tree
        (begun_gated (F.contents tree.old) mark.now head.now gate text.now) tree.old tree.new result }
    ensures any_moment { IsTrue F.tells → first_refusal (F.contents tree.old)
        (begun_gated (F.contents tree.old) mark.now head.now gate text.now) ≡ None → LeavesOnly
        (IsMarkLaid (moment_of F.Tree tree.old) mark.now head.now gate text.now)
        (F.stops tree.old) (F.stops tree.new) }
    ensures synced { IsTrue F.tells → first_refusal (F.contents tree.old)
        (begun_gated (F.contents tree.old) mark.now head.now gate text.now) ≡ None → OnOk result
        (StandsSynced (with_mark (F.contents tree.old) mark.now (whole_mark head.now gate text.now))
        (moment_of F.Tree tree.new)) }
    ensures other { IsTrue F.tells → IsOther (entry_at (F.contents tree.old) mark.now) →
        IsRefused F.Tree tree.old tree.new result }
    ensures frame { Came F.Tree tree.old tree.new }
    ensures read_fault { IsErrOf result StepFault.ReadFault →
        Rose (F.failed_reads tree.old) (F.failed_reads tree.new) }
    ensures write_fault { IsErrOf result StepFault.WriteFault →
        Rose (F.failed_changes tree.old) (F.failed_changes tree.new) }
{
    match lay_head(tree, mark, head) {
        Ok(()) => match lay_text(tree, mark, head.len() as u64, text) {
            Ok(()) => open_gate(tree, mark, gate),
            Err(fault) => Err(fault),
        },
        Err(fault) => Err(fault),
    }
}
