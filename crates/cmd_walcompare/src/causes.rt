// The faults of a comparison as causes.
ghost use Rattle.std.specs.Prelude.{◌≡◌, ◌≢◌, ◌⊎◌, IsTrue};
ghost use Rattle.cluster_tree.specs.PathValue.{PathValue};
ghost use Rattle.cluster_compare.specs.Faults.{IsChangedAt, IsReadFault, IsRowOf};
ghost use Rattle.run_acts.specs.Causes.{IsOfLook, is_deep, is_of_files};
ghost use Rattle.cmd_walcompare.specs.Walcompare.{compare_cause};

use cluster_causes::{cluster_cause, file_cause, walk_cause};
use cluster_compare::CompareFault;
use run_acts::Cause;

/// The cause that a fault of a comparison has. Of those that a comparison may answer it comes while
/// the command looks, and is one of files, but where a path below a root has too many parts.
pub(crate) fn compare_cause(fault: CompareFault) -> Cause
    ensures value { result ≡ compare_cause fault }
    ensures look { (a b : PathValue) → IsRowOf a b fault → IsOfLook result }
    ensures files { (a b : PathValue) → IsRowOf a b fault →
        IsTrue (is_of_files result) ⊎ IsTrue (is_deep result) }
    ensures read { result ≡ Cause.ReadFault → IsReadFault fault }
    ensures unwritten { (a b : PathValue) → IsRowOf a b fault → result ≢ Cause.WriteFault }
    ensures sink { result ≢ Cause.SinkFault }
    ensures changed { (p : PathValue) → result ≡ Cause.Changed p → IsChangedAt p fault }
{
    match fault {
        CompareFault::Cluster(fault) => cluster_cause(fault),
        CompareFault::Walk(fault) => walk_cause(fault),
        CompareFault::File(fault) => file_cause(fault),
    }
}
