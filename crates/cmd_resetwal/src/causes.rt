// The faults of a reset as causes.
ghost use Rattle.std.specs.Prelude.{◌≡◌, ◌≢◌, ◌⊎◌, IsTrue};
ghost use Rattle.cluster_tree.specs.PathValue.{PathValue};
ghost use Rattle.reset_plan.specs.ResetFaults.{changed_at, read_failed};
ghost use Rattle.run_acts.specs.Causes.{IsOfLook, is_of_files};
ghost use Rattle.cmd_resetwal.specs.Resetwal.{reset_cause};

use cluster_causes::cluster_cause;
use reset_cleanup::ResetFault;
use run_acts::{Cause, LogCause, PathCause, RewindCause};

/// The cause that a fault of a reset has.
pub(crate) fn reset_cause(fault: ResetFault) -> Cause
    ensures value { result ≡ reset_cause fault }
    ensures look { IsOfLook result ⊎ (fault ≡ ResetFault.WriteFault) }
    ensures files { IsTrue (is_of_files result) ⊎ (fault ≡ ResetFault.WriteFault) }
    ensures read { result ≡ Cause.ReadFault → fault ≡ read_failed }
    ensures write { result ≡ Cause.WriteFault → fault ≡ ResetFault.WriteFault }
    ensures sink { result ≢ Cause.SinkFault }
    ensures changed { (p : PathValue) → result ≡ Cause.Changed p → fault ≡ changed_at p }
{
    match fault {
        ResetFault::Cluster(fault) => cluster_cause(fault),
        ResetFault::NotFolder(path) => Cause::Paths(PathCause::NotFolder(path)),
        ResetFault::BadSegment(path) => Cause::Log(LogCause::BadSegment(path)),
        ResetFault::NotClean(root, state) => Cause::Rewind(RewindCause::NotClean(root, state)),
        ResetFault::Link(path) => Cause::Paths(PathCause::Link(path)),
        ResetFault::KindsDiffer(path) => Cause::Rewind(RewindCause::KindsDiffer(path)),
        ResetFault::NameNotText(path) => Cause::Paths(PathCause::NameNotText(path)),
        ResetFault::WriteFault => Cause::WriteFault,
    }
}
