// The faults of a rewind as causes.
ghost use Rattle.std.specs.Prelude.{◌≡◌, ◌≢◌, ◌⊎◌, IsTrue};
ghost use Rattle.cluster_tree.specs.PathValue.{PathValue};
ghost use Rattle.clusters.specs.declared.fault.ClusterFault.TheVariants as cluster;
ghost use Rattle.run_acts.specs.Causes.{IsOfLook, is_deep, is_of_files};
ghost use Rattle.cluster_causes.specs.Rewind.{rewind_cause};

use crate::of_cluster::cluster_cause;
use rewind_survey::RewindFault as Fault;
use run_acts::{Cause, HistoryCause, LogCause, PathCause, RewindCause};

/// The cause that a fault of a rewind has. It comes while the command looks, and is one of files, but
/// where a path below a root has too many parts, and where a change failed.
pub fn rewind_cause(fault: Fault) -> Cause
    ensures value { result ≡ rewind_cause fault }
    ensures look { IsOfLook result ⊎ (fault ≡ Fault.WriteFault) }
    ensures files { IsTrue (is_of_files result) ⊎ IsTrue (is_deep result) ⊎
        (fault ≡ Fault.WriteFault) }
    ensures read { result ≡ Cause.ReadFault → fault ≡ Fault.Cluster cluster.ReadFault }
    ensures write { result ≡ Cause.WriteFault → fault ≡ Fault.WriteFault }
    ensures sink { result ≢ Cause.SinkFault }
    ensures changed { (p : PathValue) → result ≡ Cause.Changed p →
        fault ≡ Fault.Cluster (cluster.Changed p) }
{
    match fault {
        Fault::Cluster(cause) => cluster_cause(cause),
        Fault::SystemsDiffer(t, s) => Cause::Rewind(RewindCause::SystemsDiffer(t, s)),
        Fault::NoHints(root) => Cause::Rewind(RewindCause::NoHints(root)),
        Fault::NotClean(root, state) => Cause::Rewind(RewindCause::NotClean(root, state)),
        Fault::NoCommonAncestor => Cause::History(HistoryCause::NoCommonAncestor),
        Fault::LogEnds(at, why) => Cause::Log(LogCause::LogEnds(at, why)),
        Fault::BadParts(at, offset) => Cause::Log(LogCause::BadParts(at, offset)),
        Fault::Compressed(at, id) => Cause::Log(LogCause::Compressed(at, id)),
        Fault::NoCommonCheckpoint(at) => Cause::Rewind(RewindCause::NoCommonCheckpoint(at)),
        Fault::UnknownSpecial(at, n, info) => {
            Cause::Rewind(RewindCause::UnknownSpecial(at, n, info))
        }
        Fault::EndNotRecord(end, found) => Cause::Rewind(RewindCause::EndNotRecord(end, found)),
        Fault::Link(path) => Cause::Paths(PathCause::Link(path)),
        Fault::NotFolder(root) => Cause::Paths(PathCause::NotFolder(root)),
        Fault::NameNotText(path) => Cause::Paths(PathCause::NameNotText(path)),
        Fault::TooDeep(path) => Cause::Paths(PathCause::TooDeep(path)),
        Fault::OddSize(path, bytes) => Cause::Rewind(RewindCause::OddSize(path, bytes)),
        Fault::KindsDiffer(path) => Cause::Rewind(RewindCause::KindsDiffer(path)),
        Fault::WriteFault => Cause::WriteFault,
    }
}
