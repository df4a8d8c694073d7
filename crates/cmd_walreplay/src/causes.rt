// The faults of a replay as causes.
ghost use Rattle.std.specs.Prelude.{◌≡◌, ◌≢◌, ◌⊎◌, IsTrue};
ghost use Rattle.cluster_tree.specs.PathValue.{PathValue};
ghost use Rattle.clusters.specs.declared.fault.ClusterFault.TheVariants as cluster;
ghost use Rattle.run_acts.specs.Causes.{IsOfLook, is_deep, is_of_files};
ghost use Rattle.cmd_walreplay.specs.Walreplay.{replay_cause};

use cluster_causes::cluster_cause;
use replay_core::ReplayFault as Fault;
use run_acts::{Cause, LogCause, PathCause, ReplayCause, RewindCause};

/// The cause that a fault of a replay has.
pub fn replay_cause(fault: Fault) -> Cause
    ensures value { result ≡ replay_cause fault }
    ensures look { IsOfLook result ⊎ (fault ≡ Fault.WriteFault) }
    ensures files { IsTrue (is_of_files result) ⊎ IsTrue (is_deep result) ⊎
        (fault ≡ Fault.WriteFault) }
    ensures read { result ≡ Cause.ReadFault → fault ≡ Fault.Cluster cluster.ReadFault }
    ensures write { result ≡ Cause.WriteFault → fault ≡ Fault.WriteFault }
    ensures sink { result ≢ Cause.SinkFault }
    ensures changed { (p : PathValue) → result ≡ Cause.Changed p →
        fault ≡ Fault.Cluster (cluster.Changed p) }
{
    match fault {
        Fault::Cluster(cause) => cluster_cause(cause),
        Fault::ChecksumsOn(root) => Cause::Replay(ReplayCause::ChecksumsOn(root)),
        Fault::NoHints(root) => Cause::Rewind(RewindCause::NoHints(root)),
        Fault::NoLabel(root) => Cause::Replay(ReplayCause::NoLabel(root)),
        Fault::BadLabel(root, line) => Cause::Replay(ReplayCause::BadLabel(root, line)),
        Fault::BadParts(at, offset) => Cause::Log(LogCause::BadParts(at, offset)),
        Fault::Compressed(at, id) => Cause::Log(LogCause::Compressed(at, id)),
        Fault::NotInProfile(at, n, info) => Cause::Replay(ReplayCause::NotInProfile(at, n, info)),
        Fault::EndsTooSoon(end, least) => Cause::Replay(ReplayCause::EndsTooSoon(end, least)),
        Fault::RedoFailed(at, name, why) => Cause::Replay(ReplayCause::RedoFailed(at, name, why)),
        Fault::MissingPage(name) => Cause::Replay(ReplayCause::MissingPage(name)),
        Fault::Link(path) => Cause::Paths(PathCause::Link(path)),
        Fault::NotFolder(path) => Cause::Paths(PathCause::NotFolder(path)),
        Fault::KindsDiffer(path) => Cause::Rewind(RewindCause::KindsDiffer(path)),
        Fault::NameNotText(path) => Cause::Paths(PathCause::NameNotText(path)),
        Fault::TooDeep(path) => Cause::Paths(PathCause::TooDeep(path)),
        Fault::WriteFault => Cause::WriteFault,
    }
}
