// The faults of a cluster as causes.
ghost use Rattle.std.specs.Prelude.{◌≡◌, ◌≢◌, IsTrue};
ghost use Rattle.cluster_tree.specs.PathValue.{PathValue};
ghost use Rattle.run_acts.specs.Causes.{IsOfLook, is_of_files};
ghost use Rattle.cluster_causes.specs.Clusters.{cluster_cause};

use clusters::ClusterFault;
use run_acts::{Cause, ControlCause, HistoryCause};

/// The cause that a fault of a cluster has.
pub fn cluster_cause(fault: ClusterFault) -> Cause
    ensures value { result ≡ cluster_cause fault }
    ensures look { IsOfLook result }
    ensures files { IsTrue (is_of_files result) }
    ensures read { result ≡ Cause.ReadFault → fault ≡ ClusterFault.ReadFault }
    ensures write { result ≢ Cause.WriteFault }
    ensures sink { result ≢ Cause.SinkFault }
    ensures changed { (p : PathValue) → result ≡ Cause.Changed p → fault ≡ ClusterFault.Changed p }
{
    match fault {
        ClusterFault::Unfinished(path) => Cause::Unfinished(path),
        ClusterFault::ControlMissing(root) => Cause::Control(ControlCause::ControlMissing(root)),
        ClusterFault::Size(root, bytes) => Cause::Control(ControlCause::Size(root, bytes)),
        ClusterFault::Crc(root, stored, computed) => {
            Cause::Control(ControlCause::Crc(root, stored, computed))
        }
        ClusterFault::Version(root, version) => {
            Cause::Control(ControlCause::Version(root, version))
        }
        ClusterFault::Catalog(root, catalog) => {
            Cause::Control(ControlCause::Catalog(root, catalog))
        }
        ClusterFault::Shape(root, field, value) => {
            Cause::Control(ControlCause::Shape(root, field, value))
        }
        ClusterFault::HistoryMissing(root, tli) => {
            Cause::History(HistoryCause::HistoryMissing(root, tli))
        }
        ClusterFault::BadLine(root, tli, n) => Cause::History(HistoryCause::BadLine(root, tli, n)),
        ClusterFault::NotRising(root, tli, n) => {
            Cause::History(HistoryCause::NotRising(root, tli, n))
        }
        ClusterFault::ReadFault => Cause::ReadFault,
        ClusterFault::Changed(path) => Cause::Changed(path),
        ClusterFault::OutOfMemory => Cause::OutOfMemory,
    }
}
