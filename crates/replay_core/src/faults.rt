// Faults of records and of changes, as those of a replay.
ghost use Rattle.std.specs.Prelude.{◌≡◌};
ghost use Rattle.replay_core.specs.Faults.{of_file, of_perform, of_record};

use cluster_tree::FileFault;
use clusters::ClusterFault;
use marked_runs::PerformFault;
use replay_start::ReplayFault;
use replay_world::RecordFault;

/// A fault of the files, as that of a replay: what stands in the way of an entry keeps its path.
pub fn of_file(fault: FileFault) -> ReplayFault
    ensures { result ≡ of_file fault }
{
    match fault {
        FileFault::ReadFault => ReplayFault::Cluster(ClusterFault::ReadFault),
        FileFault::WriteFault => ReplayFault::WriteFault,
        FileFault::Link(path) => ReplayFault::Link(path),
        FileFault::NotFolder(path) => ReplayFault::NotFolder(path),
        FileFault::IsFolder(path) => ReplayFault::KindsDiffer(path),
        FileFault::NameNotText(path) => ReplayFault::NameNotText(path),
        FileFault::TooDeep(path) => ReplayFault::TooDeep(path),
        FileFault::Changed(path) => ReplayFault::Cluster(ClusterFault::Changed(path)),
        FileFault::OutOfMemory => ReplayFault::Cluster(ClusterFault::OutOfMemory),
    }
}

/// A fault of a record.
pub(crate) fn of_record(fault: RecordFault) -> ReplayFault
    ensures { result ≡ of_record fault }
{
    match fault {
        RecordFault::RedoFailed(start, name, why) => ReplayFault::RedoFailed(start, name, why),
        RecordFault::File(cause) => of_file(cause),
    }
}

/// Why changes broke off.
pub(crate) fn of_perform(fault: PerformFault) -> ReplayFault
    ensures { result ≡ of_perform fault }
{
    match fault {
        PerformFault::ReadFault => ReplayFault::Cluster(ClusterFault::ReadFault),
        PerformFault::WriteFault => ReplayFault::WriteFault,
        PerformFault::Changed(path) => ReplayFault::Cluster(ClusterFault::Changed(path)),
    }
}
