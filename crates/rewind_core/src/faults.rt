// Faults of a walk and of what is carried out, as those of a rewind.
ghost use Rattle.std.specs.Prelude.{◌≡◌};
ghost use Rattle.rewind_core.specs.Faults.{of_file, of_perform, of_walk};

use cluster_tree::FileFault;
use clusters::ClusterFault;
use file_walk::WalkFault;
use marked_runs::PerformFault;
use rewind_survey::RewindFault;

// A fault of a file.
fn of_file(fault: FileFault) -> RewindFault
    ensures { result ≡ of_file fault }
{
    match fault {
        FileFault::ReadFault => RewindFault::Cluster(ClusterFault::ReadFault),
        FileFault::WriteFault => RewindFault::WriteFault,
        FileFault::Link(path) => RewindFault::Link(path),
        FileFault::NotFolder(path) => RewindFault::NotFolder(path),
        FileFault::IsFolder(path) => RewindFault::Cluster(ClusterFault::Changed(path)),
        FileFault::NameNotText(path) => RewindFault::NameNotText(path),
        FileFault::TooDeep(path) => RewindFault::TooDeep(path),
        FileFault::Changed(path) => RewindFault::Cluster(ClusterFault::Changed(path)),
        FileFault::OutOfMemory => RewindFault::Cluster(ClusterFault::OutOfMemory),
    }
}

/// A fault of a walk.
pub(crate) fn of_walk(fault: WalkFault) -> RewindFault
    ensures { result ≡ of_walk fault }
{
    match fault {
        WalkFault::Link(path) => RewindFault::Link(path),
        WalkFault::NameNotText(path) => RewindFault::NameNotText(path),
        WalkFault::TooDeep(path) => RewindFault::TooDeep(path),
        WalkFault::OddSize(path, size) => RewindFault::OddSize(path, size),
        WalkFault::File(cause) => of_file(cause),
    }
}

/// A fault of what is carried out.
pub(crate) fn of_perform(fault: PerformFault) -> RewindFault
    ensures { result ≡ of_perform fault }
{
    match fault {
        PerformFault::ReadFault => RewindFault::Cluster(ClusterFault::ReadFault),
        PerformFault::WriteFault => RewindFault::WriteFault,
        PerformFault::Changed(path) => RewindFault::Cluster(ClusterFault::Changed(path)),
    }
}
