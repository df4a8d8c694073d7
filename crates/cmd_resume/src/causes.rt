// The faults of a resume as causes.
ghost use Rattle.std.specs.Prelude.{◌≡◌, ◌≢◌, ◌⊎◌, IsTrue};
ghost use Rattle.cluster_tree.specs.PathValue.{PathValue};
ghost use Rattle.clusters.specs.declared.fault.ClusterFault.TheVariants as cluster;
ghost use Rattle.rewind_survey.specs.declared.fault.RewindFault.TheVariants as rewind;
ghost use Rattle.run_acts.specs.Causes.{IsOfLook, is_deep, is_of_files};
ghost use Rattle.cmd_resume.specs.Resume.{again_cause, resume_cause};

use crate::ways::way_from;
use cluster_causes::rewind_cause;
use cluster_tree::Path;
use resume_core::ResumeFault;
use resumed_writes::StoredPerformFault;
use run_acts::{Cause, RewindCause};
use std::alloc::Global;

/// The cause that a fault of a resume has; or want of memory, where it names a file of the source.
pub(crate) fn resume_cause(alloc: Global, source: &Path, fault: ResumeFault) -> Cause
    ensures value { (result ≡ resume_cause source.now fault) ⊎ (result ≡ Cause.OutOfMemory) }
    ensures look { IsOfLook result ⊎ (fault ≡ ResumeFault.Rewind rewind.WriteFault) }
    ensures files { IsTrue (is_of_files result) ⊎ IsTrue (is_deep result) ⊎
        (fault ≡ ResumeFault.Rewind rewind.WriteFault) }
    ensures read { result ≡ Cause.ReadFault →
        fault ≡ ResumeFault.Rewind (rewind.Cluster cluster.ReadFault) }
    ensures write { result ≡ Cause.WriteFault → fault ≡ ResumeFault.Rewind rewind.WriteFault }
    ensures sink { result ≢ Cause.SinkFault }
    ensures changed { (p : PathValue) → result ≡ Cause.Changed p →
        fault ≡ ResumeFault.Rewind (rewind.Cluster (cluster.Changed p)) }
{
    match fault {
        ResumeFault::Rewind(fault) => rewind_cause(fault),
        ResumeFault::BadPlan(root, number) => Cause::Rewind(RewindCause::BadPlan(root, number)),
        ResumeFault::SourceDiffers(path) => match way_from(alloc, source, &path) {
            Ok(way) => Cause::Rewind(RewindCause::SourceDiffers(way)),
            Err(_) => Cause::OutOfMemory,
        },
    }
}

/// The cause that changes have which are made again and broke off; or want of memory, where the target
/// refuses one.
pub(crate) fn again_cause(alloc: Global, target: &Path, fault: StoredPerformFault) -> Cause
    ensures value { (result ≡ again_cause target.now fault) ⊎ ((result ≡ Cause.OutOfMemory)
        × (path : PathValue) × (fault ≡ StoredPerformFault.TargetDiffers path)) }
{
    match fault {
        StoredPerformFault::ReadFault => Cause::ReadFault,
        StoredPerformFault::WriteFault => Cause::WriteFault,
        StoredPerformFault::Changed(path) => Cause::Changed(path),
        StoredPerformFault::TargetDiffers(path) => match way_from(alloc, target, &path) {
            Ok(way) => Cause::Rewind(RewindCause::TargetDiffers(way)),
            Err(_) => Cause::OutOfMemory,
        },
    }
}
