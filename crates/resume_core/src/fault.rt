// Why nothing was resumed.
use cluster_tree::{OutOfMemory, Path};
use clusters::ClusterFault;
use rewind_survey::RewindFault;
use thiserror::Error;

/// Why a rewind that was stopped isn't resumed.
#[derive(Debug, Drop, Error)]
pub enum ResumeFault {
    /// What refuses any rewind: a mark of an unfinished run, or a control file; or a read failed, the
    /// tree contradicted itself, or memory was wanting.
    #[error("{0}")]
    Rewind(RewindFault),
    /// The target, and the number, from 1, of the first line of the plan in its mark that isn't of its
    /// form or at its place, or of the line behind the last where the plan doesn't end.
    #[error("line {1} of the plan in the mark of {0} is at fault")]
    BadPlan(Path, u64),
    /// A file of the source, which isn't the one that the target was planned to be rewound from.
    #[error("{0} is not what the plan was made for")]
    SourceDiffers(Path),
}

impl From<ClusterFault> for ResumeFault {
    ghost use Rattle.std.specs.Prelude.{◌≡◌};
    ghost use Rattle.rewind_survey.specs.declared.fault.RewindFault.TheVariants as rewind;
    ghost use Rattle.resume_core.specs.declared.fault.ResumeFault.TheVariants as fault;

    ghost from_gives = { λ cause e. e ≡ fault.Rewind (rewind.Cluster cause) };

    fn from(cause: ClusterFault) -> ResumeFault {
        ResumeFault::Rewind(RewindFault::Cluster(cause))
    }
}

impl From<OutOfMemory> for ResumeFault {
    ghost use Rattle.std.specs.Prelude.{◌≡◌};
    ghost use Rattle.clusters.specs.declared.fault.ClusterFault.TheVariants as cluster;
    ghost use Rattle.rewind_survey.specs.declared.fault.RewindFault.TheVariants as rewind;
    ghost use Rattle.resume_core.specs.declared.fault.ResumeFault.TheVariants as fault;

    ghost from_gives = { λ _ e. e ≡ fault.Rewind (rewind.Cluster cluster.OutOfMemory) };

    fn from(_: OutOfMemory) -> ResumeFault {
        ResumeFault::Rewind(RewindFault::Cluster(ClusterFault::OutOfMemory))
    }
}

impl From<RewindFault> for ResumeFault {
    ghost use Rattle.std.specs.Prelude.{◌≡◌};
    ghost use Rattle.resume_core.specs.declared.fault.ResumeFault.TheVariants as fault;

    ghost from_gives = { λ cause e. e ≡ fault.Rewind cause };

    fn from(cause: RewindFault) -> ResumeFault {
        ResumeFault::Rewind(cause)
    }
}
