// Why changes that are done again broke off.
ghost use Rattle.std.specs.Prelude.{◌≡◌};
ghost use Rattle.resumed_writes.specs.Outcomes.{at_source, at_target};

use cluster_tree::Path;
use marked_runs::StepFault;
use thiserror::Error;

/// Why changes that are done again broke off.
#[derive(Debug, Drop, Error)]
pub enum StoredPerformFault {
    /// A read of the device failed.
    #[error("a read failed")]
    ReadFault,
    /// A changing call of the device failed.
    #[error("a write failed")]
    WriteFault,
    /// This file of the source isn't there, or is shorter than the plan says.
    #[error("{0} was changed meanwhile")]
    Changed(Path),
    /// What stands in the target refuses the next change, which is one at this path.
    #[error("{0} isn't what the plan changes")]
    TargetDiffers(Path),
}

// Why a read of the source at this path broke off.
pub(crate) fn at_source(fault: StepFault, path: Path) -> StoredPerformFault
    ensures { result ≡ at_source path fault }
{
    match fault {
        StepFault::ReadFault => StoredPerformFault::ReadFault,
        StepFault::WriteFault => StoredPerformFault::WriteFault,
        StepFault::Contradicted => StoredPerformFault::Changed(path),
    }
}

// The outcome of a change of the target at this path.
pub(crate) fn at_target(done: Result<(), StepFault>, path: Path) -> Result<(), StoredPerformFault>
    ensures { result ≡ at_target path done }
{
    match done {
        Ok(()) => Ok(()),
        Err(StepFault::ReadFault) => Err(StoredPerformFault::ReadFault),
        Err(StepFault::WriteFault) => Err(StoredPerformFault::WriteFault),
        Err(StepFault::Contradicted) => Err(StoredPerformFault::TargetDiffers(path)),
    }
}
