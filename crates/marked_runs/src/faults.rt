// Why changes broke off.
ghost use Rattle.std.specs.Prelude.{◌≡◌};
ghost use Rattle.marked_runs.specs.Performed.{about};

use cluster_tree::Path;
use thiserror::Error;

/// Why a step of changes broke off. The caller knows about which path.
#[derive(Clone, Copy, Debug, PartialEq, Eq, Error)]
pub enum StepFault {
    /// A read of the device failed.
    #[error("a read failed")]
    ReadFault,
    /// A changing call of the device failed.
    #[error("a write failed")]
    WriteFault,
    /// The tree contradicted what it had answered earlier in the run.
    #[error("the files were changed meanwhile")]
    Contradicted,
}

/// Why changes that were planned broke off.
#[derive(Debug, Drop, Error)]
pub enum PerformFault {
    /// A read of the device failed.
    #[error("a read failed")]
    ReadFault,
    /// A changing call of the device failed.
    #[error("a write failed")]
    WriteFault,
    /// The tree contradicted, about this path, what it had answered earlier in the run.
    #[error("{0} was changed meanwhile")]
    Changed(Path),
}

/// Why a step about a path broke off, with that path.
pub fn about(fault: StepFault, path: Path) -> PerformFault
    ensures { result ≡ about fault path }
{
    match fault {
        StepFault::ReadFault => PerformFault::ReadFault,
        StepFault::WriteFault => PerformFault::WriteFault,
        StepFault::Contradicted => PerformFault::Changed(path),
    }
}
