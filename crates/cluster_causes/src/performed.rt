// The faults of changes as causes.
ghost use Rattle.std.specs.Prelude.{◌≡◌};
ghost use Rattle.cluster_causes.specs.Performed.{perform_cause};

use marked_runs::PerformFault;
use run_acts::Cause;

/// The cause that changes have which broke off.
pub fn perform_cause(fault: PerformFault) -> Cause
    ensures { result ≡ perform_cause fault }
{
    match fault {
        PerformFault::ReadFault => Cause::ReadFault,
        PerformFault::WriteFault => Cause::WriteFault,
        PerformFault::Changed(path) => Cause::Changed(path),
    }
}
