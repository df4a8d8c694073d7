// Why a stored plan could not be read.
use cluster_tree::OutOfMemory;
use thiserror::Error;

/// Why the plan in a mark could not be read.
#[derive(Clone, Copy, Debug, Error)]
pub enum StoredFault {
    /// The number, from 1, of the first line that isn't of its form or at its place, or of the line
    /// behind the last where the plan doesn't end.
    #[error("line {0} of the plan is at fault")]
    BadPlan(u64),
    /// Memory is wanting.
    #[error("out of memory")]
    OutOfMemory,
}

impl From<OutOfMemory> for StoredFault {
    ghost use Rattle.std.specs.Prelude.{◌≡◌};
    ghost use Rattle.plan_text.specs.declared.fault.StoredFault.TheVariants as fault;

    ghost from_gives = { λ _ e. e ≡ fault.OutOfMemory };

    fn from(_: OutOfMemory) -> StoredFault {
        StoredFault::OutOfMemory
    }
}
