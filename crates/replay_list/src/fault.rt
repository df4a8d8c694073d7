// Why a list could not be read.
use cluster_tree::OutOfMemory;
use thiserror::Error;

/// Why the list in a mark could not be read.
#[derive(Clone, Copy, Debug, Error)]
pub enum ListFault {
    /// The number, from 1, of the first line that isn't of its form or at its place, or of the line behind
    /// the last where the list doesn't end.
    #[error("line {0} of the list is at fault")]
    BadLine(u64),
    /// Memory is wanting.
    #[error("out of memory")]
    OutOfMemory,
}

impl From<OutOfMemory> for ListFault {
    ghost use Rattle.std.specs.Prelude.{◌≡◌};
    ghost use Rattle.replay_list.specs.declared.fault.ListFault.TheVariants as fault;

    ghost from_gives = { λ _ e. e ≡ fault.OutOfMemory };

    fn from(_: OutOfMemory) -> ListFault {
        ListFault::OutOfMemory
    }
}
