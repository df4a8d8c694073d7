//! What pg_archivecleanup removes, and what pg_resetwal changes.
#![tactic(auto)]

mod laws;
mod performing;
mod removal;
mod reset;

pub use archive_names::cleanup_list;
pub use laws::reset_laws;
pub use marked_runs::PerformFault;
pub use removal::cleanup;
pub use reset::reset_log;
pub use reset_plan::{ResetFault, ResetOptions, is_fit};
