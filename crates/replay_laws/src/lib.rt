//! Replay of a log over a cluster, seen on one block.
#![tactic(auto)]

mod checked;
mod converging;
mod logs;
mod records;
mod refusals;
mod rules;
mod touched;

pub use checked::checked_laws;
pub use converging::{blocks_converge, unchanged_blocks_end};
pub use logs::log_laws;
pub use records::record_laws;
pub use refusals::refusal_laws;
pub use rules::{managers_keep_their_rules, records_have_effects};
pub use touched::touched_laws;
