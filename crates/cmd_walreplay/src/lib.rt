//! pg_walreplay.
#![tactic(auto)]

mod causes;
mod laws;
mod line;
mod replays;

pub use causes::replay_cause;
pub use laws::mark_laws;
pub use line::{Line, replayed_line};
pub use replays::walreplay;
