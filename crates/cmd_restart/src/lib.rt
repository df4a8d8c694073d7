//! pg_walreplay --restart.
#![tactic(auto)]

mod causes;
mod line;
mod restarts;

pub use restarts::restart_replay;
