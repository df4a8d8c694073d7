//! Why a run ends, and how it carries out what a command does.
#![tactic(auto)]

mod cause;
mod exit;
mod laws;
mod tells;

pub use cause::{Cause, ControlCause, HistoryCause, LogCause, PathCause, ReplayCause, RewindCause};
pub use exit::Exit;
pub use laws::sink_laws;
pub use tells::tell;
