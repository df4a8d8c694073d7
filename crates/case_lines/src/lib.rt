//! The lines of worked cases that need no command: names, trees, control files, logs, what is asked, and what differs.
#![tactic(auto)]

mod asked;
mod calls;
mod control;
mod entries;
mod fault;
mod files;
mod line;
mod log;
mod names;
mod setup;
mod told;

pub use asked::{Asked, Fails, Wanted, command_of};
pub use calls::calls_from;
pub use entries::inventory;
pub use fault::{LineFault, TextFault};
pub use files::holds;
pub use line::{first_word, narrow, path, zeros};
pub use log::NewLog;
pub use names::Named;
pub use setup::set_up;
pub use told::Told;
