//! The words of the tools: what each command's words ask for.
#![tactic(auto)]

mod archivecleanup;
mod command;
mod controldata;
mod dump;
mod forms;
mod front;
mod laws;
mod numbers;
mod pair;
mod paths;
mod resetwal;
mod rewind;
mod root;
mod roots;
mod walcompare;
mod waldump;
mod walreplay;

pub use command::read_command;
pub use laws::{
    a_restart_is_read, a_resume_is_read, a_root_is_read, a_start_is_read, two_roots_are_read,
};
