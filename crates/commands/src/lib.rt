//! The commands: their names, and what their words ask for.
#![tactic(auto)]

mod archivecleanup;
mod command;
mod controldata;
mod fault;
mod name;
mod pair;
mod resetwal;
mod rewind;
mod walcompare;
mod waldump;
mod walreplay;

pub use archivecleanup::ArchivecleanupWords;
pub use command::Command;
pub use controldata::ControldataWords;
pub use fault::CommandFault;
pub use name::{CommandName, name_of, name_text, named};
pub use pair::PairWords;
pub use resetwal::ResetwalWords;
pub use rewind::RewindWords;
pub use walcompare::WalcompareWords;
pub use waldump::{DumpWords, Filters, WaldumpWords};
pub use walreplay::WalreplayWords;
