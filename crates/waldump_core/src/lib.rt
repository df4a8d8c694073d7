//! The dump of a log: which of its records are shown, and as which lines.
#![tactic(auto)]

mod asked;
mod dumped;
mod fault;
mod filters;
mod first_place;
mod last_byte;
mod line;
mod lines;
mod position;
mod progress;
mod refs;
mod selection;
mod turn;
mod walk;

pub use dumped::Dumped;
pub use fault::DumpFault;
pub use selection::Selection;
pub use walk::{dump, dump_with};
