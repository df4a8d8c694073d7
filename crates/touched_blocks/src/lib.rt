//! The blocks that records of the log touch: a set of them that takes a bit for each.
#![tactic(auto)]

mod chunk;
mod fault;
mod fields;
mod laws;
mod marks;
mod named;
mod recorded;
mod touched;

pub use fault::TouchFault;
pub use laws::touched_blocks_are_written_out;
pub use named::Named;
pub use touched::Touched;
