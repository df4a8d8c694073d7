//! What a command does, as a list of acts, and the texts that it puts on its sinks.
#![tactic(auto)]

mod laws;
mod puts;

pub use laws::{change_laws, text_laws};
pub use puts::{flush, put};
