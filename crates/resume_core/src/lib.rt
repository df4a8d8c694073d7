//! A rewind that was stopped under its mark: read from there, and held against its source.
#![tactic(auto)]

mod fault;
mod marks;
mod source;
mod stored;

pub use fault::ResumeFault;
pub use stored::stored_rewind;
