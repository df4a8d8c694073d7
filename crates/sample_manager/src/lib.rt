//! A sample of a resource manager of an extension: its records fill slots of pages.
#![tactic(auto)]

mod change;
mod manager;
mod operation;
mod slot;
mod text;

pub use manager::SampleManager;
pub use operation::SampleOp;
pub use slot::SlotUpdate;
